//! How large sums of terms can be.
ghost use Rattle.std.specs.Prelude.{◌≡◌, ◌<◌, ◌^◌, nat_lt};
ghost use Rattle.dom_core.specs.Ends.{scaled_ends, size_of};
ghost use Rattle.kind_law.specs.Argument.{ArgHas, arg_ends, distinct};
ghost use Rattle.kind_law.specs.Laws.{AllBelow, AreSmall, Each, EndsIn, small_ends};
ghost use Rattle.kind_sum.specs.Sum.{magnitude, vars_of};

use crate::term::Term;
use dom_core::{Interval, Intervals};
use kind_law::{Reading, span};

/// The greatest size that the terms of a sum may have together.
const LIMIT: u128 = 1 << 100;

/// Whether the sizes of the terms over small intervals come to more than 2 ^ 100. It stops where they do.
pub fn is_wide<I: Intervals>(terms: &[Term], intervals: &I) -> bool
    requires below { AllBelow (I.width intervals.now) (distinct (vars_of terms.now)) }
    requires ready { Each (λ u. I.ready intervals.now u.0) (distinct (vars_of terms.now)) }
    requires small { AreSmall (distinct (vars_of terms.now)) (I.spans intervals.now) }
    ensures { result ≡ nat_lt (2 ^ 100) (magnitude terms.now (arg_ends (I.spans intervals.now))) }
{
    let mut left = LIMIT;
    for term in terms {
        let size = term_size(*term, intervals);
        if left < size {
            return true;
        }
        left -= size;
    }
    false
}

/// How large the term can be over small intervals.
fn term_size<I: Intervals>(term: Term, intervals: &I) -> u128
    requires below { ArgHas (λ u. u.0 < I.width intervals.now) term.arg }
    requires ready { ArgHas (λ u. I.ready intervals.now u.0) term.arg }
    requires small { ArgHas (λ u. EndsIn (I.spans intervals.now u.0) small_ends) term.arg }
    ensures { result ≡ size_of (scaled_ends term.coef (arg_ends (I.spans intervals.now) term.arg)) }
{
    let part = span(term.arg, Reading::Values, intervals).scale(term.coef as i128);
    size_of(part)
}

/// The greatest size of an integer of the interval.
fn size_of(interval: Interval) -> u128
    ensures { result ≡ size_of interval }
{
    let lo = interval.lo().unsigned_abs();
    let hi = interval.hi().unsigned_abs();
    lo.max(hi)
}
