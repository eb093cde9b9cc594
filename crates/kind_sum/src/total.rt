//! Sums of terms over intervals.
ghost use Rattle.std.specs.Prelude.{◌≡◌, ◌<◌, ◌≤◌, ◌^◌, ◌≤ℤ◌, ◌*ℤ◌, FitsSigned};
ghost use Rattle.std.specs.Int.{w128};
ghost use Rattle.dom_core.specs.Ends.{scaled_ends};
ghost use Rattle.kind_law.specs.Laws.{Each};
ghost use Rattle.kind_law.specs.Argument.{arg_span};
ghost use Rattle.kind_sum.specs.Sum.{total, magnitude, vars_of};

use crate::term::Term;
use dom_core::{Interval, Intervals};
use kind_law::{Reading, span};

/// The interval of the sum, where each argument lies in its interval.
pub fn total_of<I: Intervals>(terms: &[Term], reading: Reading, intervals: &I) -> Interval
    requires below { Each (λ u. u.0 < I.width intervals.now) (vars_of terms.now) }
    requires ready { Each (λ u. I.ready intervals.now u.0) (vars_of terms.now) }
    requires fits { magnitude terms.now (arg_span reading (I.spans intervals.now)) ≤ 2 ^ 102 }
    ensures { result ≡ total terms.now (arg_span reading (I.spans intervals.now)) }
{
    let mut sum = Interval::new(0, 0);
    for term in terms {
        let interval = span(term.arg, reading, intervals);
        let part = part_of(term.coef, interval);
        sum = sum.add(part);
    }
    sum
}

/// The multiples of the interval. Ends of 64 bits are multiplied as such, which takes a third of the steps.
fn part_of(coef: i64, interval: Interval) -> Interval
    requires low { FitsSigned w128 (scaled_ends coef interval).lo }
    requires high { FitsSigned w128 (scaled_ends coef interval).hi }
    ensures { result ≡ scaled_ends coef interval }
{
    let lo = interval.lo();
    let hi = interval.hi();
    let least = i64::MIN as i128;
    let greatest = i64::MAX as i128;
    if lo < least || greatest < hi {
        return interval.scale(coef as i128);
    }
    narrow_part(coef, lo as i64, hi as i64)
}

/// The multiples of the numbers between two of 64 bits.
fn narrow_part(coef: i64, lo: i64, hi: i64) -> Interval
    requires { lo ≤ℤ hi }
    ensures { result ≡ scaled_ends coef (record { lo = lo; hi = hi }) }
{
    let at_low = product(coef, lo);
    let at_high = product(coef, hi);
    if coef < 0 {
        return Interval::new(at_high, at_low);
    }
    Interval::new(at_low, at_high)
}

/// The product, which 128 bits hold.
fn product(coef: i64, value: i64) -> i128
    ensures { result ≡ coef *ℤ value }
{
    coef as i128 * value as i128
}
