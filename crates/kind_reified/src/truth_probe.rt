//! Truths of sums of which the interval is known: what one variable's bound makes of them.
ghost use Rattle.std.specs.Prelude.{◌≡◌, ◌<◌, ◌≤ℤ◌, ◌+ℤ◌, ◌-ℤ◌, FitsSigned};
ghost use Rattle.std.specs.Int.{w128};
ghost use Rattle.dom_core.specs.Ends.{scaled_ends, replaced_ends};
ghost use Rattle.dom_core.specs.Ends.{HasBits};

use dom_cells::{Cells, Hulls, Kept};
use dom_core::{Arg, Interval, Intervals, Literal, VarId};
use kind_law::{Probe, are_apart};
use kind_sum::SumRelation;

/// A truth, with the intervals of its sum and of its output over a box, asked about the variable of one of its terms.
#[derive(Drop)]
pub(crate) struct TruthProbe<'a> {
    pub(crate) linear: &'a SumRelation,
    pub(crate) output: Arg,
    pub(crate) coef: i64,
    pub(crate) total: Interval,
    pub(crate) span: Interval,
}

impl Probe for TruthProbe<'_> {
    ghost use Rattle.std.specs.Prelude.{false};
    ghost use Rattle.dom_cells.specs.Box.{cell_of};
    ghost use Rattle.kind_reified.specs.LinearReified.{truth_of, reified_vars, reified_refuted};
    ghost use Rattle.kind_reified.specs.LinearReifiedLaws.{reified-shrink};
    ghost use Rattle.kind_reified.specs.TruthNext.{IsTruthSlack};

    ghost vars = { λ p. reified_vars (truth_of p.linear.now p.output) };

    ghost inside = { λ p v. false };

    ghost refuted = { λ p. reified_refuted (truth_of p.linear.now p.output) };

    ghost answers = { λ p m u. IsTruthSlack (truth_of p.linear.now p.output) p.coef p.total p.span (cell_of m) u };

    fn is_refuted_within(&self, cells: &Cells, literal: Literal) -> bool {
        let _width = cells.width();
        let kept = Kept { cells, literal };
        let old = part(self.coef, literal.var, &Hulls(cells));
        let new = part(self.coef, literal.var, &Hulls(&kept));
        let total = replaced(self.total, old, new);
        are_apart(self.linear.truth(total), self.span)
    }

    ghost shrink_law = { λ p. reified-shrink (truth_of p.linear.now p.output) };
}

/// The interval of a term.
fn part<I: Intervals>(coef: i64, var: VarId, intervals: &I) -> Interval
    requires below { var.0 < I.width intervals.now }
    requires ready { I.ready intervals.now var.0 }
    requires bits { HasBits 101 (scaled_ends coef (I.spans intervals.now var.0)) }
    ensures { result ≡ scaled_ends coef (I.spans intervals.now var.0) }
{
    intervals.interval(var).scale(coef as i128)
}

/// The interval of a sum where one of its parts is replaced by another.
fn replaced(total: Interval, old: Interval, new: Interval) -> Interval
    requires total { HasBits 101 total }
    requires old { HasBits 101 old }
    requires new { HasBits 101 new }
    requires rest { (total.lo -ℤ old.lo) ≤ℤ (total.hi -ℤ old.hi) }
    ensures { result ≡ replaced_ends total old new }
{
    let lo = exchanged(total.lo(), old.lo(), new.lo());
    let hi = exchanged(total.hi(), old.hi(), new.hi());
    Interval::new(lo, hi)
}

/// A sum with one of its parts exchanged.
fn exchanged(total: i128, old: i128, new: i128) -> i128
    requires rest { FitsSigned w128 (total -ℤ old) }
    requires whole { FitsSigned w128 ((total -ℤ old) +ℤ new) }
    ensures { result ≡ (total -ℤ old) +ℤ new }
{
    total - old + new
}
