//! Reasons of truths of sums: one end of the output, and what makes the sum certain or refuted.
ghost use Rattle.std.specs.Prelude.{◌≡◌, ◌<◌, ◌≤ℤ◌, FitsSigned, [], length, pos, true, false, OnOk, MatchOption};
ghost use Rattle.std.specs.Int.{w64};
ghost use Rattle.dom_cells.specs.Box.{cell_of};
ghost use Rattle.dom_cells.specs.Cell.{IsSane};
ghost use Rattle.kind_law.specs.Laws.{AllBelow, hulls};
ghost use Rattle.kind_law.specs.Reason.{AddsFine, IsCause, IsOpen, IsOpenEnd, IsRead, IsReason, asked};
ghost use Rattle.kind_sum.specs.Explained.{IsCertainExcess};
ghost use Rattle.kind_reified.specs.Verdict.{ArgCovers, IsVerdict};
ghost use Rattle.kind_sum.specs.SumRelation.{SumFits, sum_vars};
ghost use Rattle.dom_core.specs.Ends.{HasBits};
ghost use Rattle.kind_parts.specs.Relation.{is_difference, is_equality};
ghost use Rattle.kind_reified.specs.LinearReified.{LinearReified, truth_of, reified_refuted, reified_vars};
ghost use Rattle.kind_parts.specs.Relation.{certain_by};
ghost use Rattle.kind_law.specs.Argument.{ArgHas, arg_ends};
ghost use Rattle.kind_sum.specs.Sum.{total};

use dom_cells::{Cells, Hulls, Region};
use dom_core::{Arg, Clause, Interval, Literal, Relation};
use kind_law::{Asked, Reading, Side, add_implied, explain_end, span};
use kind_parts::{is_certain, is_difference, is_equality, is_refuted};
use kind_sum::{Excess, SumRelation, asked_total, beyond, excess_of, explain_sum};
use std::alloc::AllocError;

/// Why the truths and the output have nothing in common: the output's end on this side, and the sum's side.
#[derive(Clone, Copy)]
pub(crate) struct Verdict {
    pub(crate) excess: Excess,
    pub(crate) side: Side,
}

/// Why the truths over the refuted box and the output have nothing in common, where one end of the sum tells it.
pub(crate) fn verdict_of(
    linear: &SumRelation,
    output: Arg,
    cells: &Cells,
    implied: Option<Literal>,
) -> Option<Verdict>
    requires below { AllBelow (length cells.now.state.starts) (sum_vars linear.now) }
    requires output { ArgHas (λ u. u.0 < length cells.now.state.starts) output }
    requires fits { SumFits linear.now (hulls (cell_of cells.now.state)) }
    requires open { IsOpen (cell_of cells.now.state) implied }
    requires var { IsRead (length cells.now.state.starts) implied }
    ensures { MatchOption result (Unit {0}) (IsVerdict linear.now
        (total linear.now.terms (arg_ends (hulls (asked cells.now.state implied))))
        (arg_ends (hulls (asked cells.now.state implied)) output)) }
{
    let total = asked_total(linear, cells, implied);
    let output = asked_span(output, cells, implied);
    if output.lo() >= 1 {
        return refuted_verdict(linear, total, output);
    }
    if output.hi() <= 0 {
        return certain_verdict(linear, total, output);
    }
    None
}

/// Why the relation is refuted, so that an output of 1 fails.
fn refuted_verdict(linear: &SumRelation, total: Interval, output: Interval) -> Option<Verdict>
    requires bits { HasBits 101 total }
    requires output { pos 1 ≤ℤ output.lo }
    ensures { MatchOption result (Unit {0}) (IsVerdict linear.now total output) }
{
    let relation = linear.relation();
    if is_difference(relation) || !is_refuted(relation, total, linear.bound()) {
        return None;
    }
    Some(Verdict {
        excess: excess_of(relation, total, linear.bound()),
        side: Side::Low,
    })
}

/// Why the relation is certain, so that an output of 0 fails.
fn certain_verdict(linear: &SumRelation, total: Interval, output: Interval) -> Option<Verdict>
    requires bits { HasBits 101 total }
    requires output { output.hi ≤ℤ pos 0 }
    ensures { MatchOption result (Unit {0}) (IsVerdict linear.now total output) }
{
    let relation = linear.relation();
    if is_equality(relation) || !is_certain(relation, total, linear.bound()) {
        return None;
    }
    Some(Verdict {
        excess: certain_excess(relation, total, linear.bound()),
        side: Side::High,
    })
}

/// On which side a certain sum lies, and how much less would still be certain.
fn certain_excess(relation: Relation, total: Interval, bound: i64) -> Excess
    requires certain { certain_by relation total bound ≡ true }
    requires bits { HasBits 101 total }
    requires relation { is_equality relation ≡ false }
    ensures { IsCertainExcess relation bound total result }
{
    match relation {
        Relation::AtMost => within_excess(total, bound as i128),
        Relation::Equal => unreachable!(),
        Relation::Differ => apart_excess(total, bound as i128),
    }
}

/// How far below the number the sum lies.
fn within_excess(total: Interval, bound: i128) -> Excess
    requires certain { certain_by Relation.AtMost total bound ≡ true }
    requires bits { HasBits 101 total }
    requires bound { FitsSigned w64 bound }
    ensures { IsCertainExcess Relation.AtMost bound total result }
{
    Excess {
        turned: true,
        slack: beyond(total.hi(), bound + 1),
    }
}

/// On which side of the number the sum lies, and how far.
fn apart_excess(total: Interval, bound: i128) -> Excess
    requires certain { certain_by Relation.Differ total bound ≡ true }
    requires bits { HasBits 101 total }
    requires bound { FitsSigned w64 bound }
    ensures { IsCertainExcess Relation.Differ bound total result }
{
    if bound < total.lo() {
        return Excess {
            turned: false,
            slack: beyond(bound, total.lo()),
        };
    }
    Excess {
        turned: true,
        slack: beyond(total.hi(), bound),
    }
}

/// The interval of an argument over the box that is refuted.
fn asked_span(arg: Arg, cells: &Cells, implied: Option<Literal>) -> Interval
    requires below { ArgHas (λ u. u.0 < length cells.now.state.starts) arg }
    requires open { IsOpen (cell_of cells.now.state) implied }
    requires var { IsRead (length cells.now.state.starts) implied }
    ensures { result ≡ arg_ends (hulls (asked cells.now.state implied)) arg }
{
    let _width = cells.width();
    let region = Asked::new(cells, implied);
    span_in(arg, &region)
}

/// The interval of an argument over a box.
fn span_in<R: Region>(arg: Arg, region: &R) -> Interval
    requires below { ArgHas (λ u. u.0 < R.width region.now) arg }
    requires sane { ArgHas (λ u. IsSane (R.cells region.now u.0)) arg }
    ensures { result ≡ arg_ends (hulls (R.cells region.now)) arg }
{
    span(arg, Reading::Values, &Hulls(region))
}

/// Writes the reason of a truth into an empty clause.
pub(crate) fn write_truth_reason(
    linear: &SumRelation,
    output: Arg,
    cells: &Cells,
    implied: Option<Literal>,
    verdict: Verdict,
    out: &mut Clause,
) -> Result<(), AllocError>
    requires below { AllBelow (length cells.now.state.starts) (sum_vars linear.now) }
    requires output { ArgHas (λ u. u.0 < length cells.now.state.starts) output }
    requires cause { IsCause (reified_refuted (truth_of linear.now output)) (cell_of cells.now.state)
        implied }
    requires var { IsRead (length cells.now.state.starts) implied }
    requires verdict { IsVerdict linear.now
        (total linear.now.terms (arg_ends (hulls (asked cells.now.state implied))))
        (arg_ends (hulls (asked cells.now.state implied)) output) verdict }
    requires empty { out.old ≡ [] }
    ensures { OnOk result (IsReason (reified_refuted (truth_of linear.now output)) cells.now.state implied
        out.new) }
{
    let _width = cells.width();
    explain_arg(output, cells, implied, verdict.side, out)?;
    explain_sum(linear.terms(), cells, implied, verdict.excess, out)?;
    add_implied(implied, out)?;
    Ok(())
}

/// Tells the end of the argument, where that is a variable.
fn explain_arg(
    arg: Arg,
    cells: &Cells,
    implied: Option<Literal>,
    side: Side,
    out: &mut Clause,
) -> Result<(), AllocError>
    requires below { ArgHas (λ u. u.0 < length cells.now.state.starts) arg }
    requires open { IsOpen (cell_of cells.now.state) implied }
    ensures fine { OnOk result (AddsFine cells.now.state out.old out.new) }
    ensures covers { OnOk result (ArgCovers side cells.now.state implied out.new arg) }
{
    match arg {
        Arg::Const(_) => Ok(()),
        Arg::Var(var) => {
            explain_end(cells, implied, side, var, out)?;
            Ok(())
        }
    }
}
