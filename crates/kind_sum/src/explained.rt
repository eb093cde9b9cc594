//! Reasons of sums: the ends of cells that the sum needs, but for those that its slack makes up for.
ghost use Rattle.std.specs.Prelude.{◌≡◌, ◌<◌, ◌*◌, ◌+ℤ◌, ◌-ℤ◌, ◌<ℤ◌, FitsSigned, [], length, pos, true, false, OnOk, IfOk, unsigned_abs};
ghost use Rattle.std.specs.Int.{w128};
ghost use Rattle.dom_core.specs.declared.arg.Arg.TheVariants.{Var};
ghost use Rattle.dom_cells.specs.Box.{cell_of};
ghost use Rattle.kind_law.specs.Laws.{AllBelow, AllSane, hulls};
ghost use Rattle.kind_law.specs.Reason.{AddsFine, IsCause, IsOpen, IsOpenEnd, IsRead, IsReason, asked};
ghost use Rattle.kind_sum.specs.Explained.{IsExcess, Pays, PaysAll, edge_side};
ghost use Rattle.kind_sum.specs.SumRelation.{SumFits, sum_refuted, sum_vars};
ghost use Rattle.dom_core.specs.Ends.{HasBits};
ghost use Rattle.kind_parts.specs.Relation.{is_difference};
ghost use Rattle.kind_parts.specs.Relation.{refuted_by};
ghost use Rattle.kind_law.specs.Argument.{ArgHas, arg_ends};
ghost use Rattle.kind_sum.specs.Sum.{total, vars_of};

use crate::sum_relation::SumRelation;
use crate::term::Term;
use dom_cells::{Cells, Hulls, Region};
use dom_core::{Arg, Clause, Interval, Literal, Relation, VarId};
use kind_law::{Asked, Reading, Side, add_implied, explain_end, reach};
use std::alloc::AllocError;

/// On which side a sum is refuted, and how much less would still be: from below as it is, or from above where it is
/// turned.
#[derive(Clone, Copy)]
pub struct Excess {
    pub turned: bool,
    pub slack: u128,
}

/// Writes the reason of a sum into an empty clause.
pub fn write_sum_reason(
    linear: &SumRelation,
    cells: &Cells,
    implied: Option<Literal>,
    out: &mut Clause,
) -> Result<(), AllocError>
    requires below { AllBelow (length cells.now.state.starts) (sum_vars linear.now) }
    requires fits { SumFits linear.now (hulls (cell_of cells.now.state)) }
    requires cause { IsCause (sum_refuted linear.now) (cell_of cells.now.state) implied }
    requires var { IsRead (length cells.now.state.starts) implied }
    requires relation { is_difference linear.now.relation ≡ false }
    requires empty { out.old ≡ [] }
    ensures { OnOk result (IsReason (sum_refuted linear.now) cells.now.state implied out.new) }
{
    let _width = cells.width();
    let total = asked_total(linear, cells, implied);
    let excess = excess_of(linear.relation(), total, linear.bound());
    explain_sum(linear.terms(), cells, implied, excess, out)?;
    add_implied(implied, out)?;
    Ok(())
}

/// The sum over the box that is refuted.
pub fn asked_total(linear: &SumRelation, cells: &Cells, implied: Option<Literal>) -> Interval
    requires below { AllBelow (length cells.now.state.starts) (sum_vars linear.now) }
    requires fits { SumFits linear.now (hulls (cell_of cells.now.state)) }
    requires open { IsOpen (cell_of cells.now.state) implied }
    requires var { IsRead (length cells.now.state.starts) implied }
    ensures total { result ≡ total linear.now.terms (arg_ends (hulls (asked cells.now.state implied))) }
    ensures bits { HasBits 101 result }
{
    let _width = cells.width();
    let region = Asked::new(cells, implied);
    total_in(linear, &region)
}

/// The sum over a box.
fn total_in<R: Region>(linear: &SumRelation, region: &R) -> Interval
    requires below { AllBelow (R.width region.now) (sum_vars linear.now) }
    requires sane { AllSane (R.cells region.now) (sum_vars linear.now) }
    requires fits { SumFits linear.now (hulls (R.cells region.now)) }
    ensures total { result ≡ total linear.now.terms (arg_ends (hulls (R.cells region.now))) }
    ensures bits { HasBits 101 result }
{
    linear.total(Reading::Values, &Hulls(region))
}

/// By how much a refuted sum misses the relation, and on which side.
pub fn excess_of(relation: Relation, total: Interval, bound: i64) -> Excess
    requires refuted { refuted_by relation total bound ≡ true }
    requires bits { HasBits 101 total }
    requires relation { is_difference relation ≡ false }
    ensures { IsExcess relation bound total result }
{
    let bound = bound as i128;
    if bound < total.lo() {
        return Excess {
            turned: false,
            slack: beyond(bound, total.lo()),
        };
    }
    Excess {
        turned: true,
        slack: beyond(total.hi(), bound),
    }
}

/// By how much more than 1 the second number is greater than the first.
pub fn beyond(low: i128, high: i128) -> u128
    requires order { low <ℤ high }
    requires fits { FitsSigned w128 (high -ℤ low) }
    ensures { ((low +ℤ pos result) +ℤ pos 1) ≡ high }
{
    (high - low - 1) as u128
}

/// Tells of the terms' variables what the sum needs, as long as the slack doesn't make up for it.
pub fn explain_sum(
    terms: &[Term],
    cells: &Cells,
    implied: Option<Literal>,
    excess: Excess,
    out: &mut Clause,
) -> Result<(), AllocError>
    requires below { AllBelow (length cells.now.state.starts) (vars_of terms.now) }
    requires open { IsOpen (cell_of cells.now.state) implied }
    ensures fine { OnOk result (AddsFine cells.now.state out.old out.new) }
    ensures pays { OnOk result (PaysAll excess.turned cells.now.state implied out.new terms.now
        (pos excess.slack)) }
{
    let mut left = excess.slack;
    for term in terms {
        left = explain_term(*term, cells, implied, excess.turned, left, out)?;
    }
    Ok(())
}

/// Tells of the term's variable what the sum needs, unless the slack makes up for it. Gives the slack that is left.
fn explain_term(
    term: Term,
    cells: &Cells,
    implied: Option<Literal>,
    turned: bool,
    slack: u128,
    out: &mut Clause,
) -> Result<u128, AllocError>
    requires below { ArgHas (λ u. u.0 < length cells.now.state.starts) term.arg }
    requires open { IsOpen (cell_of cells.now.state) implied }
    ensures fine { OnOk result (AddsFine cells.now.state out.old out.new) }
    ensures pays { IfOk result (λ left. Pays turned cells.now.state implied out.new term
        (pos slack -ℤ pos left)) }
{
    match term.arg {
        Arg::Const(_) => Ok(slack),
        Arg::Var(var) => explain_var(term.coef, var, cells, implied, turned, slack, out),
    }
}

/// Tells of the variable the end that its multiple needs, unless the slack makes up for it.
fn explain_var(
    coef: i64,
    var: VarId,
    cells: &Cells,
    implied: Option<Literal>,
    turned: bool,
    slack: u128,
    out: &mut Clause,
) -> Result<u128, AllocError>
    requires below { var.0 < length cells.now.state.starts }
    requires open { IsOpen (cell_of cells.now.state) implied }
    ensures fine { OnOk result (AddsFine cells.now.state out.old out.new) }
    ensures pays { IfOk result (λ left. Pays turned cells.now.state implied out.new
        (record { coef = coef; arg = Var var }) (pos slack -ℤ pos left)) }
{
    let side = edge_side(turned, coef);
    let price = price_of(coef, reach(cells, implied, side, var));
    if price <= slack {
        return Ok(slack - price);
    }
    explain_end(cells, implied, side, var, out)?;
    Ok(slack)
}

/// The side of a variable's cell on which the edge of its multiple lies.
fn edge_side(turned: bool, coef: i64) -> Side
    ensures { result ≡ edge_side turned coef }
{
    if turned == (coef < 0) {
        Side::Low
    } else {
        Side::High
    }
}

/// What a move by so much is worth under the coefficient.
fn price_of(coef: i64, gap: u64) -> u128
    ensures { result ≡ unsigned_abs coef * gap }
{
    coef.unsigned_abs() as u128 * gap as u128
}
