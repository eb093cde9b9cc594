//! Reasons by one end of each cell, for kinds that need no more.
ghost use Rattle.std.specs.Prelude.{◌≡◌, ◌<◌, ◌≤◌, ◌+ℤ◌, ◌≤ℤ◌, length, pos, OnOk};
ghost use Rattle.dom_cells.specs.Box.{cell_of, start_at};
ghost use Rattle.dom_core.specs.Literal.{negation};
ghost use Rattle.kind_law.specs.Reason.{AddsFine, CoversBetween, CoversEnd, CoversRanks, IsOpen, IsOpenEnd, IsOwnHigh, IsOwnLow, IsReach};

use crate::reason::{explain_high, explain_low, explain_value};
use crate::side::Side;
use dom_cells::{Cells, Start};
use dom_core::{Clause, Domain, Literal, Rel, VarId};
use std::alloc::AllocError;

/// How far beyond this end of the refuted box a value can lie, whatever the reason tells of the variable. Where it is 0
/// nothing need be told.
pub fn reach(cells: &Cells, implied: Option<Literal>, side: Side, var: VarId) -> u64
    requires var { var.0 < length cells.now.state.starts }
    requires open { IsOpen (cell_of cells.now.state) implied }
    ensures { IsReach side cells.now.state implied var.0 (pos result) }
{
    match side {
        Side::Low => low_reach(cells, implied, var),
        Side::High => high_reach(cells, implied, var),
    }
}

/// Tells which values beyond this end of the refuted box are gone: by the end of the cell or, where the failing of the
/// implied end bounds the cell on this side, value by value next to that bound.
pub fn explain_end(
    cells: &Cells,
    implied: Option<Literal>,
    side: Side,
    var: VarId,
    out: &mut Clause,
) -> Result<(), AllocError>
    requires var { var.0 < length cells.now.state.starts }
    requires open { IsOpen (cell_of cells.now.state) implied }
    ensures fine { OnOk result (AddsFine cells.now.state out.old out.new) }
    ensures covers { OnOk result (CoversEnd side cells.now.state implied out.new var.0) }
{
    match side {
        Side::Low => explain_low_end(cells, implied, var, out),
        Side::High => explain_high_end(cells, implied, var, out),
    }
}

fn low_reach(cells: &Cells, implied: Option<Literal>, var: VarId) -> u64
    requires var { var.0 < length cells.now.state.starts }
    requires open { IsOpen (cell_of cells.now.state) implied }
    ensures { IsReach Side.Low cells.now.state implied var.0 (pos result) }
{
    let lo = cells.lo(var);
    match low_bound(cells, implied, var) {
        None => distance(cells.start(var).lo(), lo),
        Some(bound) => distance(bound, cells.ceiling(var, bound)),
    }
}

fn high_reach(cells: &Cells, implied: Option<Literal>, var: VarId) -> u64
    requires var { var.0 < length cells.now.state.starts }
    requires open { IsOpen (cell_of cells.now.state) implied }
    ensures { IsReach Side.High cells.now.state implied var.0 (pos result) }
{
    let hi = cells.hi(var);
    match high_bound(cells, implied, var) {
        None => distance(hi, cells.start(var).hi()),
        Some(bound) => distance(cells.floor(var, bound), bound),
    }
}

/// How far the second number lies above the first.
fn distance(from: i64, to: i64) -> u64
    requires { from ≤ℤ to }
    ensures { (from +ℤ pos result) ≡ to }
{
    (to as i128 - from as i128) as u64
}

fn explain_low_end(
    cells: &Cells,
    implied: Option<Literal>,
    var: VarId,
    out: &mut Clause,
) -> Result<(), AllocError>
    requires var { var.0 < length cells.now.state.starts }
    requires open { IsOpen (cell_of cells.now.state) implied }
    ensures fine { OnOk result (AddsFine cells.now.state out.old out.new) }
    ensures covers { OnOk result (CoversEnd Side.Low cells.now.state implied out.new var.0) }
{
    let _lo = cells.lo(var);
    match low_bound(cells, implied, var) {
        None => explain_low(cells, var, out),
        Some(bound) => {
            let end = cells.ceiling(var, bound);
            explain_between(cells, var, bound, end, out)?;
            Ok(())
        }
    }
}

fn explain_high_end(
    cells: &Cells,
    implied: Option<Literal>,
    var: VarId,
    out: &mut Clause,
) -> Result<(), AllocError>
    requires var { var.0 < length cells.now.state.starts }
    requires open { IsOpen (cell_of cells.now.state) implied }
    ensures fine { OnOk result (AddsFine cells.now.state out.old out.new) }
    ensures covers { OnOk result (CoversEnd Side.High cells.now.state implied out.new var.0) }
{
    let _hi = cells.hi(var);
    match high_bound(cells, implied, var) {
        None => explain_high(cells, var, out),
        Some(bound) => {
            let end = cells.floor(var, bound);
            explain_between(cells, var, end + 1, bound + 1, out)?;
            Ok(())
        }
    }
}

/// The lower bound that the failing of the implied end puts on the variable's cell, where it does.
pub(crate) fn low_bound(cells: &Cells, implied: Option<Literal>, var: VarId) -> Option<i64>
    requires var { var.0 < length cells.now.state.starts }
    requires open { IsOpen (cell_of cells.now.state) implied }
    ensures { IsOwnLow cells.now.state implied var.0 result }
{
    match implied {
        None => None,
        Some(literal) => low_bound_of(cells, literal, var),
    }
}

/// The lower bound that the failing of the literal puts on the variable's cell, where it does.
fn low_bound_of(cells: &Cells, literal: Literal, var: VarId) -> Option<i64>
    requires var { var.0 < length cells.now.state.starts }
    requires open { IsOpenEnd (cell_of cells.now.state) literal }
    ensures { IsOwnLow cells.now.state (Some literal) var.0 result }
{
    let _hi = cells.hi(var);
    if literal.var.0 != var.0 {
        return None;
    }
    match literal.rel {
        Rel::Le => Some(literal.value + 1),
        _ => None,
    }
}

/// The upper bound that the failing of the implied end puts on the variable's cell, where it does.
pub(crate) fn high_bound(cells: &Cells, implied: Option<Literal>, var: VarId) -> Option<i64>
    requires var { var.0 < length cells.now.state.starts }
    requires open { IsOpen (cell_of cells.now.state) implied }
    ensures { IsOwnHigh cells.now.state implied var.0 result }
{
    match implied {
        None => None,
        Some(literal) => high_bound_of(cells, literal, var),
    }
}

/// The upper bound that the failing of the literal puts on the variable's cell, where it does.
fn high_bound_of(cells: &Cells, literal: Literal, var: VarId) -> Option<i64>
    requires var { var.0 < length cells.now.state.starts }
    requires open { IsOpenEnd (cell_of cells.now.state) literal }
    ensures { IsOwnHigh cells.now.state (Some literal) var.0 result }
{
    let _lo = cells.lo(var);
    if literal.var.0 != var.0 {
        return None;
    }
    match literal.rel {
        Rel::Ge => Some(literal.value - 1),
        _ => None,
    }
}

/// The literal that holds where the implied one fails.
pub fn failing(cells: &Cells, literal: Literal) -> Literal
    requires var { literal.var.0 < length cells.now.state.starts }
    requires open { IsOpenEnd (cell_of cells.now.state) literal }
    ensures { result ≡ negation literal }
{
    let _lo = cells.lo(literal.var);
    let _hi = cells.hi(literal.var);
    match literal.rel {
        Rel::Le => Literal {
            var: literal.var,
            rel: Rel::Ge,
            value: literal.value + 1,
        },
        _ => Literal {
            var: literal.var,
            rel: Rel::Le,
            value: literal.value - 1,
        },
    }
}

/// Tells which values from the one number up to the other, this one left out, are gone.
pub(crate) fn explain_between(
    cells: &Cells,
    var: VarId,
    begin: i64,
    end: i64,
    out: &mut Clause,
) -> Result<(), AllocError>
    requires { var.0 < length cells.now.state.starts }
    ensures fine { OnOk result (AddsFine cells.now.state out.old out.new) }
    ensures covers { OnOk result (CoversBetween cells.now.state out.new var.0 begin end) }
{
    match cells.start(var) {
        Start::Span { .. } => {
            let _width = cells.width();
            Ok(())
        }
        Start::Values(domain) => {
            let first = domain.rank(begin);
            let last = domain.rank(end);
            explain_ranks(cells, var, domain, first, last, out)?;
            Ok(())
        }
    }
}

/// Tells which values of the domain from the one place up to the other, this one left out, are gone.
fn explain_ranks(
    cells: &Cells,
    var: VarId,
    domain: &Domain,
    first: usize,
    last: usize,
    out: &mut Clause,
) -> Result<(), AllocError>
    requires var { var.0 < length cells.now.state.starts }
    requires start { start_at cells.now.state.starts var.0 ≡ Start.Values domain.now }
    requires last { last ≤ length domain.now }
    ensures fine { OnOk result (AddsFine cells.now.state out.old out.new) }
    ensures covers { OnOk result (CoversRanks cells.now.state out.new var.0 domain.now first last) }
{
    for at in first..last {
        let value = domain.value_at(at);
        explain_value(cells, var, value, out)?;
    }
    Ok(())
}
