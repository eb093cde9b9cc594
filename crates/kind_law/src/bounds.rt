//! Ends that are told at a chosen bound.
ghost use Rattle.std.specs.Prelude.{◌<◌, ◌≤ℤ◌, length, OnOk};
ghost use Rattle.dom_cells.specs.Box.{cell_of};
ghost use Rattle.dom_cells.specs.Cell.{lo_of, hi_of};
ghost use Rattle.kind_law.specs.Asked.{CoversBound, IsNoFurther, SurvivorsWithin};
ghost use Rattle.kind_law.specs.Reason.{AddsFine, IsOpen, asked};
ghost use Rattle.kind_law.specs.declared.side.Side.TheVariants.{Low, High};

use crate::ends::{explain_between, high_bound, low_bound};
use crate::side::Side;
use dom_cells::Cells;
use dom_core::{Clause, Literal, Rel, VarId};
use std::alloc::AllocError;

/// Tells that values beyond the bound are gone, which lies no further in than this end of the refuted box. The weaker the
/// bound, the weaker the literal.
pub fn explain_at(
    cells: &Cells,
    implied: Option<Literal>,
    side: Side,
    var: VarId,
    bound: i64,
    out: &mut Clause,
) -> Result<(), AllocError>
    requires var { var.0 < length cells.now.state.starts }
    requires open { IsOpen (cell_of cells.now.state) implied }
    requires bound { IsNoFurther side (asked cells.now.state implied var.0) bound }
    ensures fine { OnOk result (AddsFine cells.now.state out.old out.new) }
    ensures covers { OnOk result (CoversBound side cells.now.state implied out.new var.0 bound) }
{
    match side {
        Side::Low => explain_low_at(cells, implied, var, bound, out),
        Side::High => explain_high_at(cells, implied, var, bound, out),
    }
}

fn explain_low_at(
    cells: &Cells,
    implied: Option<Literal>,
    var: VarId,
    bound: i64,
    out: &mut Clause,
) -> Result<(), AllocError>
    requires var { var.0 < length cells.now.state.starts }
    requires open { IsOpen (cell_of cells.now.state) implied }
    requires bound { bound ≤ℤ lo_of (asked cells.now.state implied var.0) }
    ensures fine { OnOk result (AddsFine cells.now.state out.old out.new) }
    ensures covers { OnOk result (CoversBound Low cells.now.state implied out.new var.0 bound) }
{
    let _width = cells.width();
    match low_bound(cells, implied, var) {
        None => tell_below(cells, var, bound, out),
        Some(own) => {
            explain_between(cells, var, own, bound, out)?;
            Ok(())
        }
    }
}

fn explain_high_at(
    cells: &Cells,
    implied: Option<Literal>,
    var: VarId,
    bound: i64,
    out: &mut Clause,
) -> Result<(), AllocError>
    requires var { var.0 < length cells.now.state.starts }
    requires open { IsOpen (cell_of cells.now.state) implied }
    requires bound { hi_of (asked cells.now.state implied var.0) ≤ℤ bound }
    ensures fine { OnOk result (AddsFine cells.now.state out.old out.new) }
    ensures covers { OnOk result (CoversBound High cells.now.state implied out.new var.0 bound) }
{
    let _hi = cells.hi(var);
    match high_bound(cells, implied, var) {
        None => tell_above(cells, var, bound, out),
        Some(own) => {
            if own <= bound {
                return Ok(());
            }
            explain_between(cells, var, bound + 1, own + 1, out)?;
            Ok(())
        }
    }
}

/// Tells that the values below the bound are gone.
fn tell_below(cells: &Cells, var: VarId, bound: i64, out: &mut Clause) -> Result<(), AllocError>
    requires var { var.0 < length cells.now.state.starts }
    requires bound { bound ≤ℤ lo_of (cell_of cells.now.state var.0) }
    ensures fine { OnOk result (AddsFine cells.now.state out.old out.new) }
    ensures covers { OnOk result (SurvivorsWithin Low cells.now.state out.new var.0 bound) }
{
    let _lo = cells.lo(var);
    let start = cells.start(var).lo();
    if bound <= start {
        return Ok(());
    }
    out.push(Literal {
        var,
        rel: Rel::Le,
        value: bound - 1,
    })?;
    Ok(())
}

/// Tells that the values above the bound are gone.
fn tell_above(cells: &Cells, var: VarId, bound: i64, out: &mut Clause) -> Result<(), AllocError>
    requires var { var.0 < length cells.now.state.starts }
    requires bound { hi_of (cell_of cells.now.state var.0) ≤ℤ bound }
    ensures fine { OnOk result (AddsFine cells.now.state out.old out.new) }
    ensures covers { OnOk result (SurvivorsWithin High cells.now.state out.new var.0 bound) }
{
    let _hi = cells.hi(var);
    let start = cells.start(var).hi();
    if start <= bound {
        return Ok(());
    }
    out.push(Literal {
        var,
        rel: Rel::Ge,
        value: bound + 1,
    })?;
    Ok(())
}
