//! Steps from an end of a cell, and the values of the cell next to them.
ghost use Rattle.std.specs.Prelude.{◌≡◌, ◌<◌, ◌+ℤ◌, ◌-ℤ◌, length, pos};
ghost use Rattle.dom_cells.specs.Box.{cell_of, IsBox};
ghost use Rattle.dom_cells.specs.Cell.{lo_of, hi_of, has_of};
ghost use Rattle.dom_cells.specs.Flagged.{IsFloor, IsCeiling};
ghost use Rattle.kind_law.specs.Next.{size_of};
ghost use Rattle.kind_law.specs.Steps.{AreFew, GivesEnd, IsEndWithin, IsFurthest};

use crate::side::Side;
use dom_cells::Cells;
use dom_core::{Literal, Rel, VarId};

/// How far the ends of the cell lie apart.
pub fn distance(cells: &Cells, var: VarId) -> u64
    requires { var.0 < length cells.now.state.starts }
    ensures size { result ≡ size_of (cell_of cells.now.state var.0) }
    ensures sound { IsBox cells.now.state }
{
    let lo = cells.lo(var);
    let hi = cells.hi(var);
    (hi as i128 - lo as i128) as u64
}

/// The end of the cell that is implied on this side, where it is known how many steps the other end may move.
pub fn end_by_steps(cells: &Cells, var: VarId, side: Side, steps: Option<u64>) -> Option<Literal>
    requires var { var.0 < length cells.now.state.starts }
    requires few { AreFew (cell_of cells.now.state var.0) steps }
    ensures { GivesEnd (cell_of cells.now.state) var side steps result }
{
    let _lo = cells.lo(var);
    match steps {
        None => None,
        Some(steps) => Some(end_within(cells, var, side, steps)),
    }
}

/// The literal of the end on this side that lies furthest from the other end, at most so many steps from it.
fn end_within(cells: &Cells, var: VarId, side: Side, steps: u64) -> Literal
    requires var { var.0 < length cells.now.state.starts }
    requires few { steps < size_of (cell_of cells.now.state var.0) }
    ensures { IsEndWithin (cell_of cells.now.state) var side steps result }
{
    match side {
        Side::Low => Literal {
            var,
            rel: Rel::Ge,
            value: near_high(cells, var, steps),
        },
        Side::High => Literal {
            var,
            rel: Rel::Le,
            value: near_low(cells, var, steps),
        },
    }
}

/// The value of the cell that lies furthest from this end, at most so many steps from it.
pub fn furthest(cells: &Cells, var: VarId, side: Side, steps: u64) -> i64
    requires var { var.0 < length cells.now.state.starts }
    requires few { steps < size_of (cell_of cells.now.state var.0) }
    ensures { IsFurthest side (cell_of cells.now.state var.0) steps result }
{
    match side {
        Side::Low => near_low(cells, var, steps),
        Side::High => near_high(cells, var, steps),
    }
}

/// The least value of the cell that lies at most so many steps below its greatest.
fn near_high(cells: &Cells, var: VarId, steps: u64) -> i64
    requires var { var.0 < length cells.now.state.starts }
    requires few { steps < size_of (cell_of cells.now.state var.0) }
    ensures { IsCeiling (has_of (cell_of cells.now.state var.0))
        (hi_of (cell_of cells.now.state var.0) -ℤ pos steps) result }
{
    let _lo = cells.lo(var);
    let hi = cells.hi(var);
    cells.ceiling(var, (hi as i128 - steps as i128) as i64)
}

/// The greatest value of the cell that lies at most so many steps above its least.
fn near_low(cells: &Cells, var: VarId, steps: u64) -> i64
    requires var { var.0 < length cells.now.state.starts }
    requires few { steps < size_of (cell_of cells.now.state var.0) }
    ensures { IsFloor (has_of (cell_of cells.now.state var.0))
        (lo_of (cell_of cells.now.state var.0) +ℤ pos steps) result }
{
    let lo = cells.lo(var);
    let _hi = cells.hi(var);
    cells.floor(var, (lo as i128 + steps as i128) as i64)
}
