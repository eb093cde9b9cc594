//! The first end that a kind implies, found by asking whether smaller boxes are refuted.
ghost use Rattle.std.specs.Prelude.{◌≡◌, ◌<◌, ◌≤◌, length, false, true, ℕ, ◌+◌};
ghost use Rattle.dom_cells.specs.Box.{cell_of, IsBox};
ghost use Rattle.dom_cells.specs.Cell.{lo_of, hi_of};
ghost use Rattle.kind_law.specs.Laws.{AllBelow, hulls};
ghost use Rattle.kind_law.specs.Next.{IsNext, trim, size_of, steps_refuted, IsDeepest, IsSideEnd, end_literal, IsReadable, IsFirstEnd};

use crate::kind::Kind;
use crate::probe::{Probe, Whole};
use crate::side::Side;
use crate::steps::distance;
use dom_cells::Cells;
use dom_core::{Literal, Rel, VarId};

/// The first implied end, in the order of the kind's variables, the lower end of each first.
pub fn next_of<K: Kind>(kind: &K, cells: &Cells) -> Option<Literal>
    requires below { AllBelow (length cells.now.state.starts) (K.vars kind.now) }
    requires fits { K.fits kind.now (hulls (cell_of cells.now.state)) }
    ensures { IsNext (K.refuted kind.now) (K.vars kind.now) (cell_of cells.now.state) result }
{
    for var in kind.vars() {
        let end = first_end(&Whole(kind), cells, *var);
        if end.is_some() {
            return end;
        }
    }
    None
}

/// The end of one variable's cell that the kind implies, the lower one first, found by asking about the whole box.
pub fn end_of_var<K: Kind>(kind: &K, cells: &Cells, var: VarId) -> Option<Literal>
    requires var { IsReadable (K.vars kind.now) (length cells.now.state.starts) var }
    requires fits { K.fits kind.now (hulls (cell_of cells.now.state)) }
    ensures { IsFirstEnd (K.refuted kind.now) (cell_of cells.now.state) var result }
{
    first_end(&Whole(kind), cells, var)
}

/// The end of the variable's cell that is implied, the lower one first. A kind that can tell quickly whether a box with one
/// bound more is refuted finds its ends by it.
pub fn first_end<P: Probe>(probe: &P, cells: &Cells, var: VarId) -> Option<Literal>
    requires var { IsReadable (P.vars probe.now) (length cells.now.state.starts) var }
    requires answers { P.answers probe.now cells.now.state var }
    ensures { IsFirstEnd (P.refuted probe.now) (cell_of cells.now.state) var result }
{
    if let Some(end) = end_of(probe, cells, var, Side::Low) {
        return Some(end);
    }
    end_of(probe, cells, var, Side::High)
}

/// The end of the variable's cell that is implied on this side.
fn end_of<P: Probe>(probe: &P, cells: &Cells, var: VarId, side: Side) -> Option<Literal>
    requires var { IsReadable (P.vars probe.now) (length cells.now.state.starts) var }
    requires answers { P.answers probe.now cells.now.state var }
    ensures { IsSideEnd (P.refuted probe.now) (cell_of cells.now.state) var side result }
{
    let steps = deepest(probe, cells, var, side);
    if steps == 0 {
        return None;
    }
    Some(end_at(cells, var, side, steps))
}

/// The most steps from the end of the cell that a refuted box may have.
fn deepest<P: Probe>(probe: &P, cells: &Cells, var: VarId, side: Side) -> u64
    requires var { IsReadable (P.vars probe.now) (length cells.now.state.starts) var }
    requires answers { P.answers probe.now cells.now.state var }
    ensures sound { IsBox cells.now.state }
    ensures deepest { IsDeepest (steps_refuted (P.refuted probe.now) (cell_of cells.now.state) var side)
        (size_of (cell_of cells.now.state var.0)) result }
{
    let size = distance(cells, var);
    if size == 0 {
        return 0;
    }
    if !probe.is_refuted_within(cells, trimmed(cells, var, side, 1)) {
        return 0;
    }
    let mut known = 1;
    let mut gap = size - 1;
    while gap > 0 {
        let half = gap - gap / 2;
        if probe.is_refuted_within(cells, trimmed(cells, var, side, known + half)) {
            known += half;
            gap -= half;
        } else {
            gap = half - 1;
        }
    }
    known
}

/// The bound that leaves so many steps from one end of the cell.
fn trimmed(cells: &Cells, var: VarId, side: Side, steps: u64) -> Literal
    requires var { var.0 < length cells.now.state.starts }
    requires some { 0 < steps }
    requires few { steps ≤ size_of (cell_of cells.now.state var.0) }
    ensures { result ≡ trim side var (lo_of (cell_of cells.now.state var.0))
        (hi_of (cell_of cells.now.state var.0)) steps }
{
    let lo = cells.lo(var);
    let hi = cells.hi(var);
    match side {
        Side::Low => Literal {
            var,
            rel: Rel::Le,
            value: (lo as i128 + steps as i128 - 1) as i64,
        },
        Side::High => Literal {
            var,
            rel: Rel::Ge,
            value: (hi as i128 - steps as i128 + 1) as i64,
        },
    }
}

/// The end so many steps from the end of the cell.
fn end_at(cells: &Cells, var: VarId, side: Side, steps: u64) -> Literal
    requires var { var.0 < length cells.now.state.starts }
    requires few { steps ≤ size_of (cell_of cells.now.state var.0) }
    ensures { result ≡ end_literal side var (lo_of (cell_of cells.now.state var.0))
        (hi_of (cell_of cells.now.state var.0)) steps }
{
    let lo = cells.lo(var);
    let hi = cells.hi(var);
    match side {
        Side::Low => Literal {
            var,
            rel: Rel::Ge,
            value: (lo as i128 + steps as i128) as i64,
        },
        Side::High => Literal {
            var,
            rel: Rel::Le,
            value: (hi as i128 - steps as i128) as i64,
        },
    }
}
