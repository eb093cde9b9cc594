//! Cells: what every variable has left, with the changes that made it.

use crate::cell::{Cell, Step};
use crate::{Mark, Narrowed, Start, Truth};
use dom_core::{Literal, VarId};
use std::alloc::{AllocError, Global};
use std::marker::Model;

/// For each variable the values that it has left: its start, cut by literals in order.
#[derive(Drop)]
pub struct Cells {
    cells: Vec<Cell>,
    changes: Vec<Change>,
}

/// A literal that cut a cell, with the ends that the cell had before and the flag that went down.
#[derive(Clone, Copy)]
pub(crate) struct Change {
    pub(crate) literal: Literal,
    pub(crate) lo: i64,
    pub(crate) hi: i64,
    pub(crate) hole: usize,
}

impl Model for Cells {
    ghost use Rattle.dom_cells.specs.Box.{CellsView};

    ghost Value = { CellsView };

    ghost use Rattle.dom_cells.specs.Stack.{view_of, IsStack};

    ghost view = { view_of };

    ghost invariant = { λ c. IsStack c.cells.items c.changes.items };
}

impl Cells {
    ghost use Rattle.std.specs.Prelude.{◌≡◌, ◌<◌, ◌≤◌, ◌-◌, length, slice_get, Some, IfOk, OnOk, OnErr, [], ◌<ℤ◌, ◌≤ℤ◌};
    ghost use Rattle.dom_cells.specs.Flagged.{IsFloor, IsCeiling};
    ghost use Rattle.std.specs.List.{All};
    ghost use Rattle.dom_cells.specs.Cell.{IsInOrder, Suits, lo_of, hi_of, has_of, IsFixed, IsHeld, IsFalse, IsPossible, CanFail, IsTruth};
    ghost use Rattle.dom_cells.specs.Box.{start_at, cell_of, IsBox, IsNarrowed, Undone, HasRoom};
    ghost use Rattle.std.specs.Bool.{MatchBool};

    /// How many variables there are.
    pub fn width(&self) -> usize
        ensures width { result ≡ length self.now.state.starts }
        ensures sound { IsBox self.now.state }
    {
        self.cells.len()
    }

    /// The variable's values before any change.
    pub fn start(&self, var: VarId) -> &Start
        requires { var.0 < length self.now.state.starts }
        ensures start { result.now ≡ start_at self.now.state.starts var.0 }
        ensures sound { IsBox self.now.state }
    {
        let cell = &self.cells[var.0 as usize];
        &cell.start
    }

    pub fn lo(&self, var: VarId) -> i64
        requires { var.0 < length self.now.state.starts }
        ensures lo { result ≡ lo_of (cell_of self.now.state var.0) }
        ensures sound { IsBox self.now.state }
    {
        let cell = &self.cells[var.0 as usize];
        cell.lo
    }

    pub fn hi(&self, var: VarId) -> i64
        requires { var.0 < length self.now.state.starts }
        ensures hi { result ≡ hi_of (cell_of self.now.state var.0) }
        ensures sound { IsBox self.now.state }
    {
        let cell = &self.cells[var.0 as usize];
        cell.hi
    }

    pub fn has(&self, var: VarId, value: i64) -> bool
        requires { var.0 < length self.now.state.starts }
        ensures { result ≡ has_of (cell_of self.now.state var.0) value }
    {
        let cell = &self.cells[var.0 as usize];
        cell.has(value)
    }

    /// The least of the variable's values that is at least this one.
    pub fn ceiling(&self, var: VarId, value: i64) -> i64
        requires var { var.0 < length self.now.state.starts }
        requires low { lo_of (cell_of self.now.state var.0) <ℤ value }
        requires high { value ≤ℤ hi_of (cell_of self.now.state var.0) }
        ensures { IsCeiling (has_of (cell_of self.now.state var.0)) value result }
    {
        let cell = &self.cells[var.0 as usize];
        cell.ceiling(value)
    }

    /// The greatest of the variable's values that is at most this one.
    pub fn floor(&self, var: VarId, value: i64) -> i64
        requires var { var.0 < length self.now.state.starts }
        requires low { lo_of (cell_of self.now.state var.0) ≤ℤ value }
        requires high { value <ℤ hi_of (cell_of self.now.state var.0) }
        ensures { IsFloor (has_of (cell_of self.now.state var.0)) value result }
    {
        let cell = &self.cells[var.0 as usize];
        cell.floor(value)
    }

    /// The variable's one value, where it has no other.
    pub fn fixed(&self, var: VarId) -> Option<i64>
        requires { var.0 < length self.now.state.starts }
        ensures { IsFixed (cell_of self.now.state var.0) result }
    {
        let lo = self.lo(var);
        if lo == self.hi(var) { Some(lo) } else { None }
    }

    /// How many changes there are, to go back to.
    pub fn mark(&self) -> Mark
        ensures { result.changes ≡ length self.now.state.literals }
    {
        Mark {
            changes: self.changes.len() as u64,
        }
    }

    /// The literal that was the change at this place, counted from 0.
    pub fn literal_at(&self, index: usize) -> Literal
        requires { index < length self.now.state.literals }
        ensures { slice_get self.now.state.literals index ≡ Some result }
    {
        let change = &self.changes[index];
        change.literal
    }

    /// Whether the literal holds of all, of none or of some of the values that its variable has left.
    pub fn truth(&self, literal: Literal) -> Truth
        requires { literal.var.0 < length self.now.state.starts }
        ensures { IsTruth (cell_of self.now.state literal.var.0) literal result }
    {
        let cell = &self.cells[literal.var.0 as usize];
        cell.truth(literal)
    }

    /// Whether the literal holds of every value that its variable has left.
    pub fn is_true(&self, literal: Literal) -> bool
        requires { literal.var.0 < length self.now.state.starts }
        ensures { MatchBool result (IsHeld (cell_of self.now.state literal.var.0) literal) (CanFail (cell_of self.now.state literal.var.0) literal) }
    {
        let cell = &self.cells[literal.var.0 as usize];
        cell.is_held(literal)
    }

    /// Whether the literal holds of no value that its variable has left.
    pub fn is_false(&self, literal: Literal) -> bool
        requires { literal.var.0 < length self.now.state.starts }
        ensures { MatchBool result (IsFalse (cell_of self.now.state literal.var.0) literal) (IsPossible (cell_of self.now.state literal.var.0) literal) }
    {
        let cell = &self.cells[literal.var.0 as usize];
        cell.is_failed(literal)
    }

    /// For how many changes there is room.
    pub fn spare(&self) -> usize
        ensures { result ≡ self.now.spare }
    {
        self.changes.capacity() - self.changes.len()
    }

    /// Makes room for `more` changes.
    pub fn reserve(&mut self, more: usize) -> Result<(), AllocError>
        ensures ok { OnOk result (HasRoom self.old more self.new) }
        ensures err { OnErr result (self.new ≡ self.old) }
    {
        self.changes.reserve(more)?;
        Ok(())
    }

    /// Cuts the cell of the literal's variable by it. What it answers and what stays is told by the contract.
    pub fn narrow(&mut self, literal: Literal) -> Narrowed
        requires var { literal.var.0 < length self.old.state.starts }
        requires suits { Suits (start_at self.old.state.starts literal.var.0) literal.rel }
        requires spare { 0 < self.old.spare }
        ensures { IsNarrowed self.old literal result self.new }
    {
        let at = literal.var.0 as usize;
        let cell = &self.cells[at];
        let step = cell.step(literal);
        match step {
            Step::Same => Narrowed::Same,
            Step::Emptied => Narrowed::Emptied,
            Step::Change { lo, hi, hole } => {
                let cell = &mut self.cells[at];
                let change = Change {
                    literal,
                    lo: cell.lo,
                    hi: cell.hi,
                    hole,
                };
                cell.lo = lo;
                cell.hi = hi;
                cell.flags.put(hole, false);
                self.changes.push_reserved(change);
                Narrowed::Changed
            }
        }
    }

    /// Goes back to the changes that there were at the mark.
    pub fn undo(&mut self, mark: Mark)
        requires { mark.changes ≤ length self.old.state.literals }
        ensures { Undone self.old mark.changes self.new }
    {
        while self.mark().changes > mark.changes {
            self.undo_last();
        }
    }

    /// Takes back the last change.
    fn undo_last(&mut self)
        requires { 0 < length self.old.state.literals }
        ensures { Undone self.old (length self.old.state.literals - 1) self.new }
    {
        if let Some(change) = self.changes.pop() {
            let cell = &mut self.cells[change.literal.var.0 as usize];
            cell.lo = change.lo;
            cell.hi = change.hi;
            cell.flags.put(change.hole, true);
        }
    }

    /// Each start whole, with no room for changes.
    pub fn new(alloc: Global, starts: &[Start]) -> Result<Cells, AllocError>
        requires { All IsInOrder starts.now }
        ensures starts { IfOk result (λ c. c.state.starts ≡ starts.now) }
        ensures literals { IfOk result (λ c. c.state.literals ≡ []) }
    {
        let mut cells = Vec::with_capacity(alloc, starts.len())?;
        for start in starts {
            let copy = start.duplicate(alloc)?;
            cells.push(Cell::whole(alloc, copy)?)?;
        }
        Ok(Cells {
            cells,
            changes: Vec::new(alloc),
        })
    }
}
