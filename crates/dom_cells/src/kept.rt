//! A box with one literal more.
ghost use Rattle.std.specs.Prelude.{◌≡◌, true};
ghost use Rattle.dom_core.specs.Literal.{is_end};

use crate::Cells;
use crate::region::Region;
use dom_core::{Literal, Rel, VarId};

/// Cells, cut by one bound more. Nothing is written: the cut cell is read through it.
#[derive(Drop)]
pub struct Kept<'a> {
    pub cells: &'a Cells,
    pub literal: Literal,
    pub ghost end: { is_end literal.rel ≡ true },
}

impl Region for Kept<'_> {
    ghost use Rattle.std.specs.Prelude.{length};
    ghost use Rattle.dom_cells.specs.Box.{cell_of, kept};

    ghost width = { λ k. length k.cells.now.state.starts };

    ghost cells = { λ k. kept (cell_of k.cells.now.state) k.literal };

    fn lo(&self, var: VarId) -> i64 {
        let lo = self.cells.lo(var);
        let value = self.literal.value;
        if self.literal.var.0 != var.0 {
            return lo;
        }
        match self.literal.rel {
            Rel::Ge => {
                if value <= lo {
                    return lo;
                }
                self.cells.ceiling(var, value)
            }
            _ => lo,
        }
    }

    fn hi(&self, var: VarId) -> i64 {
        let hi = self.cells.hi(var);
        let value = self.literal.value;
        if self.literal.var.0 != var.0 {
            return hi;
        }
        match self.literal.rel {
            Rel::Le => {
                if hi <= value {
                    return hi;
                }
                self.cells.floor(var, value)
            }
            _ => hi,
        }
    }

    fn has(&self, var: VarId, value: i64) -> bool {
        if self.literal.var.0 != var.0 {
            return self.cells.has(var, value);
        }
        self.literal.at(value) && self.cells.has(var, value)
    }

    fn ceiling(&self, var: VarId, value: i64) -> i64 {
        let _width = self.cells.width();
        self.cells.ceiling(var, value)
    }
}
