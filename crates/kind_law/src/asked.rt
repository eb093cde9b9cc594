//! The box that is refuted where a reason is asked for.
ghost use Rattle.std.specs.Prelude.{◌≡◌, true};
ghost use Rattle.dom_core.specs.Literal.{is_end};
ghost use Rattle.kind_law.specs.Reason.{is_bound_or_none};

use crate::ends::failing;
use dom_cells::{Cells, Kept, Region};
use dom_core::{Literal, VarId};

/// The cells, or those of them in which an implied end fails: in which the denied literal holds.
#[derive(Drop)]
pub struct Asked<'a> {
    pub cells: &'a Cells,
    pub denied: Option<Literal>,
    pub ghost end: { is_bound_or_none denied ≡ true },
}

impl<'a> Asked<'a> {
    ghost use Rattle.std.specs.Prelude.{◌≡◌, length};
    ghost use Rattle.dom_cells.specs.Box.{cell_of};
    ghost use Rattle.kind_law.specs.Reason.{IsOpen, IsRead, denied_of};

    /// The box that is refuted by what implies the end, or, without one, the cells.
    pub fn new(cells: &'a Cells, implied: Option<Literal>) -> Asked<'a>
        requires open { IsOpen (cell_of cells.now.state) implied }
        requires var { IsRead (length cells.now.state.starts) implied }
        ensures cells { result.cells.now ≡ cells.now }
        ensures denied { result.denied ≡ denied_of implied }
    {
        match implied {
            None => Asked {
                cells,
                denied: None,
            },
            Some(literal) => Asked {
                cells,
                denied: Some(failing(cells, literal)),
            },
        }
    }
}

impl Region for Asked<'_> {
    ghost use Rattle.std.specs.Prelude.{length};
    ghost use Rattle.kind_law.specs.Reason.{cut_by};

    ghost width = { λ a. length a.cells.now.state.starts };

    ghost cells = { λ a. cut_by a.cells.now.state a.denied };

    fn lo(&self, var: VarId) -> i64 {
        match self.denied {
            None => self.cells.lo(var),
            Some(literal) => kept(self.cells, literal).lo(var),
        }
    }

    fn hi(&self, var: VarId) -> i64 {
        match self.denied {
            None => self.cells.hi(var),
            Some(literal) => kept(self.cells, literal).hi(var),
        }
    }

    fn has(&self, var: VarId, value: i64) -> bool {
        match self.denied {
            None => self.cells.has(var, value),
            Some(literal) => kept(self.cells, literal).has(var, value),
        }
    }

    fn ceiling(&self, var: VarId, value: i64) -> i64 {
        match self.denied {
            None => self.cells.ceiling(var, value),
            Some(literal) => kept(self.cells, literal).ceiling(var, value),
        }
    }
}

/// The cells, cut by the bound.
fn kept<'a>(cells: &'a Cells, literal: Literal) -> Kept<'a>
    requires { is_end literal.rel ≡ true }
    ensures cells { result.cells.now ≡ cells.now }
    ensures literal { result.literal ≡ literal }
{
    Kept { cells, literal }
}
