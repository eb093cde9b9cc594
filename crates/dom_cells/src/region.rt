//! Boxes that can be read.
ghost use Rattle.std.specs.Prelude.{◌≡◌, ◌<◌, length, ◌<ℤ◌, ◌≤ℤ◌};
ghost use Rattle.dom_cells.specs.Cell.{IsSane, lo_of, hi_of, has_of};
ghost use Rattle.dom_cells.specs.Box.{cell_of};
ghost use Rattle.dom_cells.specs.Flagged.{IsCeiling};

use crate::Cells;
use dom_core::VarId;

/// A box of which the ends and the values can be read, variable by variable.
pub trait Region {
    ghost use Rattle.std.specs.Prelude.{ℕ};
    ghost use Rattle.dom_cells.specs.declared.start.Start.{Start};

    /// How many variables there are.
    ghost width: { Self → ℕ };

    /// The cell of each variable.
    ghost cells: { Self → ℕ → Start };

    fn lo(&self, var: VarId) -> i64
        requires below { var.0 < width self.now }
        requires sane { IsSane (cells self.now var.0) }
        ensures { result ≡ lo_of (cells self.now var.0) };

    fn hi(&self, var: VarId) -> i64
        requires below { var.0 < width self.now }
        requires sane { IsSane (cells self.now var.0) }
        ensures { result ≡ hi_of (cells self.now var.0) };

    fn has(&self, var: VarId, value: i64) -> bool
        requires { var.0 < width self.now }
        ensures { result ≡ has_of (cells self.now var.0) value };

    /// The least of the variable's values that is at least this one, which lies above the least of all.
    fn ceiling(&self, var: VarId, value: i64) -> i64
        requires below { var.0 < width self.now }
        requires sane { IsSane (cells self.now var.0) }
        requires low { lo_of (cells self.now var.0) <ℤ value }
        requires high { value ≤ℤ hi_of (cells self.now var.0) }
        ensures { IsCeiling (has_of (cells self.now var.0)) value result };
}

impl Region for Cells {
    ghost width = { λ c. length c.state.starts };

    ghost cells = { λ c. cell_of c.state };

    fn lo(&self, var: VarId) -> i64 {
        self.lo(var)
    }

    fn hi(&self, var: VarId) -> i64 {
        self.hi(var)
    }

    fn has(&self, var: VarId, value: i64) -> bool {
        self.has(var, value)
    }

    fn ceiling(&self, var: VarId, value: i64) -> i64 {
        self.ceiling(var, value)
    }
}
