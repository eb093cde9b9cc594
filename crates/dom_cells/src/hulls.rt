//! The intervals of a box, and those of an assignment.
ghost use Rattle.std.specs.Prelude.{length};
ghost use Rattle.dom_cells.specs.Cell.{IsSane, ends_of};
ghost use Rattle.dom_core.specs.Ends.{only};
ghost use Rattle.dom_core.specs.Assignment.{entry_at};

use crate::Region;
use dom_core::{Assignment, Interval, Intervals, VarId};

/// For each variable of a box the interval from its least to its greatest value.
#[derive(Drop)]
pub struct Hulls<'a, R: Region>(pub &'a R);

impl<R: Region> Intervals for Hulls<'_, R> {
    ghost width = { λ h. R.width h.0.now };

    ghost ready = { λ h v. IsSane (R.cells h.0.now v) };

    ghost spans = { λ h v. ends_of (R.cells h.0.now v) };

    fn interval(&self, var: VarId) -> Interval {
        let lo = self.0.lo(var);
        let hi = self.0.hi(var);
        Interval::new(lo as i128, hi as i128)
    }
}

/// For each variable of an assignment the interval of its value alone.
#[derive(Drop)]
pub struct Point<'a>(pub &'a Assignment);

impl Intervals for Point<'_> {
    ghost width = { λ p. length p.0.now };

    ghost ready = { λ p v. Unit {0} };

    ghost spans = { λ p v. only (entry_at p.0.now v) };

    fn interval(&self, var: VarId) -> Interval {
        let value = self.0.value(var);
        Interval::new(value as i128, value as i128)
    }
}
