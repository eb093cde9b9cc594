//! Intervals for variables.
ghost use Rattle.std.specs.Prelude.{◌≡◌, ◌<◌};

use crate::{Interval, VarId};

/// An interval for each variable.
pub trait Intervals {
    ghost use Rattle.std.specs.Prelude.{ℕ};
    ghost use Rattle.dom_core.specs.Ends.{Ends};

    /// How many variables there are.
    ghost width: { Self → ℕ };

    /// What must be known of a variable before its interval is asked.
    ghost ready: { Self → ℕ → Type 0 };

    /// The interval of each variable.
    ghost spans: { Self → ℕ → Ends };

    fn interval(&self, var: VarId) -> Interval
        requires below { var.0 < width self.now }
        requires ready { ready self.now var.0 }
        ensures { result ≡ spans self.now var.0 };
}
