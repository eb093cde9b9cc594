//! What a model asks of its feasible assignments.
use dom_core::VarId;

/// What a model asks of its feasible assignments.
#[derive(Clone, Copy, Debug, PartialEq, Eq, Drop)]
pub enum Goal {
    /// Any of them will do.
    Satisfy,
    /// One in which this variable is as small as it can be.
    Minimize(VarId),
    /// One in which this variable is as large as it can be.
    Maximize(VarId),
}
