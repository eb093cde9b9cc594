//! Arguments of constraints.

use crate::VarId;

/// A variable or a constant.
#[derive(Clone, Copy, Debug, PartialEq, Eq)]
pub enum Arg {
    Var(VarId),
    Const(i64),
}
