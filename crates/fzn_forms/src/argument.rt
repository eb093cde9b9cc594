//! What an argument of a constraint stands for.
use dom_core::{Arg, Values};
use fzn_syntax::Sequence;

/// What an argument of a constraint stands for.
#[derive(Debug, Drop)]
pub enum Argument {
    /// An integer that is no variable.
    Integer(i64),
    /// Integers that are no variables.
    Integers(Values),
    /// A variable or a constant.
    Scalar(Arg),
    /// Variables and constants.
    Array(Sequence<Arg>),
}
