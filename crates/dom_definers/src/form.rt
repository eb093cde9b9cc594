//! What the values of a variable stand for, and which of them its declaration allows.
use dom_core::Values;

/// What the values of a variable stand for.
#[derive(Clone, Copy, Debug, PartialEq, Eq)]
pub enum Form {
    /// Truth values: 1 is true and 0 is false.
    Bool,
    /// Integers.
    Int,
}

/// The values that the declaration of a variable allows.
#[derive(Debug, Drop)]
pub enum Declared {
    /// All values of its form.
    Any,
    /// The integers from `lo` to `hi`, both among them.
    Range { lo: i64, hi: i64 },
    /// Listed integers, in any order.
    Values(Values),
}
