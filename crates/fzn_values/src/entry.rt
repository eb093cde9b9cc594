//! An entry of an array of integer variables.

/// An entry of an array of integer variables.
#[derive(Clone, Copy, Debug, PartialEq, Eq, Drop)]
pub enum Entry {
    Constant(i64),
    /// The place of its declaration, from 0.
    Variable(usize),
}
