//! How a literal stands in a box.

/// What a box says of a literal.
#[derive(Clone, Copy, Debug, PartialEq, Eq)]
pub enum Truth {
    /// It holds of every value that its variable has left.
    True,
    /// It holds of no value that its variable has left.
    False,
    /// It holds of some of them, and fails at some.
    Open,
}
