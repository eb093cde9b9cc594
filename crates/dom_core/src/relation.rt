//! How a sum is compared with a number.

/// A sum is at most, is equal to, or differs from a number.
#[derive(Clone, Copy, Debug, PartialEq, Eq, Drop)]
pub enum Relation {
    AtMost,
    Equal,
    Differ,
}
