//! The two sides of a cell.

/// The side of a cell's least value, or that of its greatest.
#[derive(Clone, Copy, Debug, PartialEq, Eq)]
pub enum Side {
    Low,
    High,
}
