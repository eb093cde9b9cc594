//! What cutting a cell by a literal answers.

/// What became of a cell that was to be cut by a literal.
#[derive(Clone, Copy, Debug, PartialEq, Eq)]
pub enum Narrowed {
    /// The literal holds of all values, and nothing changed.
    Same,
    /// The cell keeps the values of which the literal holds.
    Changed,
    /// The literal holds of no value, and nothing changed.
    Emptied,
}
