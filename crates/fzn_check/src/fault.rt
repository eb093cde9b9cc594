//! What is wrong with an item.

/// What is wrong with an item, and where the text is told to be wrong.
#[derive(Clone, Copy, Debug, PartialEq, Eq, Drop)]
pub enum Fault {
    /// It has a float or a set variable.
    FloatOrSet { at: u64 },
    /// It has none, and is not well-typed.
    IllTyped { at: u64 },
}
