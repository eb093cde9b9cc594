//! Variables by number.

/// A variable of a model, counted from 0 in order of declaration.
#[derive(Clone, Copy, Debug, Default, PartialEq, Eq)]
pub struct VarId(pub u32);
