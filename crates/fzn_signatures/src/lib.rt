//! The constraints that a text may post.
#![tactic(auto)]

mod argument_type;
mod row;
mod shape;

pub use argument_type::ArgumentType;
pub use row::{Row, one_row, row_of};
pub use shape::{Comparison, Shape};

#[cfg(test)]
mod tests;
