//! The values of constants, and which lists arrays stand for.
#![tactic(auto)]

mod constants;
mod entry;
mod link;
mod literal;

pub use constants::{Constants, one_integer, one_list, one_truth};
pub use entry::Entry;
pub use literal::{LiteralKind, is_literal, value_for};

#[cfg(test)]
mod tests;
