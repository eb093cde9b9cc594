//! From the items of a text to its model, or to its first fault.
#![tactic(auto)]

mod error;
mod lowering;
mod steps;

pub use error::ModelError;
pub use lowering::{items_have_one_answer, lower};

#[cfg(test)]
mod tests;
