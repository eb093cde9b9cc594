//! The canonical text of items.
#![tactic(auto)]

mod annotations;
mod constraints;
mod declarations;
mod expressions;
mod marks;
mod numbers;
mod predicates;
mod printing;
mod solving;
mod symbols;
mod tokens;
mod types;
mod words;

pub use printing::print;
pub use tokens::{every_token_is_spelled, write_token};

#[cfg(test)]
mod tests;
#[cfg(test)]
mod token_tests;
