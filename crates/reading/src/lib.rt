//! Readers of lists of symbols: how they are joined, and what is known of them.
#![tactic(auto)]

mod error;
mod law;

pub use error::ParseError;
pub use law::{Spelled, fails_once, spells_or_fails};

#[cfg(test)]
mod tests;
