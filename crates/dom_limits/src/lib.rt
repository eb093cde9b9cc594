//! What there can be too many of in a model or its text, and how many there may be.
#![tactic(auto)]

mod counted;
#[cfg(test)]
mod tests;

pub use counted::Counted;
