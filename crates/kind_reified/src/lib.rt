//! Linear relations whose truth is the value of an argument.
#![tactic(auto)]

mod argued;
mod output_probe;
#[cfg(test)]
mod reason_tests;
mod reified;
#[cfg(test)]
mod tests;
mod truth_next;
mod truth_probe;

pub use reified::LinearReified;
