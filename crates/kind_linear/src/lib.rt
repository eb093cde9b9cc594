//! Linear relations: sums of variables with coefficients, compared with a number.
#![tactic(auto)]

mod linear;
mod output;
#[cfg(test)]
mod reason_tests;
#[cfg(test)]
mod tests;

pub use kind_sum::Term;
pub use linear::Linear;
pub use output::LinearOutput;
