//! Sums of variables with coefficients, and their relations to a number.
#![tactic(auto)]

mod explained;
mod known;
mod reach;
mod slack;
mod sum_relation;
mod term;
mod terms;
#[cfg(test)]
mod tests;
mod total;
mod width;

pub use explained::{Excess, asked_total, beyond, excess_of, explain_sum};
pub use sum_relation::SumRelation;
pub use term::Term;
pub use terms::{term_vars, terms_but};
pub use total::total_of;
pub use width::is_wide;
