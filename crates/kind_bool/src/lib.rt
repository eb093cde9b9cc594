//! Clauses and the Boolean functions and, or and xor.
#![tactic(auto)]

mod clause;
mod connective;
#[cfg(test)]
mod tests;
mod xor;

pub use clause::BoolClause;
pub use connective::{
    And, BoolClauseReified, ClauseTruth, Conjunction, Connective, Disjunction, Or,
};
pub use xor::Xor;
