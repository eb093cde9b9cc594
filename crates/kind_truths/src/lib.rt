//! Truths of disjunctions as the value of an argument: operands, the ends that are implied, and reasons.
#![tactic(auto)]

mod operand;
mod operands;
mod parts;
mod plan;
mod probe;
mod reasons;
mod turns;

pub use operand::{Operand, is_certain, operands_of, turned};
pub use operands::{all_refuted, some_certain, some_moves, vars_of};
pub use parts::{Parts, truth};
pub use reasons::Verdict;
