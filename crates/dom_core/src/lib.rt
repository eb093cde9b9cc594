//! The values that every layer speaks of: variables, domains, assignments, intervals, literals, clauses and views.
#![tactic(auto)]

mod arg;
mod assignment;
mod clause;
mod domain;
mod interval;
mod intervals;
mod literal;
mod name;
mod ranks;
mod relation;
mod set;
mod sorts;
#[cfg(test)]
mod tests;
mod values;
mod var_id;
mod vars;
mod view;

pub use arg::Arg;
pub use assignment::Assignment;
pub use clause::Clause;
pub use domain::{Domain, DomainError};
pub use interval::Interval;
pub use intervals::Intervals;
pub use literal::{Literal, Rel};
pub use name::Name;
pub use relation::Relation;
pub use set::Set;
/// The error of a call that can fail for want of memory alone.
pub use std::alloc::AllocError as NoMemory;
pub use values::Values;
pub use var_id::VarId;
pub use vars::Vars;
pub use view::{After, Before, Changes, Movement, View};
