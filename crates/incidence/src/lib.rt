//! For numbers the rows that hold them, and for nodes of a graph those that depend on them.
#![tactic(auto)]

mod dependents;
mod holders;
mod lists;
mod row;

pub use dependents::dependents_of;
pub use holders::holders_of;

#[cfg(test)]
mod tests;
