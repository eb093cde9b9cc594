//! The index sets of arrays, one for each dimension.
#![tactic(auto)]

mod index_set;
#[cfg(test)]
mod tests;

pub use index_set::{IndexSet, IndexSets};
