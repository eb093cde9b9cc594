//! Restrictions of single variables and functions of few of them.
#![tactic(auto)]

mod ends;
mod in_set;
mod shared;
#[cfg(test)]
mod tests;

pub use in_set::InSet;
