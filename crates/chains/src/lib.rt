//! Where chains of places end.
#![tactic(auto)]

mod ends;
mod link;
mod marks;
mod walk;

pub use ends::{Ends, ends_of, one_end};
pub use link::Link;

#[cfg(test)]
mod tests;
