//! Constraints that are posted right have kinds, and items without a fault are put together where all of their constraints are built.
#![tactic(auto)]

mod law;

pub use law::{posted_has_kind, unbuilt_is_undrafted};

#[cfg(test)]
mod tests;
