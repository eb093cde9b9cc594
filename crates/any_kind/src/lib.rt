//! Constraints of any kind.
#![tactic(auto)]

mod any;
#[cfg(test)]
mod tests;

pub use any::AnyKind;
