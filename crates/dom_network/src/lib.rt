//! Constraint networks: the values that definitions give, and which assignments satisfy every constraint.
#![tactic(auto)]

mod admission;
mod completion;
mod laws;
mod network;
mod places;
mod tables;
#[cfg(test)]
mod tests;

pub use network::Network;
