//! Directed graphs: the first of some nodes that lies on a cycle, and an order in which successors come first.
#![tactic(auto)]

mod cycle;
mod depth_first;
mod graph;
mod order;
mod ranking;
mod search;
mod walk;

pub use graph::Digraph;
pub use order::ordered_is_acyclic;

#[cfg(test)]
mod tests;
