//! An order of the nodes in which successors come first.
ghost use Rattle.std.specs.Prelude.{IfOk, MatchOption};
ghost use Rattle.digraph.specs.Cycle.{HasCycle};
ghost use Rattle.digraph.specs.Order.{IsOrder, OrderedIsAcyclic};

use crate::depth_first::DepthFirst;
use crate::graph::Digraph;
use std::alloc::{AllocError, Global};

impl Digraph {
    /// All nodes, each once and behind its successors, or none where a node lies on a cycle.
    /// The time is linear in nodes and edges, and nothing recurses.
    pub fn order(&self, alloc: Global) -> Result<Option<Vec<usize>>, AllocError>
        ensures { IfOk result (λ o. MatchOption o (HasCycle self.now) (λ v. IsOrder self.now v.items)) }
    {
        let mut walk = DepthFirst::new(alloc, self.len())?;
        for root in 0..self.len() {
            if !walk.explore(self, root)? {
                return Ok(None);
            }
        }
        Ok(Some(walk.into_order()))
    }
}

/// A law, which a call makes known: where `order` gives an order, no node lies on a cycle.
pub fn ordered_is_acyclic()
    ensures { OrderedIsAcyclic }
{}
