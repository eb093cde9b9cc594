//! A search through a graph.
ghost use Rattle.std.specs.Prelude.{◌≡◌, [], true, false, replicate, slice_get, IfOk, OnOk};
ghost use Rattle.digraph.specs.Met.{is_met, met_with, met_with_all};

use std::alloc::{AllocError, Global};
use std::marker::Model;

/// The nodes that a search has met, in order of meeting.
#[derive(Drop)]
pub(crate) struct Search {
    seen: Vec<bool>,
    order: Vec<usize>,
}

impl Model for Search {
    ghost use Rattle.digraph.specs.Met.{Met};

    ghost Value = { Met };

    ghost view = { λ s. record { seen = s.seen.items; order = s.order.items } };
}

impl Search {
    /// Nothing is met yet of so many nodes.
    pub(crate) fn new(alloc: Global, count: usize) -> Result<Search, AllocError>
        ensures seen { IfOk result (λ s. s.seen ≡ replicate count false) }
        ensures order { IfOk result (λ s. s.order ≡ []) }
    {
        Ok(Search {
            seen: vec![in alloc; false; count]?,
            order: Vec::new(alloc),
        })
    }

    /// Whether the node was met; what is no node counts as met.
    pub(crate) fn is_met(&self, node: usize) -> bool
        ensures { result ≡ is_met self.now node }
    {
        match self.seen.get(node) {
            Some(seen) => *seen,
            None => true,
        }
    }

    /// The node that was met at this place.
    pub(crate) fn met_at(&self, place: usize) -> Option<usize>
        ensures { result ≡ slice_get self.now.order place }
    {
        self.order.get(place).copied()
    }

    fn meet(&mut self, node: usize) -> Result<(), AllocError>
        ensures { OnOk result (self.new ≡ met_with self.old node) }
    {
        if !self.is_met(node) {
            self.order.push(node)?;
            self.seen[node] = true;
        }
        Ok(())
    }

    /// Meets these nodes, but for those met before.
    pub(crate) fn meet_all(&mut self, nodes: &[usize]) -> Result<(), AllocError>
        ensures { OnOk result (self.new ≡ met_with_all self.old nodes.now) }
    {
        for node in nodes {
            self.meet(*node)?;
        }
        Ok(())
    }
}
