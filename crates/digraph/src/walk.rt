//! The strong components of a graph, by one walk along its edges.
ghost use Rattle.std.specs.Prelude.{◌≡◌, ◌<◌, IfSome, vec_len};

use crate::graph::Digraph;
use std::alloc::{AllocError, Global};

// The rank of a node to which the walk has not come.
const UNSEEN: usize = 0;

/// A node on the path of the walk: the edge that comes next, and the rank that it had when the walk came to it.
#[derive(Clone, Copy)]
struct Visit {
    node: usize,
    edge: usize,
    rank: usize,
}

/// A walk in depth. A node on the path, or waiting behind it, has the least rank that it is known to lead back to;
/// the nodes of a whole component have one rank, above all these and below that of the components made before.
#[derive(Drop)]
struct Walk {
    ranks: Vec<usize>,
    path: Vec<Visit>,
    waiting: Vec<usize>,
    component: usize,
}

/// For each node a rank, which the nodes of its strong component share, below those of the components that they lead to.
pub(crate) fn components(alloc: Global, graph: &Digraph) -> Result<Vec<usize>, AllocError> {
    let mut walk = Walk {
        ranks: vec![in alloc; UNSEEN; graph.len()]?,
        path: Vec::new(alloc),
        waiting: Vec::new(alloc),
        component: usize::MAX - 1,
    };
    for root in 0..graph.len() {
        if walk.rank(root) == UNSEEN {
            walk.enter(root)?;
            walk.finish(graph)?;
        }
    }
    Ok(walk.ranks)
}

impl Walk {
    // What is no node has the highest rank.
    fn rank(&self, node: usize) -> usize {
        match self.ranks.get(node) {
            Some(rank) => *rank,
            None => usize::MAX,
        }
    }

    fn put(&mut self, node: usize, rank: usize)
        ensures { self.new.waiting ≡ self.old.waiting }
    {
        if node < self.ranks.len() {
            self.ranks[node] = rank;
        }
    }

    fn lower(&mut self, node: usize, rank: usize) {
        if rank < self.rank(node) {
            self.put(node, rank);
        }
    }

    fn enter(&mut self, node: usize) -> Result<(), AllocError> {
        let rank = self
            .path
            .len()
            .saturating_add(self.waiting.len())
            .saturating_add(1);
        self.path.push(Visit {
            node,
            edge: 0,
            rank,
        })?;
        self.put(node, rank);
        Ok(())
    }

    // Every edge is followed once and every node left once, so the path is empty before the steps are spent.
    fn finish(&mut self, graph: &Digraph) -> Result<(), AllocError> {
        let steps = graph.len().saturating_add(graph.edges());
        for _ in 0..steps {
            match self.path.pop() {
                Some(visit) => self.step(graph, visit)?,
                None => return Ok(()),
            }
        }
        Ok(())
    }

    fn step(&mut self, graph: &Digraph, visit: Visit) -> Result<(), AllocError> {
        match next_of(graph, visit) {
            Some(to) => {
                self.path.push(Visit {
                    edge: visit.edge.saturating_add(1),
                    ..visit
                })?;
                self.follow(visit.node, to)
            }
            None => self.leave(visit),
        }
    }

    fn follow(&mut self, node: usize, to: usize) -> Result<(), AllocError> {
        let rank = self.rank(to);
        if rank == UNSEEN {
            return self.enter(to);
        }
        self.lower(node, rank);
        Ok(())
    }

    fn leave(&mut self, visit: Visit) -> Result<(), AllocError> {
        if self.rank(visit.node) == visit.rank {
            self.close(visit);
        } else {
            self.waiting.push(visit.node)?;
        }
        let rank = self.rank(visit.node);
        if let Some(before) = self.path.last() {
            let node = before.node;
            self.lower(node, rank);
        }
        Ok(())
    }

    // The component of this node is whole: it has the nodes that have waited since the walk came to it.
    fn close(&mut self, visit: Visit) {
        let component = self.component;
        while let Some(node) = self.pop_waiting(visit.rank) {
            self.put(node, component);
        }
        self.put(visit.node, component);
        self.component = component.saturating_sub(1);
    }

    // The last node that waits, where its rank is at least this.
    fn pop_waiting(&mut self, least: usize) -> Option<usize>
        ensures { IfSome result (λ _. vec_len self.new.waiting < vec_len self.old.waiting) }
    {
        let node = *self.waiting.last()?;
        if self.rank(node) < least {
            return None;
        }
        self.waiting.pop()
    }
}

fn next_of(graph: &Digraph, visit: Visit) -> Option<usize> {
    if visit.node < graph.len() {
        graph.successors(visit.node).get(visit.edge).copied()
    } else {
        None
    }
}
