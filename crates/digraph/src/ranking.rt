//! Ranks of nodes, by which a node is seen to lie on no cycle without a search.
ghost use Rattle.std.specs.Prelude.{◌≡◌, ◌<◌, ◌↔◌, length, IfOk, IsTrue, replicate};
ghost use Rattle.std.specs.List.{All};
ghost use Rattle.std.specs.Bool.{OnTrue};
ghost use Rattle.digraph.specs.Ranked.{IsRanking, IsCleared, IsAtLeast};

use crate::graph::Digraph;
use crate::walk;
use std::alloc::{AllocError, Global};

/// A rank for each node, so that no edge leads to a lower one; a higher one where the ends lie on no common cycle.
pub(crate) fn ranks_of(alloc: Global, graph: &Digraph) -> Result<Vec<usize>, AllocError>
    ensures { IfOk result (λ ranks. IsRanking graph.now ranks.items) }
{
    let ranks = walk::components(alloc, graph)?;
    if is_ranking(graph, &ranks) {
        return Ok(ranks);
    }
    zeros(alloc, graph.len())
}

fn zeros(alloc: Global, count: usize) -> Result<Vec<usize>, AllocError>
    ensures { IfOk result (λ v. v.items ≡ replicate count 0) }
{
    vec![in alloc; 0; count]
}

fn is_ranking(graph: &Digraph, ranks: &[usize]) -> bool
    ensures { OnTrue result (IsRanking graph.now ranks.now) }
{
    if ranks.len() != graph.len() {
        return false;
    }
    for (node, rank) in ranks.iter().enumerate() {
        if !all_at_least(ranks, *rank, graph.successors(node)) {
            return false;
        }
    }
    true
}

/// Whether the ranks show that the node lies on no cycle.
pub(crate) fn is_cleared(graph: &Digraph, ranks: &[usize], node: usize) -> bool
    requires node { node < length graph.now }
    requires ranks { IsRanking graph.now ranks.now }
    ensures { OnTrue result (IsCleared graph.now ranks.now node) }
{
    let rank = ranks[node];
    rank < usize::MAX && all_at_least(ranks, rank + 1, graph.successors(node))
}

fn all_at_least(ranks: &[usize], least: usize, nodes: &[usize]) -> bool
    ensures { IsTrue result ↔ All (IsAtLeast ranks.now least) nodes.now }
{
    nodes.iter().all(|node| is_at_least(ranks, least, *node))
}

fn is_at_least(ranks: &[usize], least: usize, node: usize) -> bool
    ensures { IsTrue result ↔ IsAtLeast ranks.now least node }
{
    match ranks.get(node) {
        Some(rank) => least <= *rank,
        None => true,
    }
}
