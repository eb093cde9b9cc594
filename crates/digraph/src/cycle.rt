//! Whether a node lies on a cycle.
ghost use Rattle.std.specs.Prelude.{◌<◌, ◌↔◌, length, IfOk, IsTrue};
ghost use Rattle.digraph.specs.Cycle.{IsOnCycle};
ghost use Rattle.digraph.specs.Ranked.{IsRanking};

use crate::graph::Digraph;
use crate::ranking::is_cleared;
use crate::search::Search;
use std::alloc::{AllocError, Global};

/// Whether the node reaches itself by one edge or more. Only where the ranks leave it open, a search is made.
pub(crate) fn lies_on_cycle(
    alloc: Global,
    graph: &Digraph,
    ranks: &[usize],
    node: usize,
) -> Result<bool, AllocError>
    requires node { node < length graph.now }
    requires ranks { IsRanking graph.now ranks.now }
    ensures { IfOk result (λ b. IsTrue b ↔ IsOnCycle graph.now node) }
{
    if is_cleared(graph, ranks, node) {
        return Ok(false);
    }
    is_on_cycle(alloc, graph, node)
}

// By a search from the node's successors.
fn is_on_cycle(alloc: Global, graph: &Digraph, node: usize) -> Result<bool, AllocError>
    requires { node < length graph.now }
    ensures { IfOk result (λ b. IsTrue b ↔ IsOnCycle graph.now node) }
{
    let mut search = Search::new(alloc, graph.len())?;
    search.meet_all(graph.successors(node))?;
    let mut done = 0;
    while let Some(next) = search.met_at(done) {
        done += 1;
        search.meet_all(graph.successors(next))?;
    }
    Ok(search.is_met(node))
}
