//! The nodes that depend on a node.
ghost use Rattle.std.specs.Prelude.{◌≡◌, ◌<◌, length, IfOk, OnOk};
ghost use Rattle.digraph.specs.Order.{IsOrder};
ghost use Rattle.incidence.specs.Dependents.{AreDependents};
ghost use Rattle.incidence.specs.Meeting.{HasSource, Meets, SuccessorHasSource};

use crate::lists::Lists;
use crate::row::Row;
use digraph::Digraph;
use std::alloc::{AllocError, Global};

/// For each node that is asked for those that reach it, in the order, in which each stands behind its successors.
/// Each edge costs as many steps as its end has nodes that are asked for and that it reaches.
pub fn dependents_of(
    alloc: Global,
    graph: &Digraph,
    order: &[usize],
    among: &[bool],
) -> Result<Digraph, AllocError>
    requires order { IsOrder graph.now order.now }
    requires among { length among.now ≡ length graph.now }
    ensures { IfOk result (AreDependents graph.now order.now among.now) }
{
    let mut sources = Lists::empty(alloc, graph.len())?;
    let mut dependents = Lists::empty(alloc, graph.len())?;
    for node in order {
        let mut met = Row::new(alloc);
        meet_sources(
            &mut dependents,
            &mut met,
            graph.successors(*node),
            &sources,
            among,
            *node,
        )?;
        sources.set(*node, met);
    }
    dependents.pack(alloc)
}

/// Meets the sources of each of the nodes.
fn meet_sources(
    dependents: &mut Lists,
    met: &mut Row,
    nodes: &[usize],
    sources: &Lists,
    among: &[bool],
    label: usize,
) -> Result<(), AllocError>
    requires { length among.now ≡ length sources.now }
    ensures { OnOk result (Meets label (SuccessorHasSource sources.now among.now nodes.now)
        met.old dependents.old met.new dependents.new) }
{
    for node in nodes {
        meet_source(dependents, met, *node, sources, among, label)?;
    }
    Ok(())
}

/// Meets the node, where it is asked for, and its sources.
fn meet_source(
    dependents: &mut Lists,
    met: &mut Row,
    node: usize,
    sources: &Lists,
    among: &[bool],
    label: usize,
) -> Result<(), AllocError>
    requires { length among.now ≡ length sources.now }
    ensures { OnOk result (Meets label (HasSource sources.now among.now node)
        met.old dependents.old met.new dependents.new) }
{
    if among.len() <= node {
        return Ok(());
    }
    dependents.meet_if(met, node, among[node], label)?;
    dependents.meet_all(met, sources.row(node), label)?;
    Ok(())
}
