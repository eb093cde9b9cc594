//! What definitions read.
ghost use Rattle.std.specs.Prelude.{◌≡◌, ◌++◌, [], ◌∷◌, List, ℕ, IfOk, OnOk};
ghost use Rattle.dom_definers.specs.Definers.{dependence, numbers, posted_reads, reads_at, reads_of};

use crate::posted::Posted;
use any_kind::AnyKind;
use digraph::Digraph;
use dom_core::VarId;
use kind_law::{Define, Kind};
use std::alloc::{AllocError, Global};

/// The graph in which each variable leads to those that its definition reads.
pub fn dependence_of(
    alloc: Global,
    definers: &[Option<usize>],
    constraints: &[Posted],
) -> Result<Digraph, AllocError>
    ensures { IfOk result (λ g. g ≡ dependence constraints.now definers.now) }
{
    let mut graph = Digraph::new(alloc);
    for definer in definers {
        add_node(&mut graph, reads_at(constraints, *definer))?;
    }
    Ok(graph)
}

/// What the definition at this place reads.
pub(crate) fn reads_at(constraints: &[Posted], definer: Option<usize>) -> &[VarId]
    ensures { result.now ≡ reads_at constraints.now definer }
{
    match definer {
        None => &[],
        Some(place) => match constraints.get(place) {
            None => &[],
            Some(posted) => reads_of(&posted.kind),
        },
    }
}

fn reads_of(kind: &AnyKind) -> &[VarId]
    ensures { result.now ≡ reads_of kind.now }
{
    if kind.is_functional() {
        kind.inputs()
    } else {
        kind.vars()
    }
}

fn add_node(graph: &mut Digraph, reads: &[VarId]) -> Result<(), AllocError>
    ensures { OnOk result (graph.new ≡ graph.old ++ numbers reads.now ∷ []) }
{
    graph.node()?;
    add_edges(graph, reads)
}

/// Adds edges to the last node, which has none.
fn add_edges(graph: &mut Digraph, reads: &[VarId]) -> Result<(), AllocError>
    requires { (front : List (List ℕ)) × (graph.old ≡ front ++ [] ∷ []) }
    ensures { OnOk result ((front : List (List ℕ)) → graph.old ≡ front ++ [] ∷ [] → graph.new ≡ front ++ numbers reads.now ∷ []) }
{
    for var in reads {
        graph.edge(var.0 as usize)?;
    }
    Ok(())
}
