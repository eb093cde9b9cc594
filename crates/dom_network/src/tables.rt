//! Which constraints read a variable, and which variables depend on a free one.
ghost use Rattle.std.specs.Prelude.{◌≡◌, ◌++◌, [], ◌∷◌, List, ℕ, length, IfOk, OnOk};
ghost use Rattle.digraph.specs.Order.{IsOrder};
ghost use Rattle.dom_definers.specs.Definers.{numbers};
ghost use Rattle.dom_network.specs.Completion.{definition_at, inputs_at, reading_of};
ghost use Rattle.dom_network.specs.Tables.{free_marks, reads_of};
ghost use Rattle.incidence.specs.Dependents.{AreDependents};
ghost use Rattle.incidence.specs.Holders.{AreHolders};

use any_kind::AnyKind;
use digraph::Digraph;
use dom_core::VarId;
use incidence::holders_of;
use kind_law::{Define, Kind};
use std::alloc::{AllocError, Global};

/// For each of so many variables the places of the constraints that read it.
pub(crate) fn readers_of(
    alloc: Global,
    constraints: &[AnyKind],
    count: usize,
) -> Result<Digraph, AllocError>
    ensures { IfOk result (AreHolders (reads_of constraints.now) count) }
{
    let reads = reads_of(alloc, constraints)?;
    holders_of(alloc, &reads, count)
}

/// For each free variable those that depend on it, along the order.
#[tactic(auto, using(crate::proofs::TableLaws::marks_count, crate::proofs::OrderLaws::reading_count))]
pub(crate) fn dependents_of(
    alloc: Global,
    constraints: &[AnyKind],
    definers: &[Option<usize>],
    order: &[usize],
) -> Result<Digraph, AllocError>
    requires { IsOrder (reading_of constraints.now definers.now) order.now }
    ensures { IfOk result
        (AreDependents (reading_of constraints.now definers.now) order.now (free_marks definers.now)) }
{
    let reading = reading_of(alloc, constraints, definers)?;
    let free = free_marks(alloc, definers)?;
    incidence::dependents_of(alloc, &reading, order, free.as_slice())
}

/// For each constraint the variables that it reads.
fn reads_of(alloc: Global, constraints: &[AnyKind]) -> Result<Digraph, AllocError>
    ensures { IfOk result (λ g. g ≡ reads_of constraints.now) }
{
    let mut reads = Digraph::new(alloc);
    for kind in constraints {
        add_node(&mut reads, kind.vars())?;
    }
    Ok(reads)
}

/// For each variable those that its definition reads.
fn reading_of(
    alloc: Global,
    constraints: &[AnyKind],
    definers: &[Option<usize>],
) -> Result<Digraph, AllocError>
    ensures { IfOk result (λ g. g ≡ reading_of constraints.now definers.now) }
{
    let mut reading = Digraph::new(alloc);
    for definer in definers {
        add_node(&mut reading, inputs_at(constraints, *definer))?;
    }
    Ok(reading)
}

/// What the definition at this place reads.
fn inputs_at(constraints: &[AnyKind], definer: Option<usize>) -> &[VarId]
    ensures { numbers result.now ≡ inputs_at (definition_at constraints.now definer) }
{
    match definer {
        None => &[],
        Some(place) => match constraints.get(place) {
            None => &[],
            Some(kind) => kind.inputs(),
        },
    }
}

/// For each variable whether it is free.
fn free_marks(alloc: Global, definers: &[Option<usize>]) -> Result<Vec<bool>, AllocError>
    ensures { IfOk result (λ marks. marks.items ≡ free_marks definers.now) }
{
    let mut marks = Vec::new(alloc);
    for definer in definers {
        marks.push(definer.is_none())?;
    }
    Ok(marks)
}

fn add_node(graph: &mut Digraph, reads: &[VarId]) -> Result<(), AllocError>
    ensures { OnOk result (graph.new ≡ graph.old ++ numbers reads.now ∷ []) }
{
    graph.node()?;
    add_edges(graph, reads)
}

/// Adds edges to the last node, which has none.
fn add_edges(graph: &mut Digraph, reads: &[VarId]) -> Result<(), AllocError>
    requires { (front : List (List ℕ)) × (graph.old ≡ front ++ [] ∷ []) }
    ensures { OnOk result ((front : List (List ℕ)) → graph.old ≡ front ++ [] ∷ []
        → graph.new ≡ front ++ numbers reads.now ∷ []) }
{
    for var in reads {
        graph.edge(var.0 as usize)?;
    }
    Ok(())
}
