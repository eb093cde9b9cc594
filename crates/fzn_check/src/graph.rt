//! Which declarations lead to which.
ghost use Rattle.std.specs.Prelude.{◌≡◌, ◌<◌, length, flat_map, IfOk, OnOk};
ghost use Rattle.fzn_check.specs.Places.{places_of, named_by, named_in, successors, graph_of};
ghost use Rattle.fzn_check.specs.Edges.{with_edges};

use crate::value::value_of;
use digraph::Digraph;
use fzn_symbols::Scope;
use fzn_syntax::{Basic, Declaration, Expression};
use std::alloc::{AllocError, Global};

/// Each declaration is a node, and leads to those that its value names.
pub(crate) fn graph_of(alloc: Global, scope: &Scope<'_>) -> Result<Digraph, AllocError>
    ensures { IfOk result (λ g. g ≡ graph_of scope.now) }
{
    let declarations = scope.declarations();
    let mut graph = Digraph::new(alloc);
    for declaration in declarations {
        graph.node()?;
        add_successors(&mut graph, scope, declaration)?;
    }
    Ok(graph)
}

fn add_successors(
    graph: &mut Digraph,
    scope: &Scope<'_>,
    declaration: &Declaration,
) -> Result<(), AllocError>
    requires { 0 < length graph.old }
    ensures { OnOk result (graph.new ≡ with_edges graph.old (successors scope.now declaration.now)) }
{
    match value_of(declaration) {
        None => Ok(()),
        Some(value) => add_named_in(graph, scope, value),
    }
}

fn add_named_in(
    graph: &mut Digraph,
    scope: &Scope<'_>,
    expression: &Expression,
) -> Result<(), AllocError>
    requires { 0 < length graph.old }
    ensures { OnOk result (graph.new ≡ with_edges graph.old (named_in scope.now expression.now)) }
{
    match expression {
        Expression::Basic(basic) => add_named_by(graph, scope, basic),
        Expression::List(basics) => add_entries(graph, scope, basics.as_slice()),
    }
}

fn add_entries(graph: &mut Digraph, scope: &Scope<'_>, basics: &[Basic]) -> Result<(), AllocError>
    requires { 0 < length graph.old }
    ensures { OnOk result (graph.new ≡ with_edges graph.old (flat_map (named_by scope.now) basics.now)) }
{
    for basic in basics {
        add_named_by(graph, scope, basic)?;
    }
    Ok(())
}

fn add_named_by(graph: &mut Digraph, scope: &Scope<'_>, basic: &Basic) -> Result<(), AllocError>
    requires { 0 < length graph.old }
    ensures { OnOk result (graph.new ≡ with_edges graph.old (named_by scope.now basic.now)) }
{
    match basic {
        Basic::Name(name) => add_named(graph, scope, name.name.as_bytes()),
        Basic::True => Ok(()),
        Basic::False => Ok(()),
        Basic::Number(_) => Ok(()),
        Basic::Range(_) => Ok(()),
        Basic::Set(_) => Ok(()),
    }
}

fn add_named(graph: &mut Digraph, scope: &Scope<'_>, name: &[u8]) -> Result<(), AllocError>
    requires { 0 < length graph.old }
    ensures { OnOk result (graph.new ≡ with_edges graph.old (places_of scope.now name.now)) }
{
    // All names of a scope are different.
    let _ = scope.declarations();
    match scope.place(name) {
        None => Ok(()),
        Some(place) => {
            graph.edge(place)?;
            Ok(())
        }
    }
}
