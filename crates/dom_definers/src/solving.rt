//! The hulls of defined variables.
ghost use Rattle.std.specs.Prelude.{◌≡◌, ◌<◌, ◌≤◌, length, slice_get, slice_set, true, IfOk};
ghost use Rattle.any_kind.specs.Any.{any_defined};
ghost use Rattle.digraph.specs.Order.{IsOrder};
ghost use Rattle.dom_definers.specs.Definers.{definer_at, dependence};
ghost use Rattle.dom_definers.specs.Variable.{declared_hull};
ghost use Rattle.dom_definers.specs.Hulls.{AreFitDefiners, AreHulls, AreSmallDeclared, AreSmallHulls, declared_or_none, IsDefinition, IsFitDefiner, IsSmallHull, defined_hull, hull_by, own_hull, spans};

use crate::declared::declared_hull;
use crate::hulls::{Hulls, small_or_none};
use crate::posted::Posted;
use crate::variable::Variable;
use any_kind::AnyKind;
use dom_core::{Interval, VarId};
use kind_law::{Define, Kind};
use std::alloc::{AllocError, Global};

/// The hull of each variable, in an order in which variables come behind those that their definitions read.
pub fn hulls_of(
    alloc: Global,
    variables: &[Variable],
    constraints: &[Posted],
    definers: &[Option<usize>],
    order: &[usize],
) -> Result<Hulls, AllocError>
    requires few { length variables.now ≤ 4294967295 }
    requires whole { length definers.now ≡ length variables.now }
    requires definers { AreFitDefiners (length variables.now) constraints.now definers.now }
    requires small { AreSmallDeclared variables.now }
    requires order { IsOrder (dependence constraints.now definers.now) order.now }
    ensures { IfOk result (λ h. AreHulls variables.now constraints.now definers.now h) }
{
    let mut hulls = Hulls::none(alloc, variables.len())?;
    for node in order {
        solve(variables, constraints, definers, *node, &mut hulls);
    }
    Ok(hulls)
}

/// Finds the hull of one variable.
fn solve(
    variables: &[Variable],
    constraints: &[Posted],
    definers: &[Option<usize>],
    node: usize,
    hulls: &mut Hulls,
)
    requires few { length variables.now ≤ 4294967295 }
    requires whole { length definers.now ≡ length variables.now }
    requires size { length hulls.old ≡ length variables.now }
    requires node { node < length variables.now }
    requires definers { AreFitDefiners (length variables.now) constraints.now definers.now }
    requires small { AreSmallDeclared variables.now }
    ensures set { hulls.new ≡ slice_set hulls.old node (own_hull constraints.now (definer_at definers.now node) (declared_or_none (slice_get variables.now node)) hulls.old) }
    ensures small { AreSmallHulls hulls.new }
{
    let hull = own_hull(constraints, definers[node], &variables[node], hulls);
    hulls.set(VarId(node as u32), hull);
}

/// The hull by the definition at this place, or the declared one.
fn own_hull(
    constraints: &[Posted],
    definer: Option<usize>,
    variable: &Variable,
    hulls: &Hulls,
) -> Option<Interval>
    requires definer { IsFitDefiner (length hulls.now) constraints.now definer }
    requires small { IsSmallHull (declared_hull variable.now) }
    ensures hull { result ≡ own_hull constraints.now definer (declared_hull variable.now) hulls.now }
    ensures small { IsSmallHull result }
{
    let declared = declared_hull(variable);
    match definer {
        None => declared,
        Some(place) => match constraints.get(place) {
            None => declared,
            Some(posted) => hull_by(&posted.kind, declared, hulls),
        },
    }
}

/// The hull by the definition, where that has a value over the inputs' hulls, and else the declared one.
fn hull_by(kind: &AnyKind, declared: Option<Interval>, hulls: &Hulls) -> Option<Interval>
    requires definition { IsDefinition (length hulls.now) kind.now }
    requires small { IsSmallHull declared }
    ensures hull { result ≡ hull_by kind.now declared hulls.now }
    ensures small { IsSmallHull result }
{
    if kind.is_defined_over(hulls) {
        defined_hull(kind, hulls)
    } else {
        declared
    }
}

/// The range over the inputs' hulls, where it is known and small.
fn defined_hull(kind: &AnyKind, hulls: &Hulls) -> Option<Interval>
    requires definition { IsDefinition (length hulls.now) kind.now }
    requires defined { any_defined kind.now (spans hulls.now) ≡ true }
    ensures hull { result ≡ defined_hull kind.now hulls.now }
    ensures small { IsSmallHull result }
{
    if !hulls.all_known(kind.inputs()) {
        return None;
    }
    if kind.is_too_wide(hulls) {
        return None;
    }
    small_or_none(kind.range(hulls))
}
