ghost use Rattle.std.specs.Prelude.{◌≡◌, ◌<◌, [], ◌∷◌, length, IfOk, IfSome, Option, List, ℕ, None, Some, true};
ghost use Rattle.std.specs.Bool.{OnTrue};
ghost use Rattle.any_kind.specs.Any.{AnyInputsFit, any_functional, any_inputs, any_ranged};
ghost use Rattle.dom_core.specs.Domain.{IsDomain};
ghost use Rattle.dom_definers.specs.Hulls.{AreSmallDeclared, IsSmallHull, hull_at, is_known, spans};
ghost use Rattle.dom_network.specs.Completion.{AreInHulls};
ghost use Rattle.dom_network.specs.Free.{IsTuple};
ghost use Rattle.digraph.specs.Order.{IsOrder};
ghost use Rattle.dom_network.specs.Network.{Gives, IsFitOver, IsNetwork, ends_of_values, network_of};
ghost use Rattle.kind_law.specs.Laws.{AllBelow};

use super::*;
use any_kind::AnyKind;
use digraph::Digraph;
use dom_core::{Arg, Assignment, Domain, DomainError, Interval, Name, NoMemory, Relation, VarId};
use dom_definers::{Declared, Form, Hulls, Variable, declared_hull, dependence_of, hulls_of};
use kind_law::{Define, Kind};
use kind_linear::{Linear, LinearOutput};
use std::alloc::Global;
use std::process::Abort;
use std::test::Fail;

fn shared<T: Send + Sync>(_: &T) {}

fn variable(alloc: Global, lo: i64, hi: i64) -> Result<Variable, NoMemory> {
    Ok(Variable {
        name: Name::from_slice(alloc, b"x")?,
        form: Form::Int,
        declared: Declared::Range { lo, hi },
    })
}

fn are_small(variables: &[Variable]) -> bool
    ensures { OnTrue result (AreSmallDeclared variables.now) }
{
    for variable in variables {
        if !is_small(declared_hull(variable)) {
            return false;
        }
    }
    true
}

fn is_small(hull: Option<Interval>) -> bool
    ensures { OnTrue result (IsSmallHull hull) }
{
    match hull {
        None => true,
        Some(hull) => -(1 << 62) <= hull.lo() && hull.hi() <= 1 << 62,
    }
}

// The first variable's hull is 0..2, that of the second -1..3.
fn two_hulls(rt: &impl Abort, alloc: Global) -> Result<Hulls, NoMemory> {
    let mut variables = Vec::new(alloc);
    variables.push(variable(alloc, 0, 2)?)?;
    variables.push(variable(alloc, -1, 3)?)?;
    let definers: [Option<usize>; 2] = [None, None];
    let graph = dependence_of(alloc, &definers, &[])?;
    let Some(order) = graph.order(alloc)? else {
        panic!(rt; "a cycle");
    };
    assert!(rt; variables.len() == 2);
    assert!(rt; are_small(&variables));
    hulls_of(alloc, &variables, &[], &definers, &order)
}

fn are_below(count: usize, vars: &[VarId]) -> bool
    ensures { OnTrue result (AllBelow count vars.now) }
{
    for var in vars {
        if count <= var.0 as usize {
            return false;
        }
    }
    true
}

fn are_known(hulls: &Hulls) -> bool
    requires { length hulls.now ≡ 2 }
    ensures { OnTrue result ((v : ℕ) → v < length hulls.now → is_known (hull_at hulls.now v) ≡ true) }
{
    hulls.hull(VarId(0)).is_some() && hulls.hull(VarId(1)).is_some()
}

fn is_fit_over(kind: &AnyKind, hulls: &Hulls) -> bool
    requires { (v : ℕ) → v < length hulls.now → is_known (hull_at hulls.now v) ≡ true }
    ensures { OnTrue result (IsFitOver hulls.now kind.now) }
{
    if !are_below(hulls.len(), kind.vars()) {
        return false;
    }
    !kind.is_too_wide(hulls)
}

fn has_range(kind: &AnyKind, var: VarId, hulls: &Hulls) -> bool
    requires functional { any_functional kind.now ≡ true }
    requires fit { IsFitOver hulls.now kind.now }
    requires below { var.0 < length hulls.now }
    ensures { OnTrue result (AnyInputsFit kind.now (spans hulls.now)
        × (hull_at hulls.now var.0 ≡ Some (any_ranged kind.now (spans hulls.now)))) }
{
    if !kind.is_defined_over(hulls) {
        return false;
    }
    hulls.hull(var) == Some(kind.range(hulls))
}

fn gives(kind: &AnyKind, var: VarId, hulls: &Hulls) -> bool
    requires fit { IsFitOver hulls.now kind.now }
    requires below { var.0 < length hulls.now }
    ensures { OnTrue result (Gives hulls.now var.0 kind.now) }
{
    if !kind.is_functional() || kind.output() != var {
        return false;
    }
    has_range(kind, var, hulls)
}

fn is_domain_of(domain: &Domain, hull: Interval) -> bool
    ensures { OnTrue result (IsDomain domain.now × (hull ≡ ends_of_values domain.now)) }
{
    let _size = domain.size();
    hull.lo() == domain.min() as i128 && hull.hi() == domain.max() as i128
}

// The graph of two nodes, the second of which leads to the first.
fn second_to_first(alloc: Global) -> Result<Digraph, NoMemory>
    ensures { IfOk result (λ g. g ≡ [] ∷ (0 ∷ []) ∷ []) }
{
    let mut graph = Digraph::new(alloc);
    graph.node()?;
    graph.node()?;
    graph.edge(0)?;
    Ok(graph)
}

// Twice the first variable less the second is 1, which defines the second; the second is at most 2.
fn definition(rt: &impl Abort, alloc: Global) -> Result<AnyKind, NoMemory> {
    let args = [Arg::Var(VarId(0)), Arg::Var(VarId(1))];
    let linear = Linear::new(alloc, &[2, -1], &args, Relation::Equal, 1)?;
    assert!(rt; linear.can_define(1));
    Ok(AnyKind::LinearOutput(LinearOutput::new(alloc, linear, 1)?))
}

fn bound(alloc: Global) -> Result<AnyKind, NoMemory> {
    let args = [Arg::Var(VarId(1))];
    Ok(AnyKind::Linear(Linear::new(alloc, &[1], &args, Relation::AtMost, 2)?))
}

fn reads_first(kind: &AnyKind) -> bool
    ensures { OnTrue result (any_inputs kind.now ≡ record { 0 = 0 } ∷ []) }
{
    let inputs = kind.inputs();
    if inputs.len() != 1 {
        return false;
    }
    if inputs[0].0 != 0 {
        return false;
    }
    true
}

// The parts are those of a network in any order of its two variables in which the second comes behind the first.
fn are_parts(definition: &AnyKind, bound: &AnyKind, hulls: &Hulls, domain: &Domain) -> bool
    ensures { OnTrue result ((order : List ℕ) → IsOrder ([] ∷ (0 ∷ []) ∷ []) order → IsNetwork
        (network_of (definition.now ∷ bound.now ∷ []) (None ∷ Some 0 ∷ []) hulls.now (domain.now ∷ [])) order) }
{
    if hulls.len() != 2 {
        return false;
    }
    if !are_known(hulls) {
        return false;
    }
    let Some(hull) = hulls.hull(VarId(0)) else {
        return false;
    };
    if !is_domain_of(domain, hull) {
        return false;
    }
    if !reads_first(definition) {
        return false;
    }
    if !is_fit_over(definition, hulls) {
        return false;
    }
    if !gives(definition, VarId(1), hulls) {
        return false;
    }
    if !is_fit_over(bound, hulls) {
        return false;
    }
    true
}

fn assemble(
    alloc: Global,
    definition: AnyKind,
    bound: AnyKind,
    hulls: Hulls,
    domain: Domain,
    order: Vec<usize>,
) -> Result<Network, NoMemory>
    requires { IsNetwork
        (network_of (definition ∷ bound ∷ []) (None ∷ Some 0 ∷ []) hulls (domain ∷ [])) order.items }
    ensures { IfOk result (λ n. n.definers ≡ None ∷ Some 0 ∷ []) }
{
    let constraints = vec![in alloc; definition, bound]?;
    let definers = vec![in alloc; None, Some(0)]?;
    let domains = vec![in alloc; domain]?;
    Network::new(alloc, constraints, definers, order, hulls, domains)
}

fn if_parts(
    alloc: Global,
    definition: AnyKind,
    bound: AnyKind,
    hulls: Hulls,
    domain: Domain,
    order: Vec<usize>,
) -> Result<Option<Network>, NoMemory>
    requires { IsOrder ([] ∷ (0 ∷ []) ∷ []) order.items }
    ensures { IfOk result (λ o. IfSome o (λ n. n.definers ≡ None ∷ Some 0 ∷ [])) }
{
    if !are_parts(&definition, &bound, &hulls, &domain) {
        return Ok(None);
    }
    let network = assemble(alloc, definition, bound, hulls, domain, order)?;
    Ok(Some(network))
}

// The first variable is 0 or 2, the second twice the first less 1, and at most 2.
fn two_variables(rt: &impl Abort, alloc: Global) -> Result<Option<Network>, NoMemory>
    ensures { IfOk result (λ o. IfSome o (λ n. n.definers ≡ None ∷ Some 0 ∷ [])) }
{
    let hulls = two_hulls(rt, alloc)?;
    let definition = definition(rt, alloc)?;
    let bound = bound(alloc)?;
    let Ok(domain) = Domain::from_values(alloc, &[2, 0]) else {
        panic!(rt; "no domain");
    };
    let graph = second_to_first(alloc)?;
    let Some(order) = graph.order(alloc)? else {
        panic!(rt; "a cycle");
    };
    if_parts(alloc, definition, bound, hulls, domain, order)
}

fn is_chosen(network: &Network, value: i64) -> bool
    requires { network.now.definers ≡ None ∷ Some 0 ∷ [] }
    ensures { OnTrue result (IsTuple network.now.domains (value ∷ [])) }
{
    network.has_order();
    network.domain(0).contains(value)
}

fn is_inside(network: &Network, a: &Assignment) -> bool
    requires { length a.now ≡ length network.now.hulls }
    ensures { OnTrue result (AreInHulls network.now.hulls a.now) }
{
    for number in 0..network.vars() {
        let var = VarId(number as u32);
        if !network.hull(var).has(a.value(var) as i128) {
            return false;
        }
    }
    true
}

// The completion of the value, and whether it is admitted.
fn expect(
    rt: &impl Abort,
    alloc: Global,
    network: &Network,
    value: i64,
    second: i64,
    admitted: bool,
) -> Result<(), Fail>
    requires { network.now.definers ≡ None ∷ Some 0 ∷ [] }
{
    let mut a = Assignment::zeros(alloc, network.vars())?;
    assert!(rt; is_chosen(network, value));
    network.complete(&[value], &mut a);
    assert_eq!(rt; a.as_slice(), [value, second].as_slice());
    assert_eq!(rt; network.admits(&a), admitted);
    Ok(())
}

#[test]
fn free_values_are_completed_and_admitted(rt: HostRuntime) -> Result<(), Fail> {
    let alloc = rt.alloc();
    let Some(network) = two_variables(&rt, alloc)? else {
        panic!(rt; "no network");
    };
    shared(&network);
    network.one_completion();
    network.admitted_is_completed();
    assert_eq!(rt; network.constraints().len(), 2);
    assert_eq!(rt; network.free(), [VarId(0)].as_slice());
    assert_eq!(rt; network.definer(VarId(1)), Some(0));
    assert_eq!(rt; network.place(VarId(0)), Some(0));
    assert_eq!(rt; network.place(VarId(1)), None);
    assert_eq!(rt; network.domain(0).size(), 2);
    assert_eq!(rt; network.readers(VarId(0)), [0].as_slice());
    assert_eq!(rt; network.readers(VarId(1)), [0, 1].as_slice());
    assert_eq!(rt; network.dependents(VarId(0)), [1].as_slice());
    assert!(rt; network.vars() == 2);
    let hull = network.hull(VarId(1));
    assert_eq!(rt; (hull.lo(), hull.hi()), (-1, 3));
    expect(&rt, alloc, &network, 0, -1, true)?;
    expect(&rt, alloc, &network, 2, 3, false)?;
    let mut gap = Assignment::zeros(alloc, network.vars())?;
    gap.set(VarId(0), 1);
    gap.set(VarId(1), 1);
    assert!(rt; is_inside(&network, &gap));
    assert!(rt; !network.admits(&gap));
    Ok(())
}
