ghost use Rattle.std.specs.Prelude.{◌≡◌, length, IfOk};
ghost use Rattle.std.specs.Bool.{OnTrue};
ghost use Rattle.dom_definers.specs.Hulls.{AreFitDefiners, AreSmallDeclared, IsDefinition, IsFitDefiner, IsSmallHull};
ghost use Rattle.dom_definers.specs.Definers.{DefineBelow, IsBelowSome};
ghost use Rattle.dom_definers.specs.Domains.{AreSmallEnds};
ghost use Rattle.dom_definers.specs.Width.{AreFitFrom, GivesVar, IsFitConstraint};
ghost use Rattle.kind_law.specs.Laws.{AllBelow};

use super::*;
use crate::width::if_defined;
use any_kind::AnyKind;
use dom_core::{Arg, DomainError, Interval, Name, NoMemory, Relation, Values, VarId};
use kind_law::{Define, Kind};
use kind_linear::{Linear, LinearOutput};
use std::alloc::Global;
use std::process::Abort;
use std::test::Fail;

fn shared<T: Send + Sync>(_: &T) {}

fn variable(alloc: Global, form: Form, declared: Declared) -> Result<Variable, NoMemory>
    ensures { IfOk result (λ v. v.declared ≡ declared) }
{
    Ok(Variable {
        name: Name::from_slice(alloc, b"x")?,
        form,
        declared,
    })
}

fn are_below(count: usize, vars: &[VarId]) -> bool
    ensures { OnTrue result (AllBelow count vars.now) }
{
    for var in vars {
        if count <= var.0 as usize {
            return false;
        }
    }
    true
}

fn is_fit(count: usize, constraints: &[Posted], definer: Option<usize>) -> bool
    ensures { OnTrue result (IsFitDefiner count constraints.now definer) }
{
    match definer {
        None => true,
        Some(place) => match constraints.get(place) {
            None => true,
            Some(posted) => is_definition(count, &posted.kind),
        },
    }
}

fn is_definition(count: usize, kind: &AnyKind) -> bool
    ensures { OnTrue result (IsDefinition count kind.now) }
{
    if !kind.is_functional() {
        return false;
    }
    are_below(count, kind.inputs())
}

fn are_fit(count: usize, constraints: &[Posted], definers: &[Option<usize>]) -> bool
    ensures { OnTrue result (AreFitDefiners count constraints.now definers.now) }
{
    for definer in definers {
        if !is_fit(count, constraints, *definer) {
            return false;
        }
    }
    true
}

fn are_defined_below(count: usize, constraints: &[Posted]) -> bool
    ensures { OnTrue result (DefineBelow count constraints.now) }
{
    for posted in constraints {
        if !is_below(count, posted.defines) {
            return false;
        }
    }
    true
}

fn is_below(count: usize, var: Option<VarId>) -> bool
    ensures { OnTrue result (IsBelowSome count var) }
{
    match var {
        None => true,
        Some(var) => (var.0 as usize) < count,
    }
}

fn are_small(variables: &[Variable]) -> bool
    ensures { OnTrue result (AreSmallDeclared variables.now) }
{
    for variable in variables {
        if !is_small(declared_hull(variable)) {
            return false;
        }
    }
    true
}

fn is_small(hull: Option<Interval>) -> bool
    ensures { OnTrue result (IsSmallHull hull) }
{
    match hull {
        None => true,
        Some(hull) => -(1 << 62) <= hull.lo() && hull.hi() <= 1 << 62,
    }
}

fn gives_var(kind: &AnyKind, defined: Option<VarId>) -> bool
    ensures { OnTrue result (GivesVar kind.now defined) }
{
    match defined {
        None => true,
        Some(var) => kind.is_functional() && kind.output() == var,
    }
}

fn is_fit_constraint(count: usize, kind: &AnyKind, defined: Option<VarId>) -> bool
    ensures { OnTrue result (IsFitConstraint count kind.now defined) }
{
    if !are_below(count, kind.vars()) {
        return false;
    }
    gives_var(kind, defined)
}

fn are_fit_from(count: usize, constraints: &[Posted], definers: &[Option<usize>]) -> bool
    requires { DefineBelow (length definers.now) constraints.now }
    ensures { OnTrue result (AreFitFrom count 0 constraints.now definers.now) }
{
    let mut place = constraints.len();
    while 0 < place {
        place -= 1;
        let posted = &constraints[place];
        let defined = if_defined(definers, posted.defines, place);
        if !is_fit_constraint(count, &posted.kind, defined) {
            return false;
        }
    }
    true
}

// The first two variables' sum, which is the third.
fn sum(rt: &impl Abort, alloc: Global) -> Result<Posted, NoMemory> {
    let args = [Arg::Var(VarId(0)), Arg::Var(VarId(1)), Arg::Var(VarId(2))];
    let linear = Linear::new(alloc, &[1, 2, -1], &args, Relation::Equal, 0)?;
    assert!(rt; linear.can_define(2));
    let kind = AnyKind::LinearOutput(LinearOutput::new(alloc, linear, 2)?);
    Ok(Posted {
        kind,
        defines: Some(VarId(2)),
    })
}

fn expect_hull(
    rt: &impl Abort,
    alloc: Global,
    form: Form,
    declared: Declared,
    ends: Option<(i128, i128)>,
) -> Result<(), Fail> {
    let x = variable(alloc, form, declared)?;
    shared(&x);
    match declared_hull(&x) {
        None => assert_eq!(rt; ends, None),
        Some(hull) => assert_eq!(rt; ends, Some((hull.lo(), hull.hi()))),
    }
    Ok(())
}

#[test]
fn a_declaration_has_the_hull_of_its_values(rt: HostRuntime) -> Result<(), Fail> {
    let alloc = rt.alloc();
    expect_hull(&rt, alloc, Form::Bool, Declared::Any, Some((0, 1)))?;
    expect_hull(&rt, alloc, Form::Int, Declared::Any, None)?;
    for (lo, hi, ends) in [(0, 3, Some((0, 3))), (2, 1, None), (-5, -5, Some((-5, -5)))] {
        expect_hull(&rt, alloc, Form::Int, Declared::Range { lo, hi }, ends)?;
    }
    let none = Values::from_slice(alloc, &[])?;
    expect_hull(&rt, alloc, Form::Int, Declared::Values(none), None)?;
    let some = Values::from_slice(alloc, &[4, -7, 9, 4])?;
    expect_hull(&rt, alloc, Form::Int, Declared::Values(some), Some((-7, 9)))
}

#[test]
fn a_sum_gives_its_variable_a_hull(rt: HostRuntime) -> Result<(), Fail> {
    let alloc = rt.alloc();
    let mut constraints = Vec::new(alloc);
    constraints.push(sum(&rt, alloc)?)?;
    let mut variables = Vec::new(alloc);
    variables.push(variable(alloc, Form::Int, Declared::Range { lo: -1, hi: 3 })?)?;
    variables.push(variable(alloc, Form::Bool, Declared::Any)?)?;
    variables.push(variable(alloc, Form::Int, Declared::Any)?)?;
    expect_hulls(&rt, alloc, &variables, &constraints, (-1, 5))
}

// The third variable is defined by the first constraint, reads the first two, and has this hull.
fn expect_hulls(
    rt: &impl Abort,
    alloc: Global,
    variables: &[Variable],
    constraints: &[Posted],
    ends: (i128, i128),
) -> Result<(), Fail> {
    assert!(rt; are_defined_below(3, constraints));
    let definers = definers_of(alloc, 3, constraints)?;
    assert_eq!(rt; definers.as_slice(), [None, None, Some(0)].as_slice());
    let graph = dependence_of(alloc, &definers, constraints)?;
    assert_eq!(rt; graph.len(), 3);
    assert_eq!(rt; graph.successors(2), [0, 1].as_slice());
    let Some(order) = graph.order(alloc)? else {
        panic!(rt; "a cycle");
    };
    assert!(rt; are_fit(3, constraints, &definers) && variables.len() == 3);
    assert!(rt; are_small(variables));
    let hulls = hulls_of(alloc, variables, constraints, &definers, &order)?;
    shared(&hulls);
    assert_eq!(rt; hulls.len(), 3);
    match hulls.hull(VarId(2)) {
        None => panic!(rt; "no hull"),
        Some(hull) => assert_eq!(rt; (hull.lo(), hull.hi()), ends),
    }
    every_hull_is_known();
    definers_are_one();
    hulls_are_one();
    let kept = kept_definers(alloc, constraints, &definers, &hulls)?;
    assert_eq!(rt; kept.as_slice(), definers.as_slice());
    assert!(rt; kept.len() == 3);
    assert!(rt; are_defined_below(kept.len(), constraints));
    assert!(rt; are_fit_from(3, constraints, &kept));
    assert_eq!(rt; first_too_wide(constraints, &kept, &hulls), None);
    Ok(())
}

// How many values the domain has, or why there is none; 0 where nothing is declared.
fn size_of(
    alloc: Global,
    form: Form,
    declared: Declared,
) -> Result<Result<usize, DomainError>, NoMemory>
    requires { AreSmallEnds declared }
{
    let x = variable(alloc, form, declared)?;
    match domain_of(alloc, &x) {
        Ok(None) => Ok(Ok(0)),
        Ok(Some(domain)) => Ok(Ok(domain.size())),
        Err(error) => Ok(Err(error)),
    }
}

#[test]
fn a_declaration_has_the_domain_of_its_values(rt: HostRuntime) -> Result<(), Fail> {
    let alloc = rt.alloc();
    assert_eq!(rt; size_of(alloc, Form::Bool, Declared::Any)?, Ok(2));
    assert_eq!(rt; size_of(alloc, Form::Int, Declared::Any)?, Ok(0));
    let few = Declared::Range { lo: -1, hi: 4094 };
    assert_eq!(rt; size_of(alloc, Form::Int, few)?, Ok(4096));
    let many = Declared::Range { lo: -2, hi: 4094 };
    assert_eq!(rt;
        size_of(alloc, Form::Int, many)?,
        Err(DomainError::TooLarge { count: 4097 })
    );
    let none = Declared::Range { lo: 1, hi: 0 };
    assert_eq!(rt; size_of(alloc, Form::Int, none)?, Err(DomainError::Empty));
    let some = Declared::Values(Values::from_slice(alloc, &[4, -7, 9, 4])?);
    assert_eq!(rt; size_of(alloc, Form::Int, some)?, Ok(3));
    Ok(())
}
