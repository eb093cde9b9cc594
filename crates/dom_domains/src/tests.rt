ghost use Rattle.std.specs.Prelude.{length};
ghost use Rattle.std.specs.Bool.{OnTrue};
ghost use Rattle.dom_core.specs.Small.{IsSmall};
ghost use Rattle.dom_definers.specs.Domains.{AreSmallEnds};
ghost use Rattle.dom_domains.specs.FreeDomains.{AreSmallVariables};

use super::*;
use any_kind::AnyKind;
use dom_core::{Assignment, Name, NoMemory, Values, VarId};
use dom_definers::{Declared, Form, Variable};
use kind_arith::InSet;
use kind_law::Kind;
use std::alloc::Global;
use std::process::Abort;
use std::test::Fail;

fn shared<T: Send + Sync>(_: &T) {}

/// What a variable is declared with.
#[derive(Clone, Copy, Drop)]
enum Shape {
    Truth,
    Open,
    Between(i64, i64),
    Listed(&'static [i64]),
}

const MOST: i64 = 1 << 62;

fn variable(alloc: Global, shape: Shape) -> Result<Variable, NoMemory> {
    let (form, declared) = match shape {
        Shape::Truth => (Form::Bool, Declared::Any),
        Shape::Open => (Form::Int, Declared::Any),
        Shape::Between(lo, hi) => (Form::Int, Declared::Range { lo, hi }),
        Shape::Listed(values) => {
            let list = Values::from_slice(alloc, values)?;
            (Form::Int, Declared::Values(list))
        }
    };
    Ok(Variable {
        name: Name::from_slice(alloc, b"x")?,
        form,
        declared,
    })
}

fn variables_of(alloc: Global, shapes: &[Shape]) -> Result<Vec<Variable>, NoMemory> {
    let mut variables = Vec::new(alloc);
    for shape in shapes {
        variables.push(variable(alloc, *shape)?)?;
    }
    Ok(variables)
}

fn are_small(variables: &[Variable]) -> bool
    ensures { OnTrue result (AreSmallVariables variables.now) }
{
    let mut number = variables.len();
    while 0 < number {
        number -= 1;
        if !are_small_ends(&variables[number].declared) {
            return false;
        }
    }
    true
}

fn are_small_ends(declared: &Declared) -> bool
    ensures { OnTrue result (AreSmallEnds declared.now) }
{
    match declared {
        Declared::Any => true,
        Declared::Range { lo, hi } => is_small(*lo) && is_small(*hi),
        Declared::Values(_) => true,
    }
}

fn is_small(value: i64) -> bool
    ensures { OnTrue result (IsSmall value) }
{
    -(1 << 62) <= value && value <= 1 << 62
}

// The first and the last value of each domain and how many there are, or the fault.
fn expect_domains(
    rt: &impl Abort,
    alloc: Global,
    shapes: &[Shape],
    definers: &[Option<usize>],
    expected: Result<&[(i64, i64, usize)], DomainFault>,
) -> Result<(), Fail> {
    let variables = variables_of(alloc, shapes)?;
    assert!(rt; are_small(&variables));
    assert!(rt; definers.len() == variables.len() && variables.len() < 10);
    match free_domains(alloc, &variables, definers) {
        Ok(domains) => {
            let mut ends = Vec::new(alloc);
            for domain in &domains {
                ends.push((domain.min(), domain.max(), domain.size()))?;
            }
            assert_eq!(rt; Ok(ends.as_slice()), expected);
        }
        Err(fault) => assert_eq!(rt; Err(fault), expected),
    }
    Ok(())
}

#[test]
fn free_variables_have_domains_or_a_fault(rt: HostRuntime) -> Result<(), Fail> {
    let alloc = rt.alloc();
    use Shape::{Between, Listed, Open, Truth};
    let empty = DomainFault::Empty { var: VarId(0) };
    let second = VarId(1);
    let many = DomainFault::TooLarge {
        var: second,
        count: 4097,
    };
    let unbounded = DomainFault::Unbounded { var: second };
    shared(&empty);
    let free: Option<usize> = None;
    let defined = Some(0);
    expect_domains(
        &rt,
        alloc,
        &[Truth, Open],
        &[free, defined],
        Ok(&[(0, 1, 2)]),
    )?;
    expect_domains(
        &rt,
        alloc,
        &[Between(-1, 4094)],
        &[free],
        Ok(&[(-1, 4094, 4096)]),
    )?;
    expect_domains(
        &rt,
        alloc,
        &[Listed(&[4, -7, 9, 4])],
        &[free],
        Ok(&[(-7, 9, 3)]),
    )?;
    expect_domains(&rt, alloc, &[Between(-MOST, MOST)], &[defined], Ok(&[]))?;
    expect_domains(
        &rt,
        alloc,
        &[Truth, Between(-2, 4094)],
        &[free, free],
        Err(many),
    )?;
    expect_domains(&rt, alloc, &[Listed(&[]), Open], &[free, free], Err(empty))?;
    expect_domains(&rt, alloc, &[Between(1, 0)], &[defined], Err(empty))?;
    expect_domains(
        &rt,
        alloc,
        &[Truth, Open, Between(1, 0)],
        &[free, free, defined],
        Err(unbounded),
    )
}

// Whether the restriction of the second variable holds of the value.
fn holds_of(rt: &impl Abort, alloc: Global, restriction: &InSet, value: i64) -> Result<bool, Fail> {
    let mut a = Assignment::zeros(alloc, 2)?;
    a.set(VarId(1), value);
    let [var] = restriction.vars() else {
        panic!(rt; "not one variable");
    };
    assert!(rt; (var.0 as usize) < a.len());
    Ok(restriction.holds(&a))
}

// The second variable, with this definer, has a restriction that holds of these values or not; none where there are none.
fn expect_restriction(
    rt: &impl Abort,
    alloc: Global,
    shape: Shape,
    definer: Option<usize>,
    values: &[(i64, bool)],
) -> Result<(), Fail> {
    let variables = variables_of(alloc, &[Shape::Truth, shape])?;
    assert!(rt; variables.len() == 2);
    let mut constraints = Vec::new(alloc);
    restrictions_of(alloc, &variables, &[None, definer], &mut constraints)?;
    assert_eq!(rt; constraints.is_empty(), values.is_empty());
    for (value, holds) in values {
        let [AnyKind::InSet(restriction)] = constraints.as_slice() else {
            panic!(rt; "not one restriction");
        };
        assert_eq!(rt;
            holds_of(rt, alloc, restriction, *value)?,
            *holds,
            "of {value}"
        );
    }
    Ok(())
}

#[test]
fn defined_variables_are_restricted(rt: HostRuntime) -> Result<(), Fail> {
    let alloc = rt.alloc();
    let truths = [(-1, false), (0, true), (1, true), (2, false)];
    expect_restriction(&rt, alloc, Shape::Truth, Some(0), &truths)?;
    expect_restriction(&rt, alloc, Shape::Truth, None, &[])?;
    expect_restriction(&rt, alloc, Shape::Open, Some(0), &[])?;
    let wide = Shape::Between(-5, MOST);
    expect_restriction(
        &rt,
        alloc,
        wide,
        Some(0),
        &[(-6, false), (-5, true), (MOST, true)],
    )?;
    let gap = Shape::Listed(&[4, -7, 9, 4]);
    expect_restriction(
        &rt,
        alloc,
        gap,
        Some(0),
        &[(-7, true), (4, true), (5, false), (9, true)],
    )?;
    values_are_the_allowed_ones();
    hulls_go_from_first_to_last();
    restrictions_are_met_by_allowed_values();
    restrictions_are_unique();
    Ok(())
}
