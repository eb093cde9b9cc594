ghost use Rattle.std.specs.Prelude.{◌≡◌, ◌<◌, ◌+◌, ◌≤ℤ◌, pos, length, OnOk};
ghost use Rattle.std.specs.Bool.{OnTrue};
ghost use Rattle.dom_model.specs.Draft.{IsFitGoal, IsSmallDeclared};
ghost use Rattle.kind_law.specs.Laws.{AllBelow};

use super::*;
use dom_core::{Arg, NoMemory, Relation, VarId};
use dom_model::{AnyKind, BuildError, Declared, Form, Goal, Model, ModelBuilder};
use kind_law::{Define, Kind};
use kind_linear::{Linear, LinearOutput};
use std::alloc::Global;
use std::process::Abort;
use std::test::Fail;

fn shared<T: Send + Sync>(_: &T) {}

const X: VarId = VarId(0);

const Y: VarId = VarId(1);

const Z: VarId = VarId(2);

const PROFIT: VarId = VarId(3);

const BIT: Declared = Declared::Range { lo: 0, hi: 1 };

const FOUR: Declared = Declared::Range { lo: 0, hi: 3 };

fn are_below(count: usize, vars: &[VarId]) -> bool
    ensures { OnTrue result (AllBelow count vars.now) }
{
    for var in vars {
        if count <= var.0 as usize {
            return false;
        }
    }
    true
}

// Adds a relation over so many variables.
fn post(
    rt: &impl Abort,
    builder: &mut ModelBuilder,
    count: usize,
    relation: Linear,
) -> Result<(), NoMemory>
    requires count { count ≡ length builder.old.variables }
    requires few { length builder.old.constraints < 2147483648 }
    ensures variables { OnOk result (builder.new.variables ≡ builder.old.variables) }
    ensures constraints { OnOk result (length builder.new.constraints ≡ length builder.old.constraints + 1) }
{
    let kind = AnyKind::Linear(relation);
    assert!(rt; are_below(count, kind.vars()));
    builder.constraint(kind, None)
}

// Adds a sum over so many variables, which is to define one of them.
fn define(
    rt: &impl Abort,
    builder: &mut ModelBuilder,
    count: usize,
    sum: LinearOutput,
    var: VarId,
) -> Result<(), NoMemory>
    requires count { count ≡ length builder.old.variables }
    requires few { length builder.old.constraints < 2147483648 }
    ensures variables { OnOk result (builder.new.variables ≡ builder.old.variables) }
    ensures constraints { OnOk result (length builder.new.constraints ≡ length builder.old.constraints + 1) }
{
    let kind = AnyKind::LinearOutput(sum);
    assert!(rt; are_below(count, kind.vars()));
    assert!(rt; (var.0 as usize) < count && kind.is_functional() && kind.output() == var);
    builder.constraint(kind, Some(var))
}

// A model of two variables in 0..3 with that goal, whose sum is at least the bound.
fn sum_at_least(rt: &impl Abort, alloc: Global, bound: i64, goal: Goal) -> Result<Model, BuildError>
    requires goal { IsFitGoal 2 goal }
    requires low { pos 0 ≤ℤ bound }
{
    let mut builder = ModelBuilder::new(alloc);
    builder.variable("x", Form::Int, FOUR)?;
    builder.variable("y", Form::Int, FOUR)?;
    let args = [Arg::Var(X), Arg::Var(Y)];
    let sum = Linear::new(alloc, &[-1, -1], &args, Relation::AtMost, -bound)?;
    post(rt, &mut builder, 2, sum)?;
    builder.goal(goal);
    builder.finish()
}

// Three items of weights 3, 4 and 3, of which those that are taken weigh 6 at most, and their profit.
fn three_items(rt: &impl Abort, alloc: Global, goal: Goal) -> Result<Model, BuildError>
    requires { IsFitGoal 4 goal }
{
    let mut builder = ModelBuilder::new(alloc);
    builder.variable("x", Form::Int, BIT)?;
    builder.variable("y", Form::Int, BIT)?;
    builder.variable("z", Form::Int, BIT)?;
    builder.variable("profit", Form::Int, Declared::Any)?;
    let taken = [Arg::Var(X), Arg::Var(Y), Arg::Var(Z)];
    let weight = Linear::new(alloc, &[3, 4, 3], &taken, Relation::AtMost, 6)?;
    post(rt, &mut builder, 4, weight)?;
    let all = [Arg::Var(X), Arg::Var(Y), Arg::Var(Z), Arg::Var(PROFIT)];
    let equation = Linear::new(alloc, &[5, 4, 5, -1], &all, Relation::Equal, 0)?;
    assert!(rt; equation.can_define(3));
    let profit = LinearOutput::new(alloc, equation, 3)?;
    define(rt, &mut builder, 4, profit, PROFIT)?;
    builder.goal(goal);
    builder.finish()
}

const FIFTY: Declared = Declared::Range { lo: 0, hi: 49 };

const HUNDRED: Declared = Declared::Range { lo: -99, hi: 0 };

const ONE_MORE: Declared = Declared::Range { lo: -100, hi: 0 };

const MOST: Declared = Declared::Range { lo: 1, hi: 4096 };

// Whether a model of three such variables is narrow.
fn is_narrow_over(
    alloc: Global,
    first: Declared,
    second: Declared,
    third: Declared,
) -> Result<bool, BuildError>
    requires first { IsSmallDeclared first }
    requires second { IsSmallDeclared second }
    requires third { IsSmallDeclared third }
{
    let mut builder = ModelBuilder::new(alloc);
    builder.variable("x", Form::Int, first)?;
    builder.variable("y", Form::Int, second)?;
    builder.variable("z", Form::Int, third)?;
    let model = builder.finish()?;
    Ok(is_narrow(&model))
}

// Searches the model, and expects these values or none, after so many nodes.
fn expect_outcome(
    rt: &impl Abort,
    alloc: Global,
    model: &Model,
    values: Option<&[i64]>,
    nodes: u64,
) -> Result<(), Fail> {
    assert!(rt; is_narrow(model));
    let outcome = search(alloc, model)?;
    shared(&outcome);
    match outcome {
        Outcome::Best { best, nodes: tried } => {
            assert_eq!(rt; Some(best.as_slice()), values);
            assert_eq!(rt; tried, nodes);
        }
        Outcome::None { nodes: tried } => {
            assert!(rt; values.is_none());
            assert_eq!(rt; tried, nodes);
        }
    }
    Ok(())
}

#[test]
fn no_variables_have_one_tuple(rt: HostRuntime) -> Result<(), Fail> {
    let alloc = rt.alloc();
    let model = ModelBuilder::new(alloc).finish()?;
    expect_outcome(&rt, alloc, &model, Some(&[]), 1)
}

#[test]
fn a_defined_variable_is_computed(rt: HostRuntime) -> Result<(), Fail> {
    let alloc = rt.alloc();
    for (goal, best) in [
        (Goal::Satisfy, [0, 0, 0, 0]),
        (Goal::Minimize(PROFIT), [0, 0, 0, 0]),
        (Goal::Maximize(PROFIT), [1, 0, 1, 10]),
        (Goal::Maximize(Y), [0, 1, 0, 4]),
    ] {
        let model = three_items(&rt, alloc, goal)?;
        expect_outcome(&rt, alloc, &model, Some(&best), 8)?;
    }
    Ok(())
}

#[test]
fn the_least_has_the_smallest_objective_and_then_the_first_values(
    rt: HostRuntime,
) -> Result<(), Fail> {
    let alloc = rt.alloc();
    for (bound, any, of_first, of_second) in [
        (0, [0, 0], [0, 0], [0, 0]),
        (2, [0, 2], [0, 2], [2, 0]),
        (4, [1, 3], [1, 3], [3, 1]),
        (6, [3, 3], [3, 3], [3, 3]),
    ] {
        assert!(rt; 0 <= bound);
        let model = sum_at_least(&rt, alloc, bound, Goal::Satisfy)?;
        expect_outcome(&rt, alloc, &model, Some(&any), 16)?;
        let model = sum_at_least(&rt, alloc, bound, Goal::Minimize(X))?;
        expect_outcome(&rt, alloc, &model, Some(&of_first), 16)?;
        let model = sum_at_least(&rt, alloc, bound, Goal::Minimize(Y))?;
        expect_outcome(&rt, alloc, &model, Some(&of_second), 16)?;
    }
    let model = sum_at_least(&rt, alloc, 7, Goal::Satisfy)?;
    expect_outcome(&rt, alloc, &model, None, 16)
}

#[test]
fn a_width_of_a_million_is_narrow(rt: HostRuntime) -> Result<(), Fail> {
    let alloc = rt.alloc();
    assert!(rt; is_narrow_over(alloc, FIFTY, FIFTY, HUNDRED)?);
    assert!(rt; !is_narrow_over(alloc, FIFTY, FIFTY, ONE_MORE)?);
    assert!(rt; !is_narrow_over(alloc, ONE_MORE, FIFTY, FIFTY)?);
    assert!(rt; !is_narrow_over(alloc, MOST, MOST, MOST)?);
    Ok(())
}
