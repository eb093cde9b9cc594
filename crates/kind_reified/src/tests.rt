ghost use Rattle.std.specs.Prelude.{length};
ghost use Rattle.dom_cells.specs.Box.{cell_of};
ghost use Rattle.dom_cells.specs.Cell.{IsInOrder};
ghost use Rattle.kind_law.specs.Laws.{AllBelow, hulls};
ghost use Rattle.kind_sum.specs.SumRelation.{SumFits};
ghost use Rattle.kind_reified.specs.LinearReified.{reified_vars};

use super::*;
use dom_cells::{Cells, Start};
use dom_core::{Arg, Assignment, Literal, Rel, Relation, VarId};
use kind_law::{Kind, Propagate};
use std::test::Fail;

fn shared<T: Send + Sync>(_: &T) {}

const X: VarId = VarId(0);

const Y: VarId = VarId(1);

const Z: VarId = VarId(2);

/// The end that a truth implies over cells that aren't given up.
fn next_of_open(kind: &LinearReified, cells: &Cells) -> Result<Option<Literal>, Fail>
    requires below { AllBelow (length cells.now.state.starts) (reified_vars kind.now) }
    requires fits { SumFits kind.now.sum (hulls (cell_of cells.now.state)) }
{
    if kind.refutes(cells) {
        return Err("a box with solutions was given up".into());
    }
    Ok(kind.next(cells))
}

/// The end that is implied where z is the truth of 2 x + 3 y, compared with the bound, x is 0 or 1, y is at most 9, and
/// z is this truth or still open.
fn implied(
    rt: &HostRuntime,
    relation: Relation,
    bound: i64,
    truth: Option<bool>,
) -> Result<Option<Literal>, Fail> {
    let starts = [
        Start::Span { lo: 0, hi: 1 },
        Start::Span { lo: 0, hi: 9 },
        output_start(truth),
    ];
    let cells = Cells::new(rt.alloc(), &starts)?;
    let args = [Arg::Var(X), Arg::Var(Y)];
    let kind = LinearReified::new(rt.alloc(), &[2, 3], &args, relation, bound, Arg::Var(Z))?;
    next_of_open(&kind, &cells)
}

/// The values of the output.
fn output_start(truth: Option<bool>) -> Start
    ensures { IsInOrder result }
{
    match truth {
        None => Start::Span { lo: 0, hi: 1 },
        Some(true) => Start::Span { lo: 1, hi: 1 },
        Some(false) => Start::Span { lo: 0, hi: 0 },
    }
}

fn at_least(var: VarId, value: i64) -> Option<Literal> {
    let rel = Rel::Ge;
    Some(Literal { var, rel, value })
}

fn at_most(var: VarId, value: i64) -> Option<Literal> {
    let rel = Rel::Le;
    Some(Literal { var, rel, value })
}

#[test]
fn a_truth_follows_its_sum_and_implies_ends_once_it_is_given(rt: HostRuntime) -> Result<(), Fail> {
    for (truth, relation, bound, end) in [
        (None, Relation::AtMost, 28, None),
        (None, Relation::AtMost, 29, at_least(Z, 1)),
        (None, Relation::AtMost, 0, None),
        (None, Relation::AtMost, -1, at_most(Z, 0)),
        (None, Relation::Equal, 29, None),
        (None, Relation::Equal, 30, at_most(Z, 0)),
        (None, Relation::Differ, 0, None),
        (None, Relation::Differ, -1, at_least(Z, 1)),
        (Some(true), Relation::AtMost, 29, None),
        (Some(true), Relation::AtMost, 26, at_most(Y, 8)),
        (Some(true), Relation::AtMost, 7, at_most(Y, 2)),
        (Some(true), Relation::AtMost, 1, at_most(X, 0)),
        (Some(true), Relation::Equal, 29, at_least(X, 1)),
        (Some(true), Relation::Equal, 7, at_least(Y, 2)),
        (Some(true), Relation::Differ, 7, None),
        (Some(false), Relation::AtMost, 1, None),
        (Some(false), Relation::AtMost, 7, at_least(Y, 2)),
        (Some(false), Relation::AtMost, 26, at_least(Y, 9)),
        (Some(false), Relation::AtMost, 28, at_least(X, 1)),
        (Some(false), Relation::Equal, 7, None),
        (Some(false), Relation::Differ, 7, at_least(Y, 2)),
        (Some(false), Relation::Differ, 0, at_most(X, 0)),
    ] {
        let found = implied(&rt, relation, bound, truth)?;
        assert_eq!(rt; found, end, "{relation:?} {bound}");
    }
    Ok(())
}

#[test]
fn an_output_may_be_a_constant_or_a_variable_of_the_sum(rt: HostRuntime) -> Result<(), Fail> {
    let starts = [Start::Span { lo: 0, hi: 1 }, Start::Span { lo: 0, hi: 9 }];
    let cells = Cells::new(rt.alloc(), &starts)?;
    let args = [Arg::Var(X), Arg::Var(Y)];
    for (output, end) in [
        (Arg::Const(1), at_most(Y, 2)),
        (Arg::Const(0), at_least(Y, 2)),
        (Arg::Var(X), None),
        (Arg::Var(Y), at_least(Y, 1)),
    ] {
        let kind = LinearReified::new(rt.alloc(), &[2, 3], &args, Relation::AtMost, 7, output)?;
        let found = next_of_open(&kind, &cells)?;
        assert_eq!(rt; found, end, "{output:?}");
    }
    Ok(())
}

#[test]
fn a_truth_is_met_where_its_relation_holds(rt: HostRuntime) -> Result<(), Fail> {
    let args = [Arg::Var(X), Arg::Var(Y)];
    let mut a = Assignment::zeros(rt.alloc(), 3)?;
    a.set(X, 1);
    a.set(Y, 2);
    a.set(Z, 1);
    for (relation, bound, met) in [
        (Relation::AtMost, 8, true),
        (Relation::AtMost, 7, false),
        (Relation::Equal, 8, true),
        (Relation::Equal, 7, false),
        (Relation::Differ, 8, false),
        (Relation::Differ, 7, true),
    ] {
        let kind = LinearReified::new(rt.alloc(), &[2, 3], &args, relation, bound, Arg::Var(Z))?;
        assert_eq!(rt; kind.holds(&a), met, "{relation:?} {bound}");
        assert_eq!(rt; kind.vars(), [X, Y, Z].as_slice());
        assert!(rt; !kind.is_inside(Z));
        shared(&kind);
    }
    Ok(())
}

#[test]
fn a_truth_that_is_certain_is_not_0(rt: HostRuntime) -> Result<(), Fail> {
    let args = [Arg::Var(X), Arg::Var(Y)];
    let starts = [
        Start::Span { lo: 0, hi: 1 },
        Start::Span { lo: 0, hi: 1 },
        Start::Span { lo: 0, hi: 0 },
    ];
    let cells = Cells::new(rt.alloc(), &starts)?;
    for (bound, refuted) in [(5, true), (4, false)] {
        let kind = LinearReified::new(
            rt.alloc(),
            &[2, 3],
            &args,
            Relation::AtMost,
            bound,
            Arg::Var(Z),
        )?;
        assert_eq!(rt; kind.refutes(&cells), refuted, "at most {bound}");
    }
    Ok(())
}
