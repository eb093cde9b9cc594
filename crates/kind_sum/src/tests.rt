ghost use Rattle.std.specs.Prelude.{length};
ghost use Rattle.dom_cells.specs.Box.{cell_of};
ghost use Rattle.kind_law.specs.Laws.{AllBelow, hulls};
ghost use Rattle.kind_sum.specs.SumRelation.{sum_vars, SumFits};

use super::*;
use dom_cells::{Cells, Start};
use dom_core::{
    After, Arg, Assignment, Clause, Domain, Interval, Literal, Rel, Relation, VarId, View,
};
use kind_law::{Kind, Propagate, Reading, Scratch, Visited, are_still, change_by};
use std::test::Fail;

const X: VarId = VarId(0);

const Y: VarId = VarId(1);

/// How many ends a visit tells of a box that isn't given up, and the first end.
fn told(
    rt: &HostRuntime,
    kind: &SumRelation,
    cells: &Cells,
) -> Result<(Option<Literal>, usize), Fail>
    requires below { AllBelow (length cells.now.state.starts) (sum_vars kind.now) }
    requires fits { SumFits kind.now (hulls (cell_of cells.now.state)) }
{
    let mut ends = Clause::new(rt.alloc());
    let mut scratch = Scratch::new(rt.alloc());
    let visited = kind.visit(cells, &mut scratch, &mut ends)?;
    if kind.refutes(cells) || visited == Visited::Refuted {
        return Err("a box with solutions was given up".into());
    }
    Ok((kind.next(cells), ends.len()))
}

/// What is told of the sum of x, times `a`, and y, times `b`, where x is 0, 3, 4 or 9, and y is 0 or 1.
fn implied(
    rt: &HostRuntime,
    a: i8,
    b: i8,
    relation: Relation,
    bound: i64,
) -> Result<(Option<Literal>, usize), Fail> {
    let domain = Domain::from_values(rt.alloc(), [0, 3, 4, 9].as_slice())
        .ok()
        .ok_or("no domain")?;
    let starts = [Start::Values(domain), Start::Span { lo: 0, hi: 1 }];
    let cells = Cells::new(rt.alloc(), &starts)?;
    let _ends = (cells.lo(X), cells.hi(X), cells.lo(Y), cells.hi(Y));
    let coefs = [a as i64, b as i64];
    let args = [Arg::Var(X), Arg::Var(Y)];
    let kind = SumRelation::new(rt.alloc(), &coefs, &args, relation, bound)?;
    told(rt, &kind, &cells)
}

fn at_least(var: VarId, value: i64) -> Option<Literal> {
    let rel = Rel::Ge;
    Some(Literal { var, rel, value })
}

fn at_most(var: VarId, value: i64) -> Option<Literal> {
    let rel = Rel::Le;
    Some(Literal { var, rel, value })
}

#[test]
fn a_sum_implies_the_nearest_value_that_its_bound_leaves(rt: HostRuntime) -> Result<(), Fail> {
    for (relation, a, b, bound, end, count) in [
        (Relation::AtMost, 2, 3, 18, None, 0),
        (Relation::AtMost, 2, 3, 17, at_most(X, 4), 1),
        (Relation::AtMost, 2, 3, 8, at_most(X, 4), 1),
        (Relation::AtMost, 2, 3, 7, at_most(X, 3), 1),
        (Relation::AtMost, 2, 3, 5, at_most(X, 0), 1),
        (Relation::AtMost, 1, 20, 19, at_most(Y, 0), 1),
        (Relation::AtMost, -2, 3, 0, None, 0),
        (Relation::AtMost, -2, 3, -1, at_least(X, 3), 1),
        (Relation::AtMost, -2, 3, -6, at_least(X, 3), 1),
        (Relation::AtMost, -2, 3, -7, at_least(X, 4), 1),
        (Relation::AtMost, -2, 3, -18, at_least(X, 9), 2),
        (Relation::AtMost, 1, -20, -1, at_least(Y, 1), 1),
        (Relation::Equal, 2, 3, 9, at_least(X, 3), 1),
        (Relation::Equal, 2, 3, 3, at_most(X, 0), 1),
        (Relation::Equal, -2, 3, -7, at_least(X, 4), 1),
        (Relation::Equal, -2, 3, 3, at_most(X, 0), 2),
        (Relation::Equal, 1, 20, 9, at_most(Y, 0), 1),
        (Relation::Equal, 1, 20, 20, at_least(Y, 1), 1),
        (Relation::Equal, 1, 9, 9, None, 0),
        (Relation::Differ, 2, 0, 0, at_least(X, 3), 1),
        (Relation::Differ, 2, 0, 18, at_most(X, 4), 1),
        (Relation::Differ, 2, 0, 6, None, 0),
        (Relation::Differ, -2, 0, 0, at_least(X, 3), 1),
        (Relation::Differ, -2, 0, -18, at_most(X, 4), 1),
        (Relation::Differ, 2, 3, 0, None, 0),
        (Relation::Differ, 0, 1, 0, at_least(Y, 1), 1),
        (Relation::Differ, 0, 1, 1, at_most(Y, 0), 1),
    ] {
        let found = implied(&rt, a, b, relation, bound)?;
        assert_eq!(rt; found, (end, count), "{a} x + {b} y {relation:?} {bound}");
    }
    Ok(())
}

#[test]
fn a_sum_is_compared_with_its_bound(rt: HostRuntime) -> Result<(), Fail> {
    let mut a = Assignment::zeros(rt.alloc(), 2)?;
    a.set(X, 1);
    a.set(Y, 2);
    for (relation, bound, met) in [
        (Relation::AtMost, 7, true),
        (Relation::AtMost, 6, false),
        (Relation::Equal, 7, true),
        (Relation::Equal, 8, false),
        (Relation::Differ, 7, false),
        (Relation::Differ, 8, true),
    ] {
        let args = [Arg::Var(X), Arg::Var(Y), Arg::Const(1)];
        let kind = SumRelation::new(rt.alloc(), &[2, 3, -1], &args, relation, bound)?;
        assert_eq!(rt; kind.vars(), [X, Y].as_slice());
        assert!(rt; kind.is_single() && !kind.is_inside(X));
        assert_eq!(rt; kind.holds(&a), met, "{relation:?} {bound}");
    }
    Ok(())
}

#[test]
fn a_view_that_lets_the_sum_fall_keeps_a_bound_alone(rt: HostRuntime) -> Result<(), Fail> {
    let args = [Arg::Var(X), Arg::Var(Y), Arg::Const(1)];
    let (bit, falls) = (Interval::new(0, 1), Interval::new(-1, -1));
    for (relation, kept) in [
        (Relation::AtMost, true),
        (Relation::Equal, false),
        (Relation::Differ, false),
    ] {
        let mut view = View::for_vars(rt.alloc(), 2)?;
        let kind = SumRelation::new(rt.alloc(), &[2, 3, -1], &args, relation, -3)?;
        assert!(rt; are_still(kind.vars(), &view) && !kind.is_too_wide(&After(&view)));
        assert_eq!(rt;
            kind.total(Reading::Values, &After(&view)),
            Interval::new(-1, -1)
        );
        assert!(rt; kind.keeps(&view), "{relation:?}");
        view.set(X, bit, Interval::new(-1, 0), falls);
        assert!(rt; !are_still(kind.vars(), &view));
        assert_eq!(rt; kind.keeps(&view), kept, "{relation:?}");
    }
    let (before, after) = (Interval::new(0, 2), Interval::new(1, 5));
    let (row, wide) = (Interval::new(-1, 4), Interval::new(-1, 5));
    assert_eq!(rt; change_by(row, before, after), row);
    assert_eq!(rt; change_by(Interval::new(9, 9), before, after), wide);
    Ok(())
}
