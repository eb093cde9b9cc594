ghost use Rattle.std.specs.Prelude.{◌≡◌, ◌<◌, ◌≤◌, OnOk, length};
ghost use Rattle.dom_cells.specs.Box.{cell_of};
ghost use Rattle.kind_law.specs.Laws.{AllBelow, hulls};

use super::*;
use dom_cells::{Cells, Narrowed, Start};
use dom_core::{Arg, Clause, Domain, Literal, Rel, Relation, VarId};
use kind_law::{Kind, Propagate};
use std::test::Fail;

const X: VarId = VarId(0);

const Y: VarId = VarId(1);

const B: VarId = VarId(2);

fn at_least(var: VarId, value: i64) -> Literal {
    let rel = Rel::Ge;
    Literal { var, rel, value }
}

fn at_most(var: VarId, value: i64) -> Literal {
    let rel = Rel::Le;
    Literal { var, rel, value }
}

/// Cuts the variable's cell at both ends.
fn put_between(cells: &mut Cells, var: VarId, lo: i64, hi: i64) -> Result<(), Fail>
    requires { var.0 < length cells.old.state.starts }
    ensures { OnOk result (cells.new.state.starts ≡ cells.old.state.starts) }
{
    let low = Literal {
        var,
        rel: Rel::Ge,
        value: lo,
    };
    let high = Literal {
        var,
        rel: Rel::Le,
        value: hi,
    };
    cells.reserve(2)?;
    if cells.narrow(low) == Narrowed::Emptied {
        return Err("no value is so high".into());
    }
    cells.reserve(1)?;
    if cells.narrow(high) == Narrowed::Emptied {
        return Err("no value is so low".into());
    }
    Ok(())
}

/// Why the kind is refuted, or why the end is implied that it implies first.
fn why<K: Propagate>(kind: &K, cells: &Cells, out: &mut Clause) -> Result<(), Fail>
    requires below { AllBelow (length cells.now.state.starts) (K.vars kind.now) }
    requires fits { K.fits kind.now (hulls (cell_of cells.now.state)) }
{
    let _width = cells.width();
    if kind.refutes(cells) {
        kind.reason(cells, None, out)?;
        return Ok(());
    }
    match kind.next(cells) {
        None => Err("nothing is refuted or implied".into()),
        Some(end) => {
            kind.reason(cells, Some(end), out)?;
            Ok(())
        }
    }
}

/// The reason of a relation of x, times `a`, and y, times `b`.
fn told_over(
    rt: &HostRuntime,
    a: i8,
    b: i8,
    relation: Relation,
    bound: i64,
    cells: &Cells,
) -> Result<Clause, Fail>
    requires { 2 ≤ length cells.now.state.starts }
{
    let _ends = (cells.lo(X), cells.hi(X), cells.lo(Y), cells.hi(Y));
    let coefs = [a as i64, b as i64];
    let args = [Arg::Var(X), Arg::Var(Y)];
    let kind = Linear::new(rt.alloc(), &coefs, &args, relation, bound)?;
    let mut out = Clause::new(rt.alloc());
    why(&kind, cells, &mut out)?;
    Ok(out)
}

/// The reason of a relation of x, times `a`, and y, times `b`, which were 0 to 9 each.
fn told(
    rt: &HostRuntime,
    a: i8,
    b: i8,
    relation: Relation,
    bound: i64,
    x: (i64, i64),
    y: (i64, i64),
) -> Result<Clause, Fail> {
    let starts = [Start::Span { lo: 0, hi: 9 }, Start::Span { lo: 0, hi: 9 }];
    let mut cells = Cells::new(rt.alloc(), &starts)?;
    put_between(&mut cells, X, x.0, x.1)?;
    put_between(&mut cells, Y, y.0, y.1)?;
    told_over(rt, a, b, relation, bound, &cells)
}

#[test]
fn a_reason_tells_the_ends_that_the_sum_needs_but_for_its_slack(
    rt: HostRuntime,
) -> Result<(), Fail> {
    let out = told(&rt, 1, 1, Relation::AtMost, 5, (4, 8), (2, 7))?;
    assert_eq!(rt; out.literals(), [at_most(X, 3), at_most(Y, 1)].as_slice());
    let out = told(&rt, 1, -1, Relation::AtMost, -5, (1, 8), (2, 5))?;
    assert_eq!(rt; out.literals(), [at_most(X, 0), at_least(Y, 6)].as_slice());
    let out = told(&rt, 1, 3, Relation::AtMost, 5, (1, 9), (2, 9))?;
    assert_eq!(rt; out.literals(), [at_most(Y, 1)].as_slice());
    let out = told(&rt, 1, -2, Relation::Equal, 9, (0, 8), (1, 9))?;
    assert_eq!(rt; out.literals(), [at_most(Y, 0)].as_slice());
    let out = told(&rt, 2, 3, Relation::AtMost, 20, (0, 9), (4, 8))?;
    assert_eq!(rt; out.literals(), [at_most(Y, 3), at_most(X, 4)].as_slice());
    let out = told(&rt, 1, 1, Relation::Equal, 12, (0, 9), (0, 7))?;
    assert_eq!(rt; out.literals(), [at_least(Y, 8), at_least(X, 5)].as_slice());
    let out = told(&rt, 1, 1, Relation::Differ, 5, (3, 3), (2, 2))?;
    let all = [at_most(X, 2), at_least(X, 4), at_most(Y, 1), at_least(Y, 3)];
    assert_eq!(rt; out.literals(), all.as_slice());
    Ok(())
}

#[test]
fn a_hole_beside_the_implied_end_is_told(rt: HostRuntime) -> Result<(), Fail> {
    let domain = Domain::from_values(rt.alloc(), [-2, 1, 3].as_slice())
        .ok()
        .ok_or("no domain")?;
    let starts = [Start::Values(domain), Start::Span { lo: 0, hi: 9 }];
    let mut cells = Cells::new(rt.alloc(), &starts)?;
    cells.reserve(1)?;
    let gone = Literal {
        var: X,
        rel: Rel::Ne,
        value: 1,
    };
    if cells.narrow(gone) != Narrowed::Changed {
        return Err("a value was not taken out".into());
    }
    let out = told_over(&rt, -2, 0, Relation::AtMost, -2, &cells)?;
    let hole = Literal {
        var: X,
        rel: Rel::Eq,
        value: 1,
    };
    assert_eq!(rt; out.literals(), [hole, at_least(X, 3)].as_slice());
    Ok(())
}

#[test]
fn an_equation_that_defines_implies_and_tells(rt: HostRuntime) -> Result<(), Fail> {
    let starts = [
        Start::Span { lo: 0, hi: 1 },
        Start::Span { lo: 0, hi: 1 },
        Start::Span { lo: 0, hi: 9 },
    ];
    let cells = Cells::new(rt.alloc(), &starts)?;
    let args = [Arg::Var(X), Arg::Var(Y), Arg::Var(B)];
    let linear = Linear::new(rt.alloc(), &[3, 2, -1], &args, Relation::Equal, 4)?;
    if !linear.can_define(2) {
        return Err("the coefficient -1 was refused".into());
    }
    let kind = LinearOutput::new(rt.alloc(), linear, 2)?;
    let mut out = Clause::new(rt.alloc());
    why(&kind, &cells, &mut out)?;
    assert_eq!(rt; out.literals(), [at_least(X, 1)].as_slice());
    Ok(())
}
