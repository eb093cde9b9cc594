ghost use Rattle.std.specs.Prelude.{◌≡◌, ◌<◌, ◌≤◌, OnOk, length};
ghost use Rattle.dom_cells.specs.Box.{cell_of};
ghost use Rattle.kind_law.specs.Laws.{AllBelow, hulls};

use super::*;
use dom_cells::{Cells, Narrowed, Start};
use dom_core::{Arg, Clause, Literal, Rel, Relation, VarId};
use kind_law::{Kind, Propagate};
use std::test::Fail;

const X: VarId = VarId(0);

const Y: VarId = VarId(1);

const B: VarId = VarId(2);

fn at_least(var: VarId, value: i64) -> Literal {
    let rel = Rel::Ge;
    Literal { var, rel, value }
}

fn at_most(var: VarId, value: i64) -> Literal {
    let rel = Rel::Le;
    Literal { var, rel, value }
}

/// Cuts the variable's cell at both ends.
fn put_between(cells: &mut Cells, var: VarId, lo: i64, hi: i64) -> Result<(), Fail>
    requires { var.0 < length cells.old.state.starts }
    ensures { OnOk result (cells.new.state.starts ≡ cells.old.state.starts) }
{
    let low = Literal {
        var,
        rel: Rel::Ge,
        value: lo,
    };
    let high = Literal {
        var,
        rel: Rel::Le,
        value: hi,
    };
    cells.reserve(2)?;
    if cells.narrow(low) == Narrowed::Emptied {
        return Err("no value is so high".into());
    }
    cells.reserve(1)?;
    if cells.narrow(high) == Narrowed::Emptied {
        return Err("no value is so low".into());
    }
    Ok(())
}

/// Why the kind is refuted, or why the end is implied that it implies first.
fn why<K: Propagate>(kind: &K, cells: &Cells, out: &mut Clause) -> Result<(), Fail>
    requires below { AllBelow (length cells.now.state.starts) (K.vars kind.now) }
    requires fits { K.fits kind.now (hulls (cell_of cells.now.state)) }
{
    let _width = cells.width();
    if kind.refutes(cells) {
        kind.reason(cells, None, out)?;
        return Ok(());
    }
    match kind.next(cells) {
        None => Err("nothing is refuted or implied".into()),
        Some(end) => {
            kind.reason(cells, Some(end), out)?;
            Ok(())
        }
    }
}

/// The reason of the truth b of a relation of x, times `one`, and y, times `other`.
fn truth_told_over(
    rt: &HostRuntime,
    one: i8,
    other: i8,
    relation: Relation,
    bound: i64,
    cells: &Cells,
) -> Result<Clause, Fail>
    requires { 3 ≤ length cells.now.state.starts }
{
    let _ends = (cells.lo(X), cells.hi(X), cells.lo(Y), cells.hi(Y));
    let coefs = [one as i64, other as i64];
    let args = [Arg::Var(X), Arg::Var(Y)];
    let kind = LinearReified::new(rt.alloc(), &coefs, &args, relation, bound, Arg::Var(B))?;
    let mut out = Clause::new(rt.alloc());
    why(&kind, cells, &mut out)?;
    Ok(out)
}

/// The reason of the truth b of a relation of x and y, which were 0 to 9 each.
fn truth_told(
    rt: &HostRuntime,
    relation: Relation,
    bound: i64,
    x: (i64, i64),
    y: (i64, i64),
    truth: (i64, i64),
) -> Result<Clause, Fail> {
    let starts = [
        Start::Span { lo: 0, hi: 9 },
        Start::Span { lo: 0, hi: 9 },
        Start::Span { lo: 0, hi: 1 },
    ];
    let mut cells = Cells::new(rt.alloc(), &starts)?;
    put_between(&mut cells, X, x.0, x.1)?;
    put_between(&mut cells, Y, y.0, y.1)?;
    put_between(&mut cells, B, truth.0, truth.1)?;
    truth_told_over(rt, 1, 1, relation, bound, &cells)
}

#[test]
fn a_truth_is_told_by_one_end_of_each(rt: HostRuntime) -> Result<(), Fail> {
    let out = truth_told(&rt, Relation::AtMost, 3, (0, 1), (0, 1), (0, 0))?;
    let all = [at_least(B, 1), at_least(X, 2), at_least(Y, 2)];
    assert_eq!(rt; out.literals(), all.as_slice());
    let out = truth_told(&rt, Relation::AtMost, 3, (3, 9), (2, 9), (1, 1))?;
    let all = [at_most(B, 0), at_most(X, 2), at_most(Y, 1)];
    assert_eq!(rt; out.literals(), all.as_slice());
    let out = truth_told(&rt, Relation::Differ, 3, (4, 9), (0, 9), (0, 1))?;
    assert_eq!(rt; out.literals(), [at_most(X, 3), at_least(B, 1)].as_slice());
    Ok(())
}
