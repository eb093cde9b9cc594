ghost use Rattle.std.specs.Prelude.{◌≡◌, ◌<◌, IfOk, OnOk, length, false, true, ℕ};
ghost use Rattle.dom_cells.specs.Box.{cell_of};
ghost use Rattle.dom_core.specs.Ends.{Ends};
ghost use Rattle.dom_core.specs.Literal.{is_end};
ghost use Rattle.dom_core.specs.View.{movement_at};
ghost use Rattle.kind_law.specs.Laws.{AllBelow, IsTrueChange, hulls};
ghost use Rattle.kind_truths.specs.Operand.{operand_vars};
ghost use Rattle.kind_truths.specs.Connective.{connective_vars};
ghost use Rattle.kind_bool.specs.Xor.{xor_vars};

use super::*;
use dom_cells::{Cells, Start};
use dom_core::{Arg, Assignment, Before, Clause, Interval, Literal, Movement, Rel, VarId, View};
use kind_law::{Define, Kind, Propagate, Scratch, Visited};
use std::test::Fail;

const X: VarId = VarId(0);

const Y: VarId = VarId(1);

const Z: VarId = VarId(2);

/// What a kind says of a box: that it gives it up, by a reason of so many literals; or how many ends it implies, the
/// first of them, and how long the reason of that one is.
#[derive(Debug, PartialEq, Drop)]
enum Answer {
    Refuted(usize),
    Ends(usize, Option<Literal>, usize),
}

/// What the kind says of the box.
fn answer_of<K: Propagate>(rt: &HostRuntime, kind: &K, cells: &Cells) -> Result<Answer, Fail>
    requires below { AllBelow (length cells.now.state.starts) (K.vars kind.now) }
    requires fits { K.fits kind.now (hulls (cell_of cells.now.state)) }
{
    let mut out = Clause::new(rt.alloc());
    let mut scratch = Scratch::new(rt.alloc());
    let visited = kind.visit(cells, &mut scratch, &mut out)?;
    let ends = out.len();
    let refutes = kind.refutes(cells);
    if refutes != (visited == Visited::Refuted) {
        return Err("a visit and the test of the box differ".into());
    }
    if refutes {
        kind.reason(cells, None, &mut out)?;
        return Ok(Answer::Refuted(out.len()));
    }
    let next = explained(kind, cells, &mut out)?;
    Ok(Answer::Ends(ends, next, out.len()))
}

/// The first end that is implied, with its reason in `out`, which is empty where there is none.
fn explained<K: Propagate>(
    kind: &K,
    cells: &Cells,
    out: &mut Clause,
) -> Result<Option<Literal>, Fail>
    requires below { AllBelow (length cells.now.state.starts) (K.vars kind.now) }
    requires fits { K.fits kind.now (hulls (cell_of cells.now.state)) }
    requires quiet { K.refuted kind.now (cell_of cells.now.state) ≡ false }
{
    let _width = cells.width();
    out.clear();
    let implied = kind.next(cells);
    if let Some(literal) = implied {
        kind.reason(cells, Some(literal), out)?;
    }
    Ok(implied)
}

/// Three open truths.
fn open_truths(rt: &HostRuntime) -> Result<Cells, Fail>
    ensures { IfOk result (λ c. length c.state.starts ≡ 3) }
{
    let starts = [
        Start::Span { lo: 0, hi: 1 },
        Start::Span { lo: 0, hi: 1 },
        Start::Span { lo: 0, hi: 1 },
    ];
    Ok(Cells::new(rt.alloc(), &starts)?)
}

/// The three truths, of which some are given.
fn truths(
    rt: &HostRuntime,
    x: Option<bool>,
    y: Option<bool>,
    z: Option<bool>,
) -> Result<Cells, Fail>
    ensures { IfOk result (λ c. length c.state.starts ≡ 3) }
{
    let mut cells = open_truths(rt)?;
    decide(&mut cells, X, x)?;
    decide(&mut cells, Y, y)?;
    decide(&mut cells, Z, z)?;
    Ok(cells)
}

/// Cuts the cell of the variable to the truth, where one is given.
#[tactic(auto, using(dom_cells::proofs::KeptLaws::suits_end))]
fn decide(cells: &mut Cells, var: VarId, truth: Option<bool>) -> Result<(), Fail>
    requires { var.0 < length cells.old.state.starts }
    ensures { OnOk result (cells.new.state.starts ≡ cells.old.state.starts) }
{
    let Some(value) = truth else {
        return Ok(());
    };
    cells.reserve(1)?;
    let _what = cells.narrow(literal(var, value));
    Ok(())
}

/// The variable is true, or is false.
fn literal(var: VarId, truth: bool) -> Literal
    ensures var { result.var ≡ var }
    ensures end { is_end result.rel ≡ true }
{
    if truth {
        return Literal {
            var,
            rel: Rel::Ge,
            value: 1,
        };
    }
    Literal {
        var,
        rel: Rel::Le,
        value: 0,
    }
}

/// One end, of this variable, by a reason of so many literals.
fn one(var: VarId, truth: bool, reason: usize) -> Answer {
    Answer::Ends(1, Some(literal(var, truth)), reason)
}

/// Several ends.
fn some(count: usize, var: VarId, truth: bool, reason: usize) -> Answer {
    Answer::Ends(count, Some(literal(var, truth)), reason)
}

const NONE: Answer = Answer::Ends(0, None, 0);

/// x or not y.
fn clause(rt: &HostRuntime) -> Result<BoolClause, Fail>
    ensures { IfOk result (λ k. AllBelow 3 (operand_vars k)) }
{
    Ok(BoolClause::new(rt.alloc(), &[Arg::Var(X)], &[Arg::Var(Y)])?)
}

/// z is x and y.
fn both(rt: &HostRuntime) -> Result<And, Fail>
    ensures { IfOk result (λ k. AllBelow 3 (connective_vars k)) }
{
    Ok(And::new(rt.alloc(), &[Arg::Var(X), Arg::Var(Y)], Arg::Var(Z))?)
}

/// z is x or y.
fn either(rt: &HostRuntime) -> Result<Or, Fail>
    ensures { IfOk result (λ k. AllBelow 3 (connective_vars k)) }
{
    Ok(Or::new(rt.alloc(), &[Arg::Var(X), Arg::Var(Y)], Arg::Var(Z))?)
}

/// z is the truth of x or not y.
fn reified(rt: &HostRuntime) -> Result<BoolClauseReified, Fail>
    ensures { IfOk result (λ k. AllBelow 3 (connective_vars k)) }
{
    Ok(BoolClauseReified::new(rt.alloc(), &[Arg::Var(X)], &[Arg::Var(Y)], Arg::Var(Z))?)
}

/// z is whether x and y differ.
fn other(rt: &HostRuntime) -> Result<Xor, Fail>
    ensures { IfOk result (λ k. AllBelow 3 (xor_vars k)) }
{
    Ok(Xor::new(rt.alloc(), Arg::Var(X), Arg::Var(Y), Arg::Var(Z))?)
}

/// What is known of three truths, and what a kind says of them.
#[derive(Debug, Drop)]
struct Row {
    x: Option<bool>,
    y: Option<bool>,
    z: Option<bool>,
    wanted: Answer,
}

/// The truths are false, true, or, by a `?`, open.
fn known(truths: [Option<bool>; 3], wanted: Answer) -> Row {
    let [x, y, z] = truths;
    Row { x, y, z, wanted }
}

/// The place of the first row of which the kind says something else.
fn told_otherwise<K: Propagate + Send + Sync>(
    rt: &HostRuntime,
    kind: &K,
    rows: &[Row],
) -> Result<Option<usize>, Fail>
    requires below { AllBelow 3 (K.vars kind.now) }
    requires fits { (s : ℕ → Ends) → K.fits kind.now s }
{
    for (place, row) in rows.iter().enumerate() {
        let cells = truths(rt, row.x, row.y, row.z)?;
        let told = answer_of(rt, kind, &cells)?;
        if told != row.wanted {
            return Ok(Some(place));
        }
    }
    Ok(None)
}

/// Whether the kind holds at the eight assignments of truths in order.
fn truth_table<K: Kind>(rt: &HostRuntime, kind: &K) -> Result<[bool; 8], Fail>
    requires below { AllBelow 3 (K.vars kind.now) }
    requires fits { (s : ℕ → Ends) → K.fits kind.now s }
{
    Ok([
        holds_at(rt, kind, 0, 0, 0)?,
        holds_at(rt, kind, 0, 0, 1)?,
        holds_at(rt, kind, 0, 1, 0)?,
        holds_at(rt, kind, 0, 1, 1)?,
        holds_at(rt, kind, 1, 0, 0)?,
        holds_at(rt, kind, 1, 0, 1)?,
        holds_at(rt, kind, 1, 1, 0)?,
        holds_at(rt, kind, 1, 1, 1)?,
    ])
}

/// Whether the kind holds at the assignment of these values.
fn holds_at<K: Kind>(rt: &HostRuntime, kind: &K, x: i64, y: i64, z: i64) -> Result<bool, Fail>
    requires below { AllBelow 3 (K.vars kind.now) }
    requires fits { (s : ℕ → Ends) → K.fits kind.now s }
{
    let a = assigned(rt, x, y, z)?;
    Ok(kind.holds(&a))
}

/// The assignment of these values.
fn assigned(rt: &HostRuntime, x: i64, y: i64, z: i64) -> Result<Assignment, Fail>
    ensures { IfOk result (λ a. length a ≡ 3) }
{
    let mut a = Assignment::zeros(rt.alloc(), 3)?;
    a.set(X, x);
    a.set(Y, y);
    a.set(Z, z);
    Ok(a)
}

const NO: Option<bool> = Some(false);

const YES: Option<bool> = Some(true);

/// Boxes of x or not y.
fn clause_rows() -> [Row; 6] {
    [
        known([None, None, None], NONE),
        known([None, YES, None], one(X, true, 2)),
        known([NO, None, None], one(Y, false, 2)),
        known([NO, YES, None], Answer::Refuted(2)),
        known([YES, None, None], NONE),
        known([None, NO, None], NONE),
    ]
}

/// Boxes of z = x and y.
fn and_rows() -> [Row; 10] {
    [
        known([None, None, YES], some(2, X, true, 2)),
        known([None, NO, None], one(Z, false, 2)),
        known([None, NO, YES], Answer::Refuted(2)),
        known([None, YES, NO], one(X, false, 3)),
        known([NO, None, NO], NONE),
        known([YES, None, YES], one(Y, true, 2)),
        known([YES, YES, None], one(Z, true, 3)),
        known([YES, YES, NO], Answer::Refuted(3)),
        known([None, YES, None], NONE),
        known([None, None, NO], NONE),
    ]
}

/// Boxes of z = x or y.
fn or_rows() -> [Row; 10] {
    [
        known([None, None, NO], some(2, X, false, 2)),
        known([None, NO, YES], one(X, true, 3)),
        known([None, YES, None], one(Z, true, 2)),
        known([None, YES, NO], Answer::Refuted(2)),
        known([NO, None, YES], one(Y, true, 3)),
        known([NO, NO, None], one(Z, false, 3)),
        known([NO, NO, YES], Answer::Refuted(3)),
        known([YES, None, YES], NONE),
        known([None, None, YES], NONE),
        known([None, None, None], NONE),
    ]
}

/// Boxes of z = (x or not y).
fn reified_rows() -> [Row; 9] {
    [
        known([None, None, NO], some(2, X, false, 2)),
        known([None, NO, None], one(Z, true, 2)),
        known([None, NO, NO], Answer::Refuted(2)),
        known([None, YES, YES], one(X, true, 3)),
        known([NO, None, YES], one(Y, false, 3)),
        known([NO, None, NO], one(Y, true, 2)),
        known([NO, YES, None], one(Z, false, 3)),
        known([NO, YES, YES], Answer::Refuted(3)),
        known([YES, NO, YES], NONE),
    ]
}

/// Boxes of z = (x and y differ).
fn xor_rows() -> [Row; 8] {
    [
        known([None, None, YES], NONE),
        known([None, NO, NO], one(X, false, 3)),
        known([None, YES, YES], one(X, false, 3)),
        known([NO, None, YES], one(Y, true, 3)),
        known([NO, YES, None], one(Z, true, 3)),
        known([YES, YES, None], one(Z, false, 3)),
        known([YES, NO, NO], Answer::Refuted(3)),
        known([NO, NO, NO], NONE),
    ]
}

#[test]
fn kinds_tell_of_boxes(rt: HostRuntime) -> Result<(), Fail> {
    let clauses = told_otherwise(&rt, &clause(&rt)?, &clause_rows())?;
    let both = told_otherwise(&rt, &both(&rt)?, &and_rows())?;
    let either = told_otherwise(&rt, &either(&rt)?, &or_rows())?;
    let reified = told_otherwise(&rt, &reified(&rt)?, &reified_rows())?;
    let other = told_otherwise(&rt, &other(&rt)?, &xor_rows())?;
    assert_eq!(rt;
        (clauses, both, either, reified, other),
        (None, None, None, None, None)
    );
    Ok(())
}

#[test]
fn kinds_hold_where_they_should(rt: HostRuntime) -> Result<(), Fail> {
    let (no, yes) = (false, true);
    let clauses = truth_table(&rt, &clause(&rt)?)?;
    assert_eq!(rt; clauses, [yes, yes, no, no, yes, yes, yes, yes]);
    let both = truth_table(&rt, &both(&rt)?)?;
    assert_eq!(rt; both, [yes, no, yes, no, yes, no, no, yes]);
    let either = truth_table(&rt, &either(&rt)?)?;
    assert_eq!(rt; either, [yes, no, no, yes, no, yes, no, yes]);
    let reified = truth_table(&rt, &reified(&rt)?)?;
    assert_eq!(rt; reified, [no, yes, yes, no, no, yes, no, yes]);
    let other = truth_table(&rt, &other(&rt)?)?;
    assert_eq!(rt; other, [yes, no, no, yes, no, yes, yes, no]);
    Ok(())
}

#[test]
fn no_arguments_are_all_true_and_none_true(rt: HostRuntime) -> Result<(), Fail> {
    let a = Assignment::zeros(rt.alloc(), 0)?;
    assert!(rt; And::new(rt.alloc(), &[], Arg::Const(1))?.holds(&a));
    assert!(rt; Or::new(rt.alloc(), &[], Arg::Const(0))?.holds(&a));
    assert!(rt; !BoolClause::new(rt.alloc(), &[], &[])?.holds(&a));
    assert!(rt; !BoolClauseReified::new(rt.alloc(), &[], &[], Arg::Const(1))?.holds(&a));
    assert!(rt; Or::new(rt.alloc(), &[Arg::Const(0), Arg::Const(1)], Arg::Const(1))?.holds(&a));
    assert!(rt; Xor::new(rt.alloc(), Arg::Const(0), Arg::Const(1), Arg::Const(1))?.holds(&a));
    Ok(())
}

/// How a truth may move, all its values being false or true.
#[derive(Clone, Copy, Debug)]
enum Move {
    Zero,
    One,
    Rises,
    Falls,
    Drops,
    ToOne,
    ToZero,
    FromZero,
}

impl Move {
    /// The movement.
    fn movement(self) -> Movement
        ensures { IsTrueChange result }
    {
        let (no, yes, bit) = (
            Interval::new(0, 0),
            Interval::new(1, 1),
            Interval::new(0, 1),
        );
        let (fall, drop) = (Interval::new(-1, 0), Interval::new(-1, -1));
        match self {
            Move::Zero => moved(no, no, no),
            Move::One => moved(yes, yes, no),
            Move::Rises => moved(bit, bit, bit),
            Move::Falls => moved(bit, bit, fall),
            Move::Drops => moved(bit, bit, drop),
            Move::ToOne => moved(no, yes, yes),
            Move::ToZero => moved(bit, no, fall),
            Move::FromZero => moved(no, bit, bit),
        }
    }
}

fn moved(before: Interval, after: Interval, change: Interval) -> Movement
    ensures { result ≡ record { before = before; after = after; change = change } }
{
    Movement {
        before,
        after,
        change,
    }
}

/// The view of these movements.
fn viewed(rt: &HostRuntime, x: Move, y: Move, z: Move) -> Result<View, Fail>
    ensures length { IfOk result (λ v. length v ≡ 3) }
    ensures x { IfOk result (λ v. IsTrueChange (movement_at v 0)) }
    ensures y { IfOk result (λ v. IsTrueChange (movement_at v 1)) }
    ensures z { IfOk result (λ v. IsTrueChange (movement_at v 2)) }
{
    let (x, y, z) = (x.movement(), y.movement(), z.movement());
    let mut view = View::for_vars(rt.alloc(), 3)?;
    view.set(X, x.before, x.after, x.change);
    view.set(Y, y.before, y.after, y.change);
    view.set(Z, z.before, z.after, z.change);
    Ok(view)
}

#[test]
fn views_keep_functions(rt: HostRuntime) -> Result<(), Fail> {
    let both = And::new(rt.alloc(), &[Arg::Var(X), Arg::Var(Y)], Arg::Var(Z))?;
    let other = Xor::new(rt.alloc(), Arg::Var(X), Arg::Var(Y), Arg::Var(Z))?;
    for (x, y, z, and, xor) in [
        (Move::Rises, Move::One, Move::ToOne, false, false),
        (Move::Rises, Move::One, Move::One, true, false),
        (Move::Falls, Move::One, Move::One, false, false),
        (Move::ToOne, Move::One, Move::Drops, false, true),
        (Move::ToOne, Move::One, Move::Falls, false, false),
    ] {
        let view = viewed(&rt, x, y, z)?;
        let told = (both.keeps(&view), other.keeps(&view));
        assert_eq!(rt; told, (and, xor), "{x:?} and {y:?} by {z:?}");
    }
    Ok(())
}

#[test]
fn views_keep_clauses(rt: HostRuntime) -> Result<(), Fail> {
    let kind = BoolClause::new(rt.alloc(), &[Arg::Var(X)], &[Arg::Var(Y)])?;
    for (x, y, wanted) in [
        (Move::Rises, Move::Falls, true),
        (Move::Rises, Move::Rises, false),
        (Move::Falls, Move::ToZero, true),
        (Move::Falls, Move::FromZero, false),
    ] {
        let view = viewed(&rt, x, y, Move::Zero)?;
        assert_eq!(rt; kind.keeps(&view), wanted, "{x:?} or not {y:?}");
    }
    Ok(())
}

#[test]
fn functions_have_a_value_a_range_and_a_change(rt: HostRuntime) -> Result<(), Fail> {
    let both = And::new(rt.alloc(), &[Arg::Var(X), Arg::Var(Y)], Arg::Var(Z))?;
    let other = Xor::new(rt.alloc(), Arg::Var(X), Arg::Var(Y), Arg::Var(Z))?;
    let parts = (both.output(), both.inputs(), both.vars());
    assert_eq!(rt; parts, (Z, [X, Y].as_slice(), [X, Y, Z].as_slice()));
    let shape = (
        both.is_functional(),
        both.is_inside(X),
        other.is_functional(),
    );
    assert_eq!(rt; shape, (true, false, true));
    assert_eq!(rt; other.inputs(), [X, Y].as_slice());
    let (no, yes, bit) = (
        Interval::new(0, 0),
        Interval::new(1, 1),
        Interval::new(0, 1),
    );
    let (either, falls) = (Interval::new(-1, 1), Interval::new(-1, -1));
    for (x, y, and, and_moves, xor, xor_moves) in [
        (Move::Rises, Move::Zero, no, no, bit, either),
        (Move::Rises, Move::One, bit, bit, bit, either),
        (Move::ToOne, Move::One, no, yes, yes, falls),
    ] {
        let view = viewed(&rt, x, y, Move::Zero)?;
        let told = (both.range(&Before(&view)), both.change(&view));
        assert_eq!(rt; told, (and, and_moves), "{x:?} and {y:?}");
        let told = (other.range(&Before(&view)), other.change(&view));
        assert_eq!(rt; told, (xor, xor_moves), "{x:?} xor {y:?}");
    }
    for (x, y, and, xor) in [(1, 0, 0, 1), (1, 1, 1, 0)] {
        let a = assigned(&rt, x, y, 0)?;
        let told = (both.value(&a), other.value(&a));
        assert_eq!(rt; told, (and, xor), "{x} and {y}");
    }
    Ok(())
}

#[test]
fn truths_are_never_too_wide(rt: HostRuntime) -> Result<(), Fail> {
    let kind = both(&rt)?;
    let view = View::for_vars(rt.alloc(), 3)?;
    assert!(rt; !kind.is_too_wide(&Before(&view)));
    assert!(rt; kind.is_defined_over(&Before(&view)));
    Ok(())
}
