ghost use Rattle.std.specs.Prelude.{◌≡◌, IfOk, length, false, true, pos, ℕ, [], ◌∷◌};
ghost use Rattle.dom_core.specs.Ends.{Ends};
ghost use Rattle.dom_core.specs.declared.arg.Arg.{Arg};
ghost use Rattle.dom_cells.specs.Box.{cell_of};
ghost use Rattle.kind_law.specs.Laws.{AllBelow, hulls};
ghost use Rattle.any_kind.specs.Any.{any_vars, any_refuted, AnyFits};

use super::*;
use dom_cells::{Cells, Start};
use dom_core::{
    After, Arg, Assignment, Before, Clause, Interval, Literal, Rel, Relation, Set, VarId, View,
};
use kind_arith::InSet;
use kind_bool::{And, BoolClause, BoolClauseReified, Or, Xor};
use kind_law::{Define, Kind, Propagate, Scratch, Visited};
use kind_linear::{Linear, LinearOutput};
use kind_reified::LinearReified;
use std::test::Fail;

fn shared<T: Send + Sync>(_: &T) {}

const X: VarId = VarId(0);

const Y: VarId = VarId(1);

const Z: VarId = VarId(2);

/// What a kind says of a box: whether it gives it up, how many ends a visit tells, the first end, and how long its reason
/// is.
#[derive(Clone, Copy, Debug, PartialEq)]
struct Answers {
    refutes: bool,
    ends: usize,
    next: Option<Literal>,
    reason: usize,
}

/// What the kind says of the box.
fn told(rt: &HostRuntime, kind: &AnyKind, cells: &Cells) -> Result<Answers, Fail>
    requires below { AllBelow (length cells.now.state.starts) (any_vars kind.now) }
    requires fits { AnyFits kind.now (hulls (cell_of cells.now.state)) }
{
    let mut out = Clause::new(rt.alloc());
    let mut scratch = Scratch::new(rt.alloc());
    let visited = kind.visit(cells, &mut scratch, &mut out)?;
    let ends = out.len();
    let refutes = kind.refutes(cells);
    if refutes != (visited == Visited::Refuted) {
        return Err("a visit and the test of the box differ".into());
    }
    if refutes {
        kind.reason(cells, None, &mut out)?;
        let (next, reason) = (None, out.len());
        return Ok(Answers {
            refutes,
            ends,
            next,
            reason,
        });
    }
    let next = explained(kind, cells, &mut out)?;
    let reason = out.len();
    Ok(Answers {
        refutes,
        ends,
        next,
        reason,
    })
}

/// The first end that is implied, with its reason in `out`.
fn explained(kind: &AnyKind, cells: &Cells, out: &mut Clause) -> Result<Option<Literal>, Fail>
    requires below { AllBelow (length cells.now.state.starts) (any_vars kind.now) }
    requires fits { AnyFits kind.now (hulls (cell_of cells.now.state)) }
    requires quiet { any_refuted kind.now (cell_of cells.now.state) ≡ false }
{
    let _width = cells.width();
    let implied = kind.next(cells);
    if let Some(literal) = implied {
        kind.reason(cells, Some(literal), out)?;
    }
    Ok(implied)
}

fn literal(var: VarId, rel: Rel, value: i64) -> Option<Literal> {
    Some(Literal { var, rel, value })
}

/// What a kind says of a box that it gives up, by a reason of so many literals.
fn refuted(reason: usize) -> Answers {
    Answers {
        refutes: true,
        ends: 0,
        next: None,
        reason,
    }
}

/// What a kind says of a box that it doesn't give up.
fn open(ends: usize, next: Option<Literal>, reason: usize) -> Answers {
    Answers {
        refutes: false,
        ends,
        next,
        reason,
    }
}

#[test]
fn a_restriction_tells_of_boxes(rt: HostRuntime) -> Result<(), Fail> {
    let cells = Cells::new(rt.alloc(), &[Start::Span { lo: 0, hi: 3 }])?;
    for (lo, hi, wanted) in [
        (1, 2, open(2, literal(X, Rel::Ge, 1), 1)),
        (0, 2, open(1, literal(X, Rel::Le, 2), 1)),
        (-1, 9, open(0, None, 0)),
        (4, 9, refuted(0)),
    ] {
        let kind = AnyKind::InSet(InSet::new(rt.alloc(), Arg::Var(X), &Set::Range { lo, hi })?);
        assert_eq!(rt; told(&rt, &kind, &cells)?, wanted, "{lo}..{hi}");
    }
    Ok(())
}

#[test]
fn a_restriction_answers_for_itself(rt: HostRuntime) -> Result<(), Fail> {
    let mut a = Assignment::zeros(rt.alloc(), 1)?;
    let mut view = View::for_vars(rt.alloc(), 1)?;
    let set = Set::Range { lo: 1, hi: 2 };
    let kind = AnyKind::InSet(InSet::new(rt.alloc(), Arg::Var(X), &set)?);
    shared(&kind);
    let read = (kind.vars(), kind.inputs(), kind.is_inside(X));
    assert_eq!(rt; read, ([X].as_slice(), [].as_slice(), true));
    let given = (kind.is_functional(), kind.value(&a), kind.holds(&a));
    assert_eq!(rt; given, (false, 0, false));
    let still = (kind.is_too_wide(&Before(&view)), kind.keeps(&view));
    assert_eq!(rt; still, (false, true));
    a.set(X, 2);
    let (up, bit) = (Interval::new(1, 3), Interval::new(0, 1));
    view.set(X, Interval::new(1, 2), up, bit);
    assert_eq!(rt; (kind.holds(&a), kind.keeps(&view)), (true, false));
    let (defined, zero) = (kind.is_defined_over(&After(&view)), Interval::new(0, 0));
    let ends = (defined, kind.range(&After(&view)), kind.change(&view));
    assert_eq!(rt; ends, (true, zero, zero));
    Ok(())
}

#[test]
fn a_sum_answers_for_itself(rt: HostRuntime) -> Result<(), Fail> {
    let starts = [Start::Span { lo: 0, hi: 1 }, Start::Span { lo: 0, hi: 9 }];
    let cells = Cells::new(rt.alloc(), &starts)?;
    let args = [Arg::Var(X), Arg::Var(Y)];
    let sum = Linear::new(rt.alloc(), &[2, 3], &args, Relation::AtMost, 7)?;
    let kind = AnyKind::Linear(sum);
    let end = literal(Y, Rel::Le, 2);
    assert_eq!(rt; told(&rt, &kind, &cells)?, open(1, end, 1));
    let mut a = Assignment::zeros(rt.alloc(), 2)?;
    a.set(Y, 3);
    let mut view = View::for_vars(rt.alloc(), 2)?;
    let still = (kind.is_too_wide(&Before(&view)), kind.keeps(&view));
    assert_eq!(rt; still, (false, true));
    let (bit, three) = (Interval::new(0, 1), Interval::new(0, 3));
    view.set(Y, bit, three, three);
    let moved = (kind.holds(&a), kind.keeps(&view), kind.is_functional());
    assert_eq!(rt; moved, (false, false, false));
    Ok(())
}

/// The equation 3 x + 2 y - z = 4, solved for z.
fn solved(rt: &HostRuntime) -> Result<LinearOutput, Fail>
    ensures { IfOk result (λ d. d ≡ record {
      front = record { coef = pos 3; arg = Arg.Var (record { 0 = 0 }) }
          ∷ record { coef = pos 2; arg = Arg.Var (record { 0 = 1 }) } ∷ [];
      turned = true;
      output = record { 0 = 2 };
      back = [];
      bound = pos 4;
    }) }
{
    let args = [Arg::Var(X), Arg::Var(Y), Arg::Var(Z)];
    let linear = Linear::new(rt.alloc(), &[3, 2, -1], &args, Relation::Equal, 4)?;
    if !linear.can_define(2) {
        return Err("the coefficient -1 was refused".into());
    }
    Ok(LinearOutput::new(rt.alloc(), linear, 2)?)
}

#[test]
fn an_equation_defines_its_output(rt: HostRuntime) -> Result<(), Fail> {
    let kind = AnyKind::LinearOutput(solved(&rt)?);
    let parts = (kind.output(), kind.inputs(), kind.is_functional());
    assert_eq!(rt; parts, (Z, [X, Y].as_slice(), true));
    let mut a = Assignment::zeros(rt.alloc(), 3)?;
    a.set(X, 5);
    a.set(Y, -1);
    assert_eq!(rt; (kind.value(&a), kind.holds(&a)), (9, false));
    let mut view = View::for_vars(rt.alloc(), 3)?;
    let (bit, two) = (Interval::new(0, 1), Interval::new(0, 2));
    view.set(X, bit, Interval::new(1, 1), bit);
    view.set(Y, two, two, Interval::new(-1, 0));
    let ends = (kind.range(&Before(&view)), kind.change(&view));
    assert_eq!(rt; ends, (Interval::new(-4, 3), Interval::new(-2, 3)));
    assert!(rt; !kind.keeps(&view));
    Ok(())
}

#[test]
fn a_truth_defines_its_output(rt: HostRuntime) -> Result<(), Fail> {
    let args = [Arg::Var(X), Arg::Var(Y)];
    let out = Arg::Var(Z);
    let truth = LinearReified::new(rt.alloc(), &[2, 3], &args, Relation::AtMost, 4, out)?;
    let kind = AnyKind::LinearReified(truth);
    let parts = (kind.output(), kind.inputs(), kind.is_functional());
    assert_eq!(rt; parts, (Z, [X, Y].as_slice(), true));
    let mut a = Assignment::zeros(rt.alloc(), 3)?;
    a.set(X, 3);
    assert_eq!(rt; kind.value(&a), 0);
    let mut view = View::for_vars(rt.alloc(), 3)?;
    let (bit, one) = (Interval::new(0, 1), Interval::new(1, 1));
    view.set(X, Interval::new(0, 2), bit, Interval::new(-1, 0));
    view.set(Y, bit, bit, Interval::new(0, 0));
    let ends = (kind.range(&Before(&view)), kind.change(&view));
    assert_eq!(rt; ends, (bit, bit));
    assert!(rt; !kind.keeps(&view), "a truth that stays 0 may rise");
    view.set(Z, one, one, Interval::new(0, 0));
    assert!(rt; kind.keeps(&view), "a truth that stays 1 doesn't fall");
    Ok(())
}

/// The forms of the Boolean kinds.
#[derive(Clone, Copy, Debug)]
enum Form {
    Clause,
    ClauseTruth,
    And,
    Or,
    Xor,
}

/// The kind of this form of x and y, negated where it is a clause, with the output z, where it has one.
fn boolean(rt: &HostRuntime, form: Form) -> Result<AnyKind, Fail>
    ensures below { IfOk result (λ k. AllBelow 3 (any_vars k)) }
    ensures fits { IfOk result (λ k. (s : ℕ → Ends) → AnyFits k s) }
{
    let (alloc, x, y, z) = (rt.alloc(), Arg::Var(X), Arg::Var(Y), Arg::Var(Z));
    match form {
        Form::Clause => Ok(AnyKind::BoolClause(BoolClause::new(alloc, &[x], &[y])?)),
        Form::ClauseTruth => {
            let truth = BoolClauseReified::new(alloc, &[x], &[y], z)?;
            Ok(AnyKind::BoolClauseReified(truth))
        }
        Form::And => Ok(AnyKind::And(And::new(alloc, &[x, y], z)?)),
        Form::Or => Ok(AnyKind::Or(Or::new(alloc, &[x, y], z)?)),
        Form::Xor => Ok(AnyKind::Xor(Xor::new(alloc, x, y, z)?)),
    }
}

#[test]
fn boolean_kinds_answer_for_themselves(rt: HostRuntime) -> Result<(), Fail> {
    let (no, bit, yes) = (
        Start::Span { lo: 0, hi: 0 },
        Start::Span { lo: 0, hi: 1 },
        Start::Span { lo: 1, hi: 1 },
    );
    let cells = Cells::new(rt.alloc(), &[no, bit, yes])?;
    let mut a = Assignment::zeros(rt.alloc(), 3)?;
    a.set(X, 1);
    a.set(Y, 1);
    a.set(Z, 1);
    let not = open(1, literal(Y, Rel::Le, 0), 1);
    let is = open(1, literal(Y, Rel::Ge, 1), 1);
    for (form, met, defines, wanted) in [
        (Form::Clause, true, false, not),
        (Form::ClauseTruth, true, true, not),
        (Form::And, true, true, refuted(0)),
        (Form::Or, true, true, is),
        (Form::Xor, false, true, is),
    ] {
        let kind = boolean(&rt, form)?;
        let shape = (kind.holds(&a), kind.is_functional());
        assert_eq!(rt; shape, (met, defines), "{form:?}");
        assert_eq!(rt; told(&rt, &kind, &cells)?, wanted, "{form:?}");
    }
    Ok(())
}
