ghost use Rattle.std.specs.Prelude.{◌≡◌, ◌<◌, OnOk, length, false, [], ◌∷◌, ◌++◌};
ghost use Rattle.dom_cells.specs.Box.{cell_of, start_at};
ghost use Rattle.dom_cells.specs.Cell.{Suits};
ghost use Rattle.kind_law.specs.Laws.{AllBelow, hulls};
ghost use Rattle.kind_sum.specs.SumRelation.{sum_vars, sum_refuted, SumFits};

use super::*;
use dom_cells::{Cells, Narrowed, Start};
use dom_core::{Arg, Assignment, Clause, Literal, Rel, Relation, VarId};
use kind_law::{Kind, Propagate};
use std::test::Fail;

fn shared<T: Send + Sync>(_: &T) {}

const X: VarId = VarId(0);

const Y: VarId = VarId(1);

const Z: VarId = VarId(2);

#[test]
fn a_sum_over_a_box_that_never_moved_is_refuted_or_implies_an_end(
    rt: HostRuntime,
) -> Result<(), Fail> {
    let starts = [Start::Span { lo: 1, hi: 9 }, Start::Span { lo: 0, hi: 1 }];
    let cells = Cells::new(rt.alloc(), &starts)?;
    let mut reason = Clause::new(rt.alloc());
    for (other, bound, end) in [(Y, 1, 0), (Y, 2, 1), (Y, 6, 3), (X, 24, 4)] {
        let args = [Arg::Var(X), Arg::Var(other)];
        let kind = Linear::new(rt.alloc(), &[2, 3], &args, Relation::AtMost, bound)?;
        if kind.refutes(&cells) {
            kind.reason(&cells, None, &mut reason)?;
            assert_eq!(rt; (bound, reason.len()), (1, 0));
        } else {
            let implied = Some(literal(X, Rel::Le, end));
            assert_eq!(rt; kind.next(&cells), implied, "at most {bound}");
        }
    }
    Ok(())
}

/// Cuts the cell of the literal's variable, which it must change.
fn cut(cells: &mut Cells, literal: Literal) -> Result<(), Fail>
    requires var { literal.var.0 < length cells.old.state.starts }
    requires suits { Suits (start_at cells.old.state.starts literal.var.0) literal.rel }
    ensures starts { OnOk result (cells.new.state.starts ≡ cells.old.state.starts) }
    ensures literals { OnOk result (cells.new.state.literals ≡ cells.old.state.literals ++ literal ∷ []) }
{
    cells.reserve(1)?;
    match cells.narrow(literal) {
        Narrowed::Changed => Ok(()),
        Narrowed::Same => Err("a cell was not cut".into()),
        Narrowed::Emptied => Err("a cell would be empty".into()),
    }
}

/// The end that is implied, with its reason in `out`.
fn explained(kind: &Linear, cells: &Cells, out: &mut Clause) -> Result<Option<Literal>, Fail>
    requires below { AllBelow (length cells.now.state.starts) (sum_vars kind.now) }
    requires fits { SumFits kind.now (hulls (cell_of cells.now.state)) }
    requires quiet { sum_refuted kind.now (cell_of cells.now.state) ≡ false }
{
    let _width = cells.width();
    let implied = kind.next(cells);
    if let Some(literal) = implied {
        kind.reason(cells, Some(literal), out)?;
    }
    Ok(implied)
}

fn literal(var: VarId, rel: Rel, value: i64) -> Literal
    ensures { result ≡ record { var = var; rel = rel; value = value } }
{
    Literal { var, rel, value }
}

#[test]
fn a_reason_names_the_ends_that_moved_and_the_implied_end(rt: HostRuntime) -> Result<(), Fail> {
    let args = [Arg::Var(X), Arg::Var(Y)];
    let kind = Linear::new(rt.alloc(), &[2, 3], &args, Relation::AtMost, 20)?;
    let starts = [Start::Span { lo: 0, hi: 9 }, Start::Span { lo: 0, hi: 5 }];
    let mut cells = Cells::new(rt.alloc(), &starts)?;
    let mut out = Clause::new(rt.alloc());
    cut(&mut cells, literal(Y, Rel::Ge, 4))?;
    if kind.refutes(&cells) {
        return Err("a sum that may be 12 was given up".into());
    }
    let implied = explained(&kind, &cells, &mut out)?;
    let (end, low) = (literal(X, Rel::Le, 4), literal(Y, Rel::Le, 3));
    assert_eq!(rt; implied, Some(end));
    assert_eq!(rt; out.literals(), [low, end].as_slice());
    cut(&mut cells, literal(X, Rel::Ge, 5))?;
    if !kind.refutes(&cells) {
        return Err("a sum of at least 22 was not given up".into());
    }
    kind.reason(&cells, None, &mut out)?;
    assert_eq!(rt; out.literals(), [end, low].as_slice());
    Ok(())
}

#[test]
fn comparisons_are_sums(rt: HostRuntime) -> Result<(), Fail> {
    let args = [Arg::Var(X), Arg::Var(Y)];
    let mut a = Assignment::zeros(rt.alloc(), 2)?;
    a.set(X, 1);
    a.set(Y, 2);
    for (name, relation, bound, met) in [
        ("at most", Relation::AtMost, 0, true),
        ("less", Relation::AtMost, -1, true),
        ("equal", Relation::Equal, 0, false),
        ("different", Relation::Differ, 0, true),
    ] {
        let kind = Linear::new(rt.alloc(), &[1, -1], &args, relation, bound)?;
        assert_eq!(rt; kind.holds(&a), met, "1 is {name} 2");
    }
    a.set(X, 2);
    for (name, relation, bound, met) in [
        ("at most", Relation::AtMost, 0, true),
        ("less", Relation::AtMost, -1, false),
        ("equal", Relation::Equal, 0, true),
        ("different", Relation::Differ, 0, false),
    ] {
        let kind = Linear::new(rt.alloc(), &[1, -1], &args, relation, bound)?;
        assert_eq!(rt; kind.holds(&a), met, "2 is {name} 2");
    }
    Ok(())
}

#[test]
fn negations_and_sums_are_equations(rt: HostRuntime) -> Result<(), Fail> {
    let mut a = Assignment::zeros(rt.alloc(), 3)?;
    a.set(Y, 1);
    a.set(Z, 1);
    let pair = [Arg::Var(X), Arg::Var(Y)];
    let negated = Linear::new(rt.alloc(), &[1, 1], &pair, Relation::Equal, 1)?;
    assert!(rt; negated.holds(&a), "1 is the negation of 0");
    let same = Linear::new(rt.alloc(), &[1, -1], &pair, Relation::Equal, 0)?;
    assert!(rt; !same.holds(&a), "0 is not the number of true");
    let three = [Arg::Var(X), Arg::Var(Y), Arg::Var(Z)];
    let sum = Linear::new(rt.alloc(), &[1, 1, -1], &three, Relation::Equal, 0)?;
    assert!(rt; sum.holds(&a), "0 and 1 are 1");
    Ok(())
}

#[test]
fn an_equation_is_solved_where_its_variable_stands_once(rt: HostRuntime) -> Result<(), Fail> {
    let args = [Arg::Var(X), Arg::Var(Y), Arg::Var(Z)];
    let linear = Linear::new(rt.alloc(), &[2, 1, -1], &args, Relation::Equal, 0)?;
    for (place, can) in [(0, false), (1, true), (2, true), (3, false)] {
        assert_eq!(rt; linear.can_define(place), can, "place {place}");
    }
    shared(&linear);
    if !linear.can_define(2) {
        return Err("the coefficient -1 was refused".into());
    }
    let kind = LinearOutput::new(rt.alloc(), linear, 2)?;
    assert!(rt; !kind.is_inside(Z), "a sum looks at ends alone");
    shared(&kind);
    Ok(())
}
