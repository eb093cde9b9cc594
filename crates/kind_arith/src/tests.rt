ghost use Rattle.std.specs.Prelude.{◌≡◌, ◌<◌, IfOk, OnOk, length, false};
ghost use Rattle.dom_core.specs.Rises.{Rises};
ghost use Rattle.dom_core.specs.declared.arg.Arg.{Arg};
ghost use Rattle.dom_cells.specs.Box.{cell_of, start_at};
ghost use Rattle.dom_cells.specs.Cell.{Suits};
ghost use Rattle.kind_law.specs.Laws.{AllBelow};
ghost use Rattle.kind_arith.specs.InSet.{restricted_vars, restriction_refuted};
ghost use Rattle.kind_parts.specs.Set.{IsSorted};

use super::*;
use dom_cells::{Cells, Start};
use dom_core::{
    Arg, Assignment, Before, Clause, Domain, Interval, Literal, Rel, Set, Values, VarId, View,
};
use kind_law::{Kind, Propagate, Scratch, Visited};
use std::test::Fail;

fn shared<T: Send + Sync>(_: &T) {}

const X: VarId = VarId(0);

/// The set of these values, which rise.
fn listed(rt: &HostRuntime, values: &[i64]) -> Result<Set, Fail>
    requires { Rises values.now }
    ensures { IfOk result IsSorted }
{
    Ok(Set::Values(Values::from_slice(rt.alloc(), values)?))
}

/// The restriction of the first variable to the values 2, 5 and 8.
#[tactic(auto, using(kind_parts::proofs::SetLaws::rises_by_steps))]
fn three_apart(rt: &HostRuntime) -> Result<InSet, Fail>
    ensures { IfOk result (λ k. k.arg ≡ Arg.Var (record { 0 = 0 })) }
{
    let set = listed(rt, &[2, 5, 8])?;
    Ok(InSet::new(rt.alloc(), Arg::Var(X), &set)?)
}

/// The restriction of the first variable to the integers between two ends.
fn between(rt: &HostRuntime, lo: i64, hi: i64) -> Result<InSet, Fail>
    ensures { IfOk result (λ k. k.arg ≡ Arg.Var (record { 0 = 0 })) }
{
    Ok(InSet::new(rt.alloc(), Arg::Var(X), &Set::Range { lo, hi })?)
}

#[test]
fn a_restriction_holds_of_the_values_of_its_set(rt: HostRuntime) -> Result<(), Fail> {
    let three = three_apart(&rt)?;
    shared(&three);
    assert_eq!(rt; three.vars(), [X].as_slice());
    assert!(rt; three.is_inside(X));
    let nowhere = View::for_vars(rt.alloc(), 0)?;
    assert!(rt; !three.is_too_wide(&Before(&nowhere)));
    for (value, met) in [
        (1, false),
        (2, true),
        (3, false),
        (5, true),
        (8, true),
        (9, false),
    ] {
        let mut a = Assignment::zeros(rt.alloc(), 1)?;
        a.set(X, value);
        assert_eq!(rt; three.holds(&a), met, "of {value}");
    }
    Ok(())
}

#[test]
fn a_range_holds_of_all_between_its_ends(rt: HostRuntime) -> Result<(), Fail> {
    let a = Assignment::zeros(rt.alloc(), 0)?;
    for (lo, hi, met) in [(2, 4, true), (3, 3, true), (4, 9, false), (4, 2, false)] {
        let range = Set::Range { lo, hi };
        let kind = InSet::new(rt.alloc(), Arg::Const(3), &range)?;
        assert!(rt; kind.vars().is_empty());
        assert_eq!(rt; kind.holds(&a), met, "3 in {lo}..{hi}");
    }
    Ok(())
}

#[test]
fn a_range_within_a_hole_of_the_cell_is_refuted(rt: HostRuntime) -> Result<(), Fail> {
    let domain = Domain::from_values(rt.alloc(), [1, 4, 9].as_slice())
        .ok()
        .ok_or("no domain")?;
    let cells = Cells::new(rt.alloc(), &[Start::Values(domain)])?;
    for (lo, hi, refuted) in [
        (5, 8, true),
        (5, 9, false),
        (2, 4, false),
        (2, 3, true),
        (-5, 0, true),
        (10, 12, true),
        (0, 1, false),
        (4, 2, true),
    ] {
        let kind = between(&rt, lo, hi)?;
        assert_eq!(rt; kind.refutes(&cells), refuted, "{lo}..{hi}");
    }
    let three = three_apart(&rt)?;
    assert!(rt; three.refutes(&cells));
    Ok(())
}

#[test]
#[tactic(auto, using(kind_parts::proofs::SetLaws::rises_by_steps))]
fn a_view_keeps_what_it_cannot_leave(rt: HostRuntime) -> Result<(), Fail> {
    let mut view = View::for_vars(rt.alloc(), 1)?;
    let three = three_apart(&rt)?;
    assert!(rt; three.keeps(&view));
    view.set(
        X,
        Interval::new(2, 5),
        Interval::new(5, 8),
        Interval::new(0, 6),
    );
    assert!(rt; !three.keeps(&view));
    assert!(rt; between(&rt, 2, 8)?.keeps(&view));
    assert!(rt; !between(&rt, 2, 7)?.keeps(&view));
    let set = listed(&rt, &[1, 5, 6, 7, 8])?;
    let kind = InSet::new(rt.alloc(), Arg::Var(X), &set)?;
    assert!(rt; kind.keeps(&view));
    Ok(())
}

#[test]
#[tactic(auto, using(kind_parts::proofs::SetLaws::rises_by_steps))]
fn a_list_without_a_gap_is_kept_as_a_range(rt: HostRuntime) -> Result<(), Fail> {
    let mut view = View::for_vars(rt.alloc(), 1)?;
    view.set(
        X,
        Interval::new(1, 2),
        Interval::new(0, 2),
        Interval::new(-1, 0),
    );
    let set = listed(&rt, &[-3, -2, -1, 0, 1, 2])?;
    let kind = InSet::new(rt.alloc(), Arg::Var(X), &set)?;
    assert!(rt; kind.keeps(&view));
    let gap = listed(&rt, &[-3, -1, 0, 2])?;
    let kind = InSet::new(rt.alloc(), Arg::Var(X), &gap)?;
    assert!(rt; !kind.keeps(&view));
    Ok(())
}

/// One variable with the values from 1 to 9.
fn nine_values(rt: &HostRuntime) -> Result<Cells, Fail>
    ensures one { IfOk result (λ c. length c.state.starts ≡ 1) }
    ensures list { IfOk result (λ c. Suits (start_at c.state.starts 0) Rel.Ne) }
{
    let domain = Domain::from_range(1, 9).ok().ok_or("no domain")?;
    let starts = [Start::Values(domain)];
    Ok(Cells::new(rt.alloc(), &starts)?)
}

/// Cuts the cell of the literal's variable.
fn cut(cells: &mut Cells, literal: Literal) -> Result<(), Fail>
    requires var { literal.var.0 < length cells.old.state.starts }
    requires suits { Suits (start_at cells.old.state.starts literal.var.0) literal.rel }
    ensures { OnOk result (cells.new.state.starts ≡ cells.old.state.starts) }
{
    cells.reserve(1)?;
    let _what = cells.narrow(literal);
    Ok(())
}

/// The end that is implied, with its reason in `out`.
fn explained(kind: &InSet, cells: &Cells, out: &mut Clause) -> Result<Option<Literal>, Fail>
    requires below { AllBelow (length cells.now.state.starts) (restricted_vars kind.now) }
    requires quiet { restriction_refuted kind.now (cell_of cells.now.state) ≡ false }
{
    let _width = cells.width();
    let implied = kind.next(cells);
    if let Some(literal) = implied {
        kind.reason(cells, Some(literal), out)?;
    }
    Ok(implied)
}

fn literal(rel: Rel, value: i64) -> Literal
    ensures { result ≡ record { var = record { 0 = 0 }; rel = rel; value = value } }
{
    Literal { var: X, rel, value }
}

#[test]
fn a_reason_names_an_end_that_moved_and_a_value_that_is_gone(rt: HostRuntime) -> Result<(), Fail> {
    let kind = three_apart(&rt)?;
    let mut cells = nine_values(&rt)?;
    cut(&mut cells, literal(Rel::Ne, 5))?;
    cut(&mut cells, literal(Rel::Ge, 3))?;
    if kind.refutes(&cells) {
        return Err("a cell that has 8 was given up".into());
    }
    let mut out = Clause::new(rt.alloc());
    let implied = explained(&kind, &cells, &mut out)?;
    let (low, hole, end) = (
        literal(Rel::Le, 2),
        literal(Rel::Eq, 5),
        literal(Rel::Ge, 8),
    );
    assert_eq!(rt; implied, Some(end));
    assert_eq!(rt; out.literals(), [low, hole, end].as_slice());
    cut(&mut cells, literal(Rel::Le, 7))?;
    if !kind.refutes(&cells) {
        return Err("a cell without 2, 5 and 8 was not given up".into());
    }
    kind.reason(&cells, None, &mut out)?;
    assert_eq!(rt; out.literals(), [low, end, hole].as_slice());
    Ok(())
}

#[test]
#[tactic(auto, using(kind_parts::proofs::SetLaws::rises_by_steps))]
fn a_visit_tells_both_ends_at_once(rt: HostRuntime) -> Result<(), Fail> {
    let mut scratch = Scratch::new(rt.alloc());
    let mut ends = Clause::new(rt.alloc());
    let cells = nine_values(&rt)?;
    let three = three_apart(&rt)?;
    let last = Visited::Ends { more: false };
    assert_eq!(rt; three.visit(&cells, &mut scratch, &mut ends)?, last);
    let both = [literal(Rel::Ge, 2), literal(Rel::Le, 8)];
    assert_eq!(rt; ends.literals(), both.as_slice());
    for (lo, hi, told) in [
        (3, 7, [literal(Rel::Ge, 3), literal(Rel::Le, 7)].as_slice()),
        (-4, 7, [literal(Rel::Le, 7)].as_slice()),
        (3, 9, [literal(Rel::Ge, 3)].as_slice()),
        (1, 9, [].as_slice()),
    ] {
        let kind = between(&rt, lo, hi)?;
        assert_eq!(rt;
            kind.visit(&cells, &mut scratch, &mut ends)?,
            last,
            "{lo}..{hi}"
        );
        assert_eq!(rt; ends.literals(), told, "{lo}..{hi}");
    }
    let kind = between(&rt, 10, 12)?;
    assert_eq!(rt;
        kind.visit(&cells, &mut scratch, &mut ends)?,
        Visited::Refuted
    );
    assert!(rt; ends.literals().is_empty());
    Ok(())
}

#[test]
fn a_visit_of_a_constant_tells_no_end(rt: HostRuntime) -> Result<(), Fail> {
    let mut scratch = Scratch::new(rt.alloc());
    let mut ends = Clause::new(rt.alloc());
    let cells = Cells::new(rt.alloc(), &[])?;
    for (lo, hi, found) in [
        (2, 4, Visited::Ends { more: false }),
        (4, 9, Visited::Refuted),
    ] {
        let kind = InSet::new(rt.alloc(), Arg::Const(3), &Set::Range { lo, hi })?;
        assert_eq!(rt;
            kind.visit(&cells, &mut scratch, &mut ends)?,
            found,
            "3 in {lo}..{hi}"
        );
        assert!(rt; ends.literals().is_empty());
    }
    Ok(())
}
