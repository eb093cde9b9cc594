ghost use Rattle.std.specs.Prelude.{◌≡◌, ◌<◌, IfOk, OnOk, length};
ghost use Rattle.dom_cells.specs.Box.{start_at};
ghost use Rattle.dom_cells.specs.Cell.{Suits};

use super::*;
use dom_core::{Assignment, Domain, Interval, Intervals, Literal, Rel, VarId};
use std::test::Fail;

fn shared<T: Send + Sync>(_: &T) {}

const X: VarId = VarId(0);

const Y: VarId = VarId(1);

/// Two variables: one with the values from 0 to 9, one with all integers from -5 to 5.
fn two_cells(rt: &HostRuntime) -> Result<Cells, Fail>
    ensures { IfOk result (λ c. length c.state.starts ≡ 2) }
{
    let domain = Domain::from_range(0, 9).ok().ok_or("no domain")?;
    let starts = [Start::Values(domain), Start::Span { lo: -5, hi: 5 }];
    Ok(Cells::new(rt.alloc(), &starts)?)
}

#[test]
#[tactic(auto, using(crate::proofs::KeptLaws::suits_end))]
fn cells_are_narrowed_and_undone(rt: HostRuntime) -> Result<(), Fail> {
    let mut cells = two_cells(&rt)?;
    cells.reserve(1)?;
    shared(&cells);
    assert_eq!(rt; (cells.lo(X), cells.hi(X), cells.has(Y, -5)), (0, 9, true));
    let mark = cells.mark();
    let low = Literal {
        var: X,
        rel: Rel::Ge,
        value: 9,
    };
    assert!(rt; !cells.is_true(low) && !cells.is_false(low));
    assert_eq!(rt; cells.narrow(low), Narrowed::Changed);
    cells.undo(mark);
    assert_eq!(rt; (cells.width(), cells.mark()), (2, mark));
    Ok(())
}

#[test]
fn a_literal_is_true_false_or_open(rt: HostRuntime) -> Result<(), Fail> {
    let cells = two_cells(&rt)?;
    let cases = [
        (Rel::Le, 9, Truth::True),
        (Rel::Ge, 10, Truth::False),
        (Rel::Eq, 4, Truth::Open),
        (Rel::Ne, 4, Truth::Open),
        (Rel::Ne, 10, Truth::True),
    ];
    for (rel, value, truth) in cases {
        let literal = Literal { var: X, rel, value };
        assert_eq!(rt; cells.truth(literal), truth);
    }
    Ok(())
}

#[test]
#[tactic(auto, using(crate::proofs::KeptLaws::suits_end))]
fn the_literals_of_the_changes_are_read(rt: HostRuntime) -> Result<(), Fail> {
    let mut cells = two_cells(&rt)?;
    cells.reserve(1)?;
    let literal = Literal {
        var: Y,
        rel: Rel::Le,
        value: 3,
    };
    cells.narrow(literal);
    if cells.mark().changes == 1 {
        assert_eq!(rt; cells.literal_at(0), literal);
        return Ok(());
    }
    Err("no change".into())
}

#[test]
fn a_cell_with_one_value_is_fixed(rt: HostRuntime) -> Result<(), Fail> {
    let domain = Domain::from_values(rt.alloc(), [2, 4, 7].as_slice())
        .ok()
        .ok_or("no domain")?;
    let starts = [Start::Values(domain), Start::Span { lo: 3, hi: 3 }];
    let cells = Cells::new(rt.alloc(), &starts)?;
    assert_eq!(rt; (cells.fixed(X), cells.fixed(Y)), (None, Some(3)));
    assert_eq!(rt; (cells.has(X, 3), cells.has(X, 4)), (false, true));
    assert_eq!(rt; (cells.start(X).lo(), cells.start(X).hi()), (2, 7));
    assert_eq!(rt; cells.spare(), 0);
    Ok(())
}

#[test]
fn the_next_values_of_a_cell_pass_over_its_gaps(rt: HostRuntime) -> Result<(), Fail> {
    let domain = Domain::from_values(rt.alloc(), [2, 4, 7].as_slice())
        .ok()
        .ok_or("no domain")?;
    let cells = Cells::new(rt.alloc(), &[Start::Values(domain)])?;
    if cells.lo(X) < 5 && 5 < cells.hi(X) {
        assert_eq!(rt; (cells.floor(X, 5), cells.ceiling(X, 5)), (4, 7));
        return Ok(());
    }
    Err("no values on both sides".into())
}

/// Takes the values from `low` up to `high` out of the cell.
fn take_out(cells: &mut Cells, low: i64, high: i64) -> Result<(), Fail>
    requires var { 0 < length cells.old.state.starts }
    requires suits { Suits (start_at cells.old.state.starts 0) Rel.Ne }
    ensures { OnOk result (cells.new.state.starts ≡ cells.old.state.starts) }
{
    for value in low..high {
        cells.reserve(1)?;
        cells.narrow(Literal {
            var: X,
            rel: Rel::Ne,
            value,
        });
    }
    Ok(())
}

#[test]
fn the_next_values_of_a_cell_are_found_past_many_that_are_gone(
    rt: HostRuntime,
) -> Result<(), Fail> {
    let domain = Domain::from_range(0, 299).ok().ok_or("no domain")?;
    let mut cells = Cells::new(rt.alloc(), &[Start::Values(domain)])?;
    let mark = cells.mark();
    take_out(&mut cells, 1, 290)?;
    assert_eq!(rt; (cells.has(X, 0), cells.has(X, 1)), (true, false));
    assert_eq!(rt; (cells.has(X, 289), cells.has(X, 290)), (false, true));
    if cells.lo(X) < 1 && 289 < cells.hi(X) {
        assert_eq!(rt; (cells.floor(X, 289), cells.ceiling(X, 1)), (0, 290));
        cells.undo(mark);
        assert_eq!(rt; (cells.has(X, 1), cells.has(X, 289)), (true, true));
        return Ok(());
    }
    Err("no values on both sides".into())
}

#[test]
fn a_box_is_read_through_one_bound_more(rt: HostRuntime) -> Result<(), Fail> {
    let cells = two_cells(&rt)?;
    let literal = Literal {
        var: X,
        rel: Rel::Le,
        value: 4,
    };
    let kept = Kept {
        cells: &cells,
        literal,
    };
    shared(&kept);
    assert_eq!(rt; (cells.lo(X), cells.hi(X)), (0, 9));
    assert_eq!(rt; (kept.literal.at(4), kept.literal.at(5)), (true, false));
    assert_eq!(rt;
        (kept.has(X, 4), kept.has(X, 5), kept.has(Y, 5)),
        (true, false, true)
    );
    Ok(())
}

#[test]
fn intervals_of_an_assignment_have_its_values_alone(rt: HostRuntime) -> Result<(), Fail> {
    let mut a = Assignment::zeros(rt.alloc(), 2)?;
    a.set(Y, 7);
    assert_eq!(rt; Point(&a).interval(X), Interval::new(0, 0));
    assert_eq!(rt; Point(&a).interval(Y), Interval::new(7, 7));
    Ok(())
}
