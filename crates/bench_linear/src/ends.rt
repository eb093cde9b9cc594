//! Ends that a sum implies, which are applied until there is none.
ghost use Rattle.std.specs.Prelude.{◌≡◌, ◌≤◌, ◌<◌, length, IfSome, OnOk};
ghost use Rattle.bench_linear.specs.Digits.{AreDigits, AreOn, IsDigitSum};

use crate::digits::{digit, digit_starts, digit_sum};
use crate::job::{Size, Work};
use dom_cells::Cells;
use dom_core::{Clause, DomainError, Literal, Rel, VarId};
use kind_law::{Kind, Propagate, Scratch, Visited};
use kind_linear::Linear;
use std::alloc::{AllocError, Global};

/// What a visit writes to and works in.
#[derive(Drop)]
pub(crate) struct Desk {
    ends: Clause,
    scratch: Scratch,
}

/// How many ends are told in so many rounds. In each one variable is fixed, the ends that are implied are applied until
/// there is none, and all is taken back.
pub(crate) fn count_ends(
    alloc: Global,
    work: Work,
    size: Size,
    rounds: u32,
) -> Result<u64, DomainError> {
    let width = size.terms();
    let sum = digit_sum(alloc, width, size.bound())?;
    let starts = digit_starts(alloc, width)?;
    let mut cells = Cells::new(alloc, starts.as_slice())?;
    let mut desk = Desk {
        ends: Clause::new(alloc),
        scratch: Scratch::new(alloc),
    };
    let mut told: u64 = 0;
    for number in 0..rounds {
        told = told.saturating_add(end_round(
            &mut desk,
            &sum,
            &mut cells,
            width,
            number % width,
            work,
        )?);
    }
    Ok(told)
}

/// A round that begins with this variable.
fn end_round(
    desk: &mut Desk,
    sum: &Linear,
    cells: &mut Cells,
    width: u32,
    at: u32,
    work: Work,
) -> Result<u64, AllocError>
    requires few { width ≤ 1000 }
    requires at { at < width }
    requires sum { IsDigitSum width sum.now }
    requires starts { AreDigits width cells.old.state.starts }
    ensures { OnOk result (cells.new.state.starts ≡ cells.old.state.starts) }
{
    let mark = cells.mark();
    let first = Literal {
        var: VarId(at),
        rel: Rel::Eq,
        value: digit(at, 0),
    };
    narrow(cells, first, width)?;
    let told = settle(desk, sum, cells, width, work)?;
    cells.undo(mark);
    Ok(told)
}

/// Applies ends until there is none, and tells how many there were.
fn settle(
    desk: &mut Desk,
    sum: &Linear,
    cells: &mut Cells,
    width: u32,
    work: Work,
) -> Result<u64, AllocError>
    requires sum { IsDigitSum width sum.now }
    requires starts { AreDigits width cells.old.state.starts }
    ensures starts { OnOk result (cells.new.state.starts ≡ cells.old.state.starts) }
    ensures longer { OnOk result (length cells.old.state.literals ≤ length cells.new.state.literals) }
{
    match work {
        Work::Visit => settle_at_once(desk, sum, cells, width),
        _ => settle_one_by_one(sum, cells, width),
    }
}

/// Applies the first end, then the first one of the smaller box, and so on.
fn settle_one_by_one(sum: &Linear, cells: &mut Cells, width: u32) -> Result<u64, AllocError>
    requires sum { IsDigitSum width sum.now }
    requires starts { AreDigits width cells.old.state.starts }
    ensures starts { OnOk result (cells.new.state.starts ≡ cells.old.state.starts) }
    ensures longer { OnOk result (length cells.old.state.literals ≤ length cells.new.state.literals) }
{
    let mut told: u64 = 0;
    for _ in 0..width {
        let Some(end) = next_end(sum, cells, width) else {
            return Ok(told);
        };
        narrow(cells, end, width)?;
        told = told.saturating_add(1);
    }
    Ok(told)
}

/// Applies all ends of a visit, then those of a visit of the smaller box, and so on.
fn settle_at_once(
    desk: &mut Desk,
    sum: &Linear,
    cells: &mut Cells,
    width: u32,
) -> Result<u64, AllocError>
    requires sum { IsDigitSum width sum.now }
    requires starts { AreDigits width cells.old.state.starts }
    ensures starts { OnOk result (cells.new.state.starts ≡ cells.old.state.starts) }
    ensures longer { OnOk result (length cells.old.state.literals ≤ length cells.new.state.literals) }
{
    let mut told: u64 = 0;
    for _ in 0..width {
        let more = visit(desk, sum, cells, width)?;
        told = told.saturating_add(desk.ends.len() as u64);
        apply(cells, &desk.ends, width)?;
        if !more {
            return Ok(told);
        }
    }
    Ok(told)
}

/// Writes the ends that a visit tells, and whether more may follow once they are applied.
#[tactic(auto, using(crate::proofs::DigitLaws::digits_fit, crate::proofs::DigitLaws::visited_on))]
fn visit(desk: &mut Desk, sum: &Linear, cells: &Cells, width: u32) -> Result<bool, AllocError>
    requires sum { IsDigitSum width sum.now }
    requires starts { AreDigits width cells.now.state.starts }
    ensures { OnOk result (AreOn width desk.new.ends) }
{
    let _width = cells.width();
    match sum.visit(cells, &mut desk.scratch, &mut desk.ends)? {
        Visited::Refuted => Ok(false),
        Visited::Ends { more } => Ok(more && !desk.ends.literals().is_empty()),
    }
}

/// Cuts the cells by the ends.
fn apply(cells: &mut Cells, ends: &Clause, width: u32) -> Result<(), AllocError>
    requires ends { AreOn width ends.now }
    requires starts { AreDigits width cells.old.state.starts }
    ensures starts { OnOk result (cells.new.state.starts ≡ cells.old.state.starts) }
    ensures longer { OnOk result (length cells.old.state.literals ≤ length cells.new.state.literals) }
{
    for end in ends.literals() {
        narrow(cells, *end, width)?;
    }
    Ok(())
}

/// The first end that is implied, where the box isn't given up.
#[tactic(auto, using(crate::proofs::DigitLaws::digits_fit, crate::proofs::DigitLaws::next_below))]
fn next_end(sum: &Linear, cells: &Cells, width: u32) -> Option<Literal>
    requires sum { IsDigitSum width sum.now }
    requires starts { AreDigits width cells.now.state.starts }
    ensures { IfSome result (λ l. l.var.0 < width) }
{
    let _width = cells.width();
    if sum.refutes(cells) {
        return None;
    }
    sum.next(cells)
}

/// Cuts the cell of the literal's variable.
fn narrow(cells: &mut Cells, literal: Literal, width: u32) -> Result<(), AllocError>
    requires var { literal.var.0 < width }
    requires starts { AreDigits width cells.old.state.starts }
    ensures starts { OnOk result (cells.new.state.starts ≡ cells.old.state.starts) }
    ensures longer { OnOk result (length cells.old.state.literals ≤ length cells.new.state.literals) }
{
    cells.reserve(1)?;
    let _what = cells.narrow(literal);
    Ok(())
}
