//! A round: the variables of a sum are fixed one after the other, and all is taken back.
ghost use Rattle.std.specs.Prelude.{◌≡◌, ◌≤◌, ◌<◌, ◌+◌, [], false, true, OnOk};
ghost use Rattle.bench_linear.specs.Digits.{AreDigits, IsDigitSum, Extends, room_of};
ghost use Rattle.dom_cells.specs.Box.{cell_of};
ghost use Rattle.kind_sum.specs.SumRelation.{sum_refuted};

use crate::counts::Counts;
use crate::digits::{WIDTH, digit};
use dom_cells::{Cells, Narrowed};
use dom_core::{Clause, Literal, Rel, VarId};
use kind_law::{Kind, Propagate};
use kind_linear::Linear;
use std::alloc::AllocError;

/// After so many variables each the sum is asked what it implies.
const ASKED: u32 = 10;

/// One round, after which the box is as it was.
pub(crate) fn go_round(
    sum: &Linear,
    cells: &mut Cells,
    number: u32,
    out: &mut Clause,
    counts: &mut Counts,
) -> Result<(), AllocError>
    requires number { number < 1000 }
    requires sum { IsDigitSum 1000 sum.now }
    requires starts { AreDigits 1000 cells.old.state.starts }
    requires room { 1000 ≤ cells.old.spare }
    ensures starts { OnOk result (cells.new.state.starts ≡ cells.old.state.starts) }
    ensures literals { OnOk result (cells.new.state.literals ≡ cells.old.state.literals) }
    ensures room { OnOk result (cells.new.spare ≡ cells.old.spare) }
{
    let mark = cells.mark();
    fix_all(sum, cells, number, out, counts)?;
    cells.undo(mark);
    counts.rounds = counts.rounds.saturating_add(1);
    Ok(())
}

/// Fixes the variables in turn, up to the first with which the box is given up.
fn fix_all(
    sum: &Linear,
    cells: &mut Cells,
    number: u32,
    out: &mut Clause,
    counts: &mut Counts,
) -> Result<(), AllocError>
    requires number { number < 1000 }
    requires sum { IsDigitSum 1000 sum.now }
    requires starts { AreDigits 1000 cells.old.state.starts }
    requires room { 1000 ≤ cells.old.spare }
    ensures starts { OnOk result (cells.new.state.starts ≡ cells.old.state.starts) }
    ensures literals { OnOk result (Extends cells.old.state.literals cells.new.state.literals) }
    ensures room { OnOk result (room_of cells.new ≡ room_of cells.old) }
{
    for at in 0..WIDTH {
        if fix(cells, at, digit(at, number)) {
            counts.narrowings = counts.narrowings.saturating_add(1);
        }
        if is_refuted(sum, cells) {
            counts.refuted = counts.refuted.saturating_add(1);
            return Ok(());
        }
        if at % ASKED == ASKED - 1 {
            ask(sum, cells, out, counts)?;
        }
    }
    Ok(())
}

/// Cuts the variable's cell down to one value, and tells whether that changed it.
fn fix(cells: &mut Cells, at: u32, value: i64) -> bool
    requires at { at < 1000 }
    requires starts { AreDigits 1000 cells.old.state.starts }
    requires room { 0 < cells.old.spare }
    ensures starts { cells.new.state.starts ≡ cells.old.state.starts }
    ensures literals { Extends cells.old.state.literals cells.new.state.literals }
    ensures spare { cells.old.spare ≤ cells.new.spare + 1 }
    ensures room { room_of cells.new ≡ room_of cells.old }
{
    let narrowed = cells.narrow(Literal {
        var: VarId(at),
        rel: Rel::Eq,
        value,
    });
    narrowed == Narrowed::Changed
}

/// Whether the sum gives the box up.
#[tactic(auto, using(crate::proofs::DigitLaws::digits_fit))]
fn is_refuted(sum: &Linear, cells: &Cells) -> bool
    requires sum { IsDigitSum 1000 sum.now }
    requires starts { AreDigits 1000 cells.now.state.starts }
    ensures { result ≡ sum_refuted sum.now (cell_of cells.now.state) }
{
    let _width = cells.width();
    sum.refutes(cells)
}

/// Asks for the first implied end, and where there is one, why.
#[tactic(auto, using(crate::proofs::DigitLaws::digits_fit))]
fn ask(sum: &Linear, cells: &Cells, out: &mut Clause, counts: &mut Counts) -> Result<(), AllocError>
    requires sum { IsDigitSum 1000 sum.now }
    requires starts { AreDigits 1000 cells.now.state.starts }
    requires quiet { sum_refuted sum.now (cell_of cells.now.state) ≡ false }
{
    let _width = cells.width();
    let implied = sum.next(cells);
    if let Some(literal) = implied {
        sum.reason(cells, Some(literal), out)?;
        counts.ends = counts.ends.saturating_add(1);
        counts.literals = counts.literals.saturating_add(out.len() as u64);
    }
    Ok(())
}

/// Whether each variable has its first and its last digit.
pub(crate) fn is_whole(cells: &Cells) -> bool
    requires { AreDigits 1000 cells.now.state.starts }
    ensures { cells.now.state.literals ≡ [] → result ≡ true }
{
    for at in 0..WIDTH {
        if cells.lo(VarId(at)) != 0 || cells.hi(VarId(at)) != 9 {
            return false;
        }
    }
    true
}
