//! Reasons of connectives: the output and the operands that count, one end of each.
ghost use Rattle.std.specs.Prelude.{◌≡◌, ◌<◌, length, OnOk};
ghost use Rattle.dom_cells.specs.Box.{cell_of};
ghost use Rattle.kind_law.specs.Argument.{ArgHas};
ghost use Rattle.kind_law.specs.Reason.{AddsFine, IsOpen};
ghost use Rattle.kind_truths.specs.Told.{IsCertainIn, IsToldCertain};

use crate::operand::{is_certain, turned};
use crate::operands::{all_refuted, first_certain};
use crate::parts::Parts;
use dom_cells::{Cells, Hulls, Region};
use dom_core::{Arg, Clause, Literal};
use kind_law::{Asked, Side, add_implied, explain_at};
use std::alloc::AllocError;

/// Why a connective is refuted: each operand is, or the one at the place is certain.
#[derive(Clone, Copy)]
pub enum Verdict {
    All,
    One(usize),
}

impl<'a> Parts<'a> {
    ghost use Rattle.std.specs.Prelude.{◌≡◌, ◌<◌, [], length, OnOk, MatchOption};
    ghost use Rattle.dom_cells.specs.Box.{cell_of};
    ghost use Rattle.kind_law.specs.Laws.{AllBelow, AllSane};
    ghost use Rattle.kind_law.specs.Reason.{AddsFine, IsCause, IsOpen, IsRead, IsReason, asked};
    ghost use Rattle.kind_truths.specs.Connective.{connective_vars, connective_refuted};
    ghost use Rattle.kind_truths.specs.Told.{IsVerdict, RefutesAll, RefutesOne, IsCertainIn, IsOperandCertain, IsToldCertain, TellsOperand, AreAllToldRefuted};

    /// Why the cells, or those of them in which the implied end fails, are refuted, where the output asks for a truth.
    pub fn verdict(&self, cells: &Cells, implied: Option<Literal>) -> Option<Verdict>
        requires below { AllBelow (length cells.now.state.starts) (connective_vars self.now) }
        requires open { IsOpen (cell_of cells.now.state) implied }
        requires var { IsRead (length cells.now.state.starts) implied }
        ensures { MatchOption result (Unit {0}) (IsVerdict self.now (asked cells.now.state implied)) }
    {
        let _width = cells.width();
        let region = Asked::new(cells, implied);
        self.verdict_in(&region)
    }

    /// Why the box is refuted, where the output asks for a truth.
    fn verdict_in<R: Region>(&self, region: &R) -> Option<Verdict>
        requires below { AllBelow (R.width region.now) (connective_vars self.now) }
        requires sane { AllSane (R.cells region.now) (connective_vars self.now) }
        ensures { MatchOption result (Unit {0}) (IsVerdict self.now (R.cells region.now)) }
    {
        let output = self.span(region);
        if is_certain(self.flipped, output) && all_refuted(self.operands, &Hulls(region)) {
            return Some(Verdict::All);
        }
        if !is_certain(!self.flipped, output) {
            return None;
        }
        match first_certain(self.operands, &Hulls(region)) {
            None => None,
            Some(place) => Some(Verdict::One(place)),
        }
    }

    /// Writes the reason into an empty clause.
    pub fn write_reason(
        &self,
        cells: &Cells,
        implied: Option<Literal>,
        verdict: Verdict,
        out: &mut Clause,
    ) -> Result<(), AllocError>
        requires below { AllBelow (length cells.now.state.starts) (connective_vars self.now) }
        requires cause { IsCause (connective_refuted self.now) (cell_of cells.now.state) implied }
        requires var { IsRead (length cells.now.state.starts) implied }
        requires verdict { IsVerdict self.now (asked cells.now.state implied) verdict }
        requires empty { out.old ≡ [] }
        ensures { OnOk result (IsReason (connective_refuted self.now) cells.now.state implied out.new) }
    {
        match verdict {
            Verdict::All => self.write_all(cells, implied, out),
            Verdict::One(place) => self.write_one(cells, implied, place, out),
        }
    }

    /// Writes that each operand is refuted.
    fn write_all(
        &self,
        cells: &Cells,
        implied: Option<Literal>,
        out: &mut Clause,
    ) -> Result<(), AllocError>
        requires below { AllBelow (length cells.now.state.starts) (connective_vars self.now) }
        requires cause { IsCause (connective_refuted self.now) (cell_of cells.now.state) implied }
        requires var { IsRead (length cells.now.state.starts) implied }
        requires all { RefutesAll self.now (asked cells.now.state implied) }
        requires empty { out.old ≡ [] }
        ensures { OnOk result (IsReason (connective_refuted self.now) cells.now.state implied out.new) }
    {
        let _width = cells.width();
        self.tell_output(self.flipped, cells, implied, out)?;
        self.explain_refuted(cells, implied, out)?;
        add_implied(implied, out)?;
        Ok(())
    }

    /// Writes that the operand at the place is certain.
    fn write_one(
        &self,
        cells: &Cells,
        implied: Option<Literal>,
        place: usize,
        out: &mut Clause,
    ) -> Result<(), AllocError>
        requires below { AllBelow (length cells.now.state.starts) (connective_vars self.now) }
        requires cause { IsCause (connective_refuted self.now) (cell_of cells.now.state) implied }
        requires var { IsRead (length cells.now.state.starts) implied }
        requires one { RefutesOne self.now (asked cells.now.state implied) place }
        requires empty { out.old ≡ [] }
        ensures { OnOk result (IsReason (connective_refuted self.now) cells.now.state implied out.new) }
    {
        let _width = cells.width();
        self.tell_output(!self.flipped, cells, implied, out)?;
        self.tell_operand(place, false, cells, implied, out)?;
        add_implied(implied, out)?;
        Ok(())
    }

    /// Tells of each operand that it is refuted.
    fn explain_refuted(
        &self,
        cells: &Cells,
        implied: Option<Literal>,
        out: &mut Clause,
    ) -> Result<(), AllocError>
        requires below { AllBelow (length cells.now.state.starts) (connective_vars self.now) }
        requires open { IsOpen (cell_of cells.now.state) implied }
        requires all { RefutesAll self.now (asked cells.now.state implied) }
        ensures fine { OnOk result (AddsFine cells.now.state out.old out.new) }
        ensures told { OnOk result (AreAllToldRefuted self.now cells.now.state implied out.new) }
    {
        for at in 0..self.count() {
            self.tell_operand(at, true, cells, implied, out)?;
        }
        Ok(())
    }

    /// Tells that the output is a true truth, or, where it is negated, a false one.
    fn tell_output(
        &self,
        negated: bool,
        cells: &Cells,
        implied: Option<Literal>,
        out: &mut Clause,
    ) -> Result<(), AllocError>
        requires below { AllBelow (length cells.now.state.starts) (connective_vars self.now) }
        requires open { IsOpen (cell_of cells.now.state) implied }
        requires certain { IsCertainIn cells.now.state implied negated self.now.output }
        ensures fine { OnOk result (AddsFine cells.now.state out.old out.new) }
        ensures told { OnOk result (IsToldCertain negated cells.now.state implied out.new self.now.output) }
    {
        tell_certain(self.output, negated, cells, implied, out)
    }

    /// Tells that the operand at the place is certain, or, where it is flipped, refuted.
    fn tell_operand(
        &self,
        place: usize,
        flipped: bool,
        cells: &Cells,
        implied: Option<Literal>,
        out: &mut Clause,
    ) -> Result<(), AllocError>
        requires place { place < length self.now.operands }
        requires below { AllBelow (length cells.now.state.starts) (connective_vars self.now) }
        requires open { IsOpen (cell_of cells.now.state) implied }
        requires certain { IsOperandCertain self.now cells.now.state implied flipped place }
        ensures fine { OnOk result (AddsFine cells.now.state out.old out.new) }
        ensures told { OnOk result (TellsOperand self.now cells.now.state implied out.new flipped place) }
    {
        let operand = self.operand(place);
        let negated = turned(flipped, operand.negated);
        tell_certain(operand.arg, negated, cells, implied, out)
    }
}

/// Tells that the argument is true, or, where it is negated, false.
fn tell_certain(
    arg: Arg,
    negated: bool,
    cells: &Cells,
    implied: Option<Literal>,
    out: &mut Clause,
) -> Result<(), AllocError>
    requires below { ArgHas (λ u. u.0 < length cells.now.state.starts) arg }
    requires open { IsOpen (cell_of cells.now.state) implied }
    requires certain { IsCertainIn cells.now.state implied negated arg }
    ensures fine { OnOk result (AddsFine cells.now.state out.old out.new) }
    ensures told { OnOk result (IsToldCertain negated cells.now.state implied out.new arg) }
{
    match arg {
        Arg::Const(_) => Ok(()),
        Arg::Var(var) => {
            if negated {
                explain_at(cells, implied, Side::High, var, 0, out)
            } else {
                explain_at(cells, implied, Side::Low, var, 1, out)
            }
        }
    }
}
