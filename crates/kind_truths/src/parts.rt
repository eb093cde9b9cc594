//! The parts of a connective, and what they imply.
ghost use Rattle.std.specs.Prelude.{◌≡◌, ◌<◌, length};
ghost use Rattle.dom_core.specs.Ends.{only};
ghost use Rattle.kind_law.specs.Function.{have_none};
ghost use Rattle.kind_parts.specs.Relation.{number_of};
ghost use Rattle.kind_truths.specs.Operand.{operand_at};
ghost use Rattle.kind_truths.specs.Plan.{both};

use crate::operand::{Operand, is_certain};
use crate::operands::{all_refuted, first_left, some_certain};
use crate::plan::{Aim, Plan};
use crate::probe::{Test, end_by};
use crate::turns::Turns;
use dom_cells::{Cells, Hulls, Region};
use dom_core::{Arg, Clause, Interval, Intervals, Literal};
use kind_law::{Reading, Visited, are_apart, span};
use kind_parts::{first_in_turn, write_ends_in_turn};
use std::alloc::AllocError;
use std::marker::Model;

/// A connective's parts, borrowed.
#[derive(Drop)]
pub struct Parts<'a> {
    pub(crate) operands: &'a [Operand],
    pub(crate) flipped: bool,
    pub(crate) output: Arg,
}

impl<'a> Model for Parts<'a> {
    ghost use Rattle.kind_truths.specs.Connective.{Connective};

    ghost Value = { Connective };

    ghost view = { λ p. record { operands = p.operands.now; flipped = p.flipped; output = p.output } };
}

impl<'a> Parts<'a> {
    ghost use Rattle.std.specs.Prelude.{◌≡◌, ◌<◌, ◌^◌, [], false, true, length, IfOk, OnErr};
    ghost use Rattle.dom_cells.specs.Box.{cell_of};
    ghost use Rattle.dom_core.specs.Ends.{HasBits, IsOrdered};
    ghost use Rattle.kind_law.specs.Argument.{ArgHas, arg_ends};
    ghost use Rattle.kind_law.specs.Laws.{Each, AllBelow, AllSane, hulls};
    ghost use Rattle.kind_parts.specs.Walk.{IsArgEnd};
    ghost use Rattle.kind_truths.specs.Connective.{connective_of, connective_inputs, connective_vars, connective_range, connective_refuted, AreSingle};
    ghost use Rattle.kind_truths.specs.Operand.{operand_at};
    ghost use Rattle.kind_truths.specs.Plan.{IsPlan, IsAimed, IsOpen, IsNextEnd, IsVisitOf, AsksTrue, AsksFalse};

    /// The parts of the connective of these operands.
    pub fn new(operands: &'a [Operand], flipped: bool, output: Arg) -> Parts<'a>
        ensures { result ≡ connective_of operands.now flipped output }
    {
        Parts {
            operands,
            flipped,
            output,
        }
    }

    /// How many operands there are.
    pub(crate) fn count(&self) -> usize
        ensures count { result ≡ length self.now.operands }
        ensures small { result < 2 ^ 63 }
    {
        self.operands.len()
    }

    /// The operand at the place.
    pub(crate) fn operand(&self, place: usize) -> Operand
        requires { place < length self.now.operands }
        ensures { result ≡ operand_at self.now.operands place }
    {
        operand_of(self.operands, place)
    }

    /// The truths under intervals.
    pub fn truths<I: Intervals>(&self, intervals: &I) -> Interval
        requires below { Each (λ u. u.0 < I.width intervals.now) (connective_inputs self.now) }
        requires ready { Each (λ u. I.ready intervals.now u.0) (connective_inputs self.now) }
        ensures range { result ≡ connective_range self.now (I.spans intervals.now) }
        ensures bits { HasBits 1 result }
    {
        if some_certain(self.operands, intervals) {
            return truth(!self.flipped);
        }
        if all_refuted(self.operands, intervals) {
            return truth(self.flipped);
        }
        Interval::new(0, 1)
    }

    /// The interval of the output under intervals.
    pub fn output_span<I: Intervals>(&self, intervals: &I) -> Interval
        requires below { Each (λ u. u.0 < I.width intervals.now) (connective_vars self.now) }
        requires ready { Each (λ u. I.ready intervals.now u.0) (connective_vars self.now) }
        ensures { result ≡ arg_ends (I.spans intervals.now) self.now.output }
    {
        span(self.output, Reading::Values, intervals)
    }

    /// The interval of the output over a box.
    pub(crate) fn span<R: Region>(&self, region: &R) -> Interval
        requires below { AllBelow (R.width region.now) (connective_vars self.now) }
        requires sane { AllSane (R.cells region.now) (connective_vars self.now) }
        ensures { result ≡ arg_ends (hulls (R.cells region.now)) self.now.output }
    {
        self.output_span(&Hulls(region))
    }

    /// Which arguments an end may be implied of.
    fn plan(&self, cells: &Cells) -> Plan
        requires below { AllBelow (length cells.now.state.starts) (connective_vars self.now) }
        requires single { AreSingle self.now }
        ensures { IsPlan self.now (cell_of cells.now.state) result }
    {
        let _width = cells.width();
        let output = self.span(cells);
        let asks_true = is_certain(self.flipped, output);
        if !asks_true && !is_certain(!self.flipped, output) {
            return Plan::Ask(Aim::Open);
        }
        if is_beyond(output) {
            return Plan::Refuted;
        }
        if asks_true {
            return self.plan_true(cells, output);
        }
        self.plan_false(cells)
    }

    /// The same, where the output asks for a true disjunction: it is refuted where no operand is left, and where one is
    /// left, that must be true.
    fn plan_true(&self, cells: &Cells, output: Interval) -> Plan
        requires below { AllBelow (length cells.now.state.starts) (connective_vars self.now) }
        requires single { AreSingle self.now }
        requires output { output ≡ arg_ends (hulls (cell_of cells.now.state)) self.now.output }
        requires asks { AsksTrue self.now (cell_of cells.now.state) }
        ensures { IsPlan self.now (cell_of cells.now.state) result }
    {
        let _width = cells.width();
        let count = self.operands.len();
        let first = first_left(self.operands, 0, &Hulls(cells));
        if first == count {
            return Plan::Refuted;
        }
        if first_left(self.operands, first + 1, &Hulls(cells)) < count {
            return self.rest(cells, output);
        }
        Plan::Ask(Aim::Sole(first))
    }

    /// The same, where the output asks for a false disjunction: it is refuted where an operand is certain, and else each must
    /// be false.
    fn plan_false(&self, cells: &Cells) -> Plan
        requires below { AllBelow (length cells.now.state.starts) (connective_vars self.now) }
        requires single { AreSingle self.now }
        requires asks { AsksFalse self.now (cell_of cells.now.state) }
        ensures { IsPlan self.now (cell_of cells.now.state) result }
    {
        let _width = cells.width();
        if some_certain(self.operands, &Hulls(cells)) {
            return Plan::Refuted;
        }
        Plan::Ask(Aim::Every)
    }

    /// The same, where no end of an operand is implied: a fixed output has none either.
    fn rest(&self, cells: &Cells, output: Interval) -> Plan
        requires output { output ≡ arg_ends (hulls (cell_of cells.now.state)) self.now.output }
        requires open { IsOpen self.now (cell_of cells.now.state) }
        ensures { IsPlan self.now (cell_of cells.now.state) result }
    {
        let _width = cells.width();
        if output.lo() == output.hi() {
            return Plan::Quiet;
        }
        Plan::Ask(Aim::Open)
    }

    /// The implied end of the output, where that is a variable.
    pub(crate) fn output_end(&self, cells: &Cells) -> Option<Literal>
        requires below { AllBelow (length cells.now.state.starts) (connective_vars self.now) }
        requires single { AreSingle self.now }
        ensures { IsArgEnd (connective_refuted self.now) (cell_of cells.now.state) self.now.output result }
    {
        let _width = cells.width();
        match self.output {
            Arg::Const(_) => None,
            Arg::Var(var) => {
                let other = self.truths(&Hulls(cells));
                end_by(self, cells, var, Test::Apart { other })
            }
        }
    }

    /// The first implied end.
    pub fn next(&self, cells: &Cells) -> Option<Literal>
        requires below { AllBelow (length cells.now.state.starts) (connective_vars self.now) }
        requires single { AreSingle self.now }
        requires quiet { connective_refuted self.now (cell_of cells.now.state) ≡ false }
        ensures { IsNextEnd self.now cells.now.state result }
    {
        match self.plan(cells) {
            Plan::Refuted => None,
            Plan::Quiet => None,
            Plan::Ask(aim) => self.next_by(cells, aim),
        }
    }

    /// The first implied end, the arguments being taken in turn.
    fn next_by(&self, cells: &Cells, aim: Aim) -> Option<Literal>
        requires aimed { IsAimed self.now cells.now.state aim }
        ensures { IsNextEnd self.now cells.now.state result }
    {
        let turns = Turns { parts: self, aim };
        first_in_turn(&turns, cells)
    }

    /// Tells at once that the cells are given up, or all implied ends.
    pub fn visit(&self, cells: &Cells, ends: &mut Clause) -> Result<Visited, AllocError>
        requires below { AllBelow (length cells.now.state.starts) (connective_vars self.now) }
        requires single { AreSingle self.now }
        ensures visited { IfOk result (λ v. IsVisitOf self.now cells.now.state v ends.new) }
        ensures none { OnErr result (ends.new ≡ []) }
    {
        ends.clear();
        match self.plan(cells) {
            Plan::Refuted => Ok(Visited::Refuted),
            Plan::Quiet => Ok(Visited::Ends { more: false }),
            Plan::Ask(aim) => self.tell_ends(cells, aim, ends),
        }
    }

    /// Tells all implied ends in an empty clause, the arguments being taken in turn.
    fn tell_ends(&self, cells: &Cells, aim: Aim, ends: &mut Clause) -> Result<Visited, AllocError>
        requires aimed { IsAimed self.now cells.now.state aim }
        requires quiet { connective_refuted self.now (cell_of cells.now.state) ≡ false }
        requires empty { ends.old ≡ [] }
        ensures visited { IfOk result (λ v. IsVisitOf self.now cells.now.state v ends.new) }
        ensures none { OnErr result (ends.new ≡ []) }
    {
        let turns = Turns { parts: self, aim };
        if let Err(error) = write_ends_in_turn(&turns, cells, ends) {
            ends.clear();
            return Err(error);
        }
        Ok(Visited::Ends {
            more: !ends.literals().is_empty(),
        })
    }
}

/// The operand at the place.
fn operand_of(operands: &[Operand], place: usize) -> Operand
    requires { place < length operands.now }
    ensures { result ≡ operand_at operands.now place }
{
    operands[place]
}

/// The interval of a truth.
pub fn truth(value: bool) -> Interval
    ensures { result ≡ only (number_of value) }
{
    if value {
        return Interval::new(1, 1);
    }
    Interval::new(0, 0)
}

/// Whether no truth lies in the interval.
fn is_beyond(interval: Interval) -> bool
    ensures { result ≡ have_none both interval }
{
    are_apart(Interval::new(0, 1), interval)
}
