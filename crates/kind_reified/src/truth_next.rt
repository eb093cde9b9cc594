//! Truths of sums of which the intervals are known: the ends that they imply.
ghost use Rattle.std.specs.Prelude.{◌≡◌};
ghost use Rattle.kind_reified.specs.TruthNext.{is_known, is_open};

use crate::output_probe::OutputProbe;
use crate::truth_probe::TruthProbe;
use dom_cells::Cells;
use dom_core::{Arg, Clause, Interval, Literal};
use kind_law::{Visited, add_implied, first_end};
use kind_parts::{Places, first_in_turn, write_ends_in_turn};
use kind_sum::SumRelation;
use std::alloc::AllocError;

/// A truth that stands, with the intervals of its sum and of its output over a box.
#[derive(Drop)]
pub(crate) struct TruthSpans<'a> {
    pub(crate) linear: &'a SumRelation,
    pub(crate) output: Arg,
    pub(crate) total: Interval,
    pub(crate) span: Interval,
}

/// The terms of the sum. The output isn't one of them.
impl Places for TruthSpans<'_> {
    ghost use Rattle.kind_sum.specs.Sum.{args_of};
    ghost use Rattle.kind_reified.specs.LinearReified.{truth_of, reified_refuted};
    ghost use Rattle.kind_reified.specs.TruthNext.{IsTruthStanding};

    ghost args = { λ s. args_of s.linear.now.terms };

    ghost refuted = { λ s. reified_refuted (truth_of s.linear.now s.output) };

    ghost answers = { λ s m. IsTruthStanding (truth_of s.linear.now s.output) s.total s.span m };

    fn len(&self) -> usize {
        self.linear.terms().len()
    }

    fn end_at(&self, cells: &Cells, place: usize) -> Option<Literal> {
        let term = self.linear.terms()[place];
        match term.arg {
            Arg::Const(_) => None,
            Arg::Var(var) => {
                let probe = TruthProbe {
                    linear: self.linear,
                    output: self.output,
                    coef: term.coef,
                    total: self.total,
                    span: self.span,
                };
                first_end(&probe, cells, var)
            }
        }
    }
}

impl TruthSpans<'_> {
    ghost use Rattle.std.specs.Prelude.{◌≡◌, [], length, IfOk, OnErr, OnOk};
    ghost use Rattle.dom_core.specs.Ends.{HasBits};
    ghost use Rattle.dom_cells.specs.Box.{cell_of};
    ghost use Rattle.kind_law.specs.Next.{IsNext};
    ghost use Rattle.kind_law.specs.Visit.{AreEnds, IsVisited};
    ghost use Rattle.kind_parts.specs.Relation.{truth_over};
    ghost use Rattle.kind_parts.specs.Walk.{IsArgEnd};
    ghost use Rattle.kind_sum.specs.SumRelation.{sum_vars};
    ghost use Rattle.kind_reified.specs.LinearReified.{truth_of, reified_refuted, reified_vars};
    ghost use Rattle.kind_reified.specs.TruthNext.{IsTruthStanding, is_idle};

    /// The truths of the sum.
    pub(crate) fn truth(&self) -> Interval
        ensures truth { result ≡ truth_over self.now.linear.now.relation self.now.total
            self.now.linear.now.bound }
        ensures bits { HasBits 1 result }
    {
        self.linear.truth(self.total)
    }

    /// Whether no bound on a variable of the sum can refute the truth: the output is open, or the truth is known.
    fn is_idle(&self) -> bool
        ensures { result ≡ is_idle self.now.linear.now self.now.total self.now.span }
    {
        is_open(self.span) || is_known(self.truth())
    }

    /// The first implied end of the sum's variables.
    pub(crate) fn term_end(&self, cells: &Cells) -> Option<Literal>
        requires { IsTruthStanding (truth_of self.now.linear.now self.now.output) self.now.total self.now.span
            cells.now.state }
        ensures { IsNext (reified_refuted (truth_of self.now.linear.now self.now.output))
            (sum_vars self.now.linear.now) (cell_of cells.now.state) result }
    {
        let _width = cells.width();
        if self.is_idle() {
            return None;
        }
        first_in_turn(self, cells)
    }

    /// The implied end of the output, where that is a variable. No sum is made for it.
    pub(crate) fn output_end(&self, cells: &Cells) -> Option<Literal>
        requires { IsTruthStanding (truth_of self.now.linear.now self.now.output) self.now.total self.now.span
            cells.now.state }
        ensures { IsArgEnd (reified_refuted (truth_of self.now.linear.now self.now.output))
            (cell_of cells.now.state) self.now.output result }
    {
        match self.output {
            Arg::Const(_) => None,
            Arg::Var(var) => {
                let probe = OutputProbe {
                    linear: self.linear,
                    output: var,
                    truth: self.truth(),
                };
                first_end(&probe, cells, var)
            }
        }
    }

    /// Tells all implied ends in an empty clause, the output's last.
    pub(crate) fn tell_ends(&self, cells: &Cells, ends: &mut Clause) -> Result<Visited, AllocError>
        requires standing { IsTruthStanding (truth_of self.now.linear.now self.now.output) self.now.total
            self.now.span cells.now.state }
        requires empty { ends.old ≡ [] }
        ensures visited { IfOk result (λ v. IsVisited
            (reified_refuted (truth_of self.now.linear.now self.now.output))
            (reified_vars (truth_of self.now.linear.now self.now.output))
            (cell_of cells.now.state) (length cells.now.state.starts) v ends.new) }
        ensures none { OnErr result (ends.new ≡ []) }
    {
        if let Err(error) = self.write_ends(cells, ends) {
            ends.clear();
            return Err(error);
        }
        Ok(Visited::Ends {
            more: !ends.literals().is_empty(),
        })
    }

    /// Writes for each variable the end that is implied, the lower one first, that of the output last.
    fn write_ends(&self, cells: &Cells, ends: &mut Clause) -> Result<(), AllocError>
        requires standing { IsTruthStanding (truth_of self.now.linear.now self.now.output) self.now.total
            self.now.span cells.now.state }
        requires empty { ends.old ≡ [] }
        ensures { OnOk result (AreEnds (reified_refuted (truth_of self.now.linear.now self.now.output))
            (reified_vars (truth_of self.now.linear.now self.now.output)) (cell_of cells.now.state)
            (length cells.now.state.starts) ends.new) }
    {
        let _width = cells.width();
        self.write_term_ends(cells, ends)?;
        let end = self.output_end(cells);
        add_implied(end, ends)?;
        Ok(())
    }

    /// Writes for each variable of the sum the end that is implied, the lower one first. No term is asked where none has
    /// one.
    fn write_term_ends(&self, cells: &Cells, out: &mut Clause) -> Result<(), AllocError>
        requires standing { IsTruthStanding (truth_of self.now.linear.now self.now.output) self.now.total
            self.now.span cells.now.state }
        requires empty { out.old ≡ [] }
        ensures { OnOk result (AreEnds (reified_refuted (truth_of self.now.linear.now self.now.output))
            (sum_vars self.now.linear.now) (cell_of cells.now.state) (length cells.now.state.starts)
            out.new) }
    {
        let _width = cells.width();
        if self.is_idle() {
            return Ok(());
        }
        write_ends_in_turn(self, cells, out)
    }
}

/// Whether the output may still be 0 and may still be 1, as far as its ends tell.
fn is_open(output: Interval) -> bool
    ensures { result ≡ is_open output }
{
    output.lo() <= 0 && 1 <= output.hi()
}

/// Whether there is one truth alone.
fn is_known(truth: Interval) -> bool
    ensures { result ≡ is_known truth }
{
    truth.lo() == truth.hi()
}
