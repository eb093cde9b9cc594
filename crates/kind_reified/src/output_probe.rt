//! Truths that are known: what one bound makes of their output.
use dom_cells::{Cells, Hulls, Kept};
use dom_core::{Interval, Intervals, Literal, VarId};
use kind_law::{Probe, are_apart};
use kind_sum::SumRelation;

/// The truths of a sum over a box, asked about the output, which is none of the sum's variables.
#[derive(Drop)]
pub(crate) struct OutputProbe<'a> {
    pub(crate) linear: &'a SumRelation,
    pub(crate) output: VarId,
    pub(crate) truth: Interval,
}

impl Probe for OutputProbe<'_> {
    ghost use Rattle.std.specs.Prelude.{false};
    ghost use Rattle.dom_core.specs.declared.arg.Arg.TheVariants.{Var};
    ghost use Rattle.dom_cells.specs.Box.{cell_of};
    ghost use Rattle.kind_reified.specs.LinearReified.{truth_of, reified_vars, reified_refuted};
    ghost use Rattle.kind_reified.specs.LinearReifiedLaws.{reified-shrink};
    ghost use Rattle.kind_reified.specs.TruthNext.{IsTruthOf};

    ghost vars = { λ p. reified_vars (truth_of p.linear.now (Var p.output)) };

    ghost inside = { λ p v. false };

    ghost refuted = { λ p. reified_refuted (truth_of p.linear.now (Var p.output)) };

    ghost answers = { λ p m u. IsTruthOf (truth_of p.linear.now (Var p.output)) p.truth (cell_of m) u };

    fn is_refuted_within(&self, cells: &Cells, literal: Literal) -> bool {
        let kept = Kept { cells, literal };
        are_apart(self.truth, Hulls(&kept).interval(self.output))
    }

    ghost shrink_law = { λ p. reified-shrink (truth_of p.linear.now (Var p.output)) };
}
