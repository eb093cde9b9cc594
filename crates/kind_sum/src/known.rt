//! Sums of which the interval is known: the ends that they imply, the terms being taken in turn.
use crate::slack::Slack;
use crate::sum_relation::SumRelation;
use dom_cells::Cells;
use dom_core::{Arg, Interval, Literal};
use kind_parts::Places;

/// A sum that stands, with its interval over a box.
#[derive(Drop)]
pub(crate) struct KnownSum<'a> {
    pub(crate) sum: &'a SumRelation,
    pub(crate) total: Interval,
}

impl Places for KnownSum<'_> {
    ghost use Rattle.kind_sum.specs.Sum.{args_of};
    ghost use Rattle.kind_sum.specs.SumRelation.{sum_refuted};
    ghost use Rattle.kind_sum.specs.Slack.{IsStanding};

    ghost args = { λ s. args_of s.sum.now.terms };

    ghost refuted = { λ s. sum_refuted s.sum.now };

    ghost answers = { λ s m. IsStanding s.sum.now s.total m };

    fn len(&self) -> usize {
        self.sum.terms().len()
    }

    fn end_at(&self, cells: &Cells, place: usize) -> Option<Literal> {
        let term = self.sum.terms()[place];
        match term.arg {
            Arg::Const(_) => None,
            Arg::Var(var) => {
                let slack = Slack {
                    linear: self.sum,
                    coef: term.coef,
                    total: self.total,
                };
                slack.first_end(cells, var)
            }
        }
    }
}
