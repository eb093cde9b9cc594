//! Sums of which the interval is known: the ends that they imply for one variable.
use crate::reach::{Pull, reach};
use crate::sum_relation::SumRelation;
use dom_cells::Cells;
use dom_core::{Interval, Literal, VarId};
use kind_law::{Side, distance, end_by_steps};

/// A linear relation with the interval of its sum over a box, and the coefficient of one of its variables.
#[derive(Drop)]
pub(crate) struct Slack<'a> {
    pub(crate) linear: &'a SumRelation,
    pub(crate) coef: i64,
    pub(crate) total: Interval,
}

impl Slack<'_> {
    ghost use Rattle.std.specs.Prelude.{◌≡◌, ◌<◌, length, false};
    ghost use Rattle.dom_cells.specs.Box.{cell_of, IsBox};
    ghost use Rattle.kind_law.specs.Laws.{AllBelow};
    ghost use Rattle.kind_law.specs.Next.{size_of, IsFirstEnd, IsImpliedLow, IsImpliedHigh};
    ghost use Rattle.kind_sum.specs.SumRelation.{sum_vars, sum_refuted};
    ghost use Rattle.kind_sum.specs.Reach.{is_pulled_off};
    ghost use Rattle.kind_law.specs.Steps.{IsStepReach};
    ghost use Rattle.kind_sum.specs.Slack.{IsSlack, pull_of};

    /// The end of the variable's cell that is implied, the lower one first.
    pub(crate) fn first_end(&self, cells: &Cells, var: VarId) -> Option<Literal>
        requires var { var.0 < length cells.now.state.starts }
        requires below { AllBelow (length cells.now.state.starts) (sum_vars self.now.linear.now) }
        requires slack { IsSlack self.now.linear.now self.now.coef self.now.total (cell_of cells.now.state)
            var }
        requires quiet { sum_refuted self.now.linear.now (cell_of cells.now.state) ≡ false }
        ensures { IsFirstEnd (sum_refuted self.now.linear.now) (cell_of cells.now.state) var result }
    {
        if let Some(end) = self.low_end(cells, var) {
            return Some(end);
        }
        self.high_end(cells, var)
    }

    /// The implied lower end: the cell may not lose more of its greatest values.
    fn low_end(&self, cells: &Cells, var: VarId) -> Option<Literal>
        requires var { var.0 < length cells.now.state.starts }
        requires below { AllBelow (length cells.now.state.starts) (sum_vars self.now.linear.now) }
        requires slack { IsSlack self.now.linear.now self.now.coef self.now.total (cell_of cells.now.state)
            var }
        requires quiet { sum_refuted self.now.linear.now (cell_of cells.now.state) ≡ false }
        ensures { IsImpliedLow (sum_refuted self.now.linear.now) (cell_of cells.now.state) var result }
    {
        let steps = self.reach(cells, var, self.coef < 0);
        end_by_steps(cells, var, Side::Low, steps)
    }

    /// The implied upper end: the cell may not lose more of its least values.
    fn high_end(&self, cells: &Cells, var: VarId) -> Option<Literal>
        requires var { var.0 < length cells.now.state.starts }
        requires below { AllBelow (length cells.now.state.starts) (sum_vars self.now.linear.now) }
        requires slack { IsSlack self.now.linear.now self.now.coef self.now.total (cell_of cells.now.state)
            var }
        requires quiet { sum_refuted self.now.linear.now (cell_of cells.now.state) ≡ false }
        ensures { IsImpliedHigh (sum_refuted self.now.linear.now) (cell_of cells.now.state) var result }
    {
        let steps = self.reach(cells, var, 0 <= self.coef);
        end_by_steps(cells, var, Side::High, steps)
    }

    /// How many steps an end of the variable may move in, where the least sum rises by it, or else the greatest falls.
    fn reach(&self, cells: &Cells, var: VarId, rises: bool) -> Option<u64>
        requires var { var.0 < length cells.now.state.starts }
        requires below { AllBelow (length cells.now.state.starts) (sum_vars self.now.linear.now) }
        requires slack { IsSlack self.now.linear.now self.now.coef self.now.total (cell_of cells.now.state)
            var }
        requires quiet { sum_refuted self.now.linear.now (cell_of cells.now.state) ≡ false }
        ensures reach { IsStepReach (is_pulled_off self.now.linear.now.relation self.now.total
            self.now.linear.now.bound (pull_of rises self.now.coef (cell_of cells.now.state var.0)))
            (size_of (cell_of cells.now.state var.0)) result }
        ensures sound { IsBox cells.now.state }
    {
        let pull = Pull {
            rises,
            size: self.coef.unsigned_abs(),
            steps: distance(cells, var),
        };
        reach(
            self.linear.relation(),
            self.total,
            self.linear.bound(),
            pull,
        )
    }
}
