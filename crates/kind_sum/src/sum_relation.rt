//! Sums that are compared with a number.
ghost use Rattle.std.specs.Prelude.{◌≡◌, ◌&&◌, not, IfOk, length};
ghost use Rattle.kind_law.specs.declared.visited.Visited.TheVariants.{Ends};
ghost use Rattle.kind_sum.specs.Sum.{terms_of};
ghost use Rattle.kind_sum.specs.Place.{can_define};
ghost use Rattle.kind_sum.specs.SumRelation.{may_follow, stays_by};

use crate::explained::write_sum_reason;
use crate::known::KnownSum;
use crate::term::{Term, is_unit, pair_up};
use crate::terms::{is_alone, term_vars};
use crate::total::total_of;
use crate::width::is_wide;
use dom_cells::{Cells, Hulls, Point, Region};
use dom_core::{
    After, Arg, Assignment, Changes, Clause, Interval, Intervals, Literal, Relation, VarId, View,
};
use kind_law::{Kind, Propagate, Reading, Scratch, Visited, next_of, reason_of, visit_of};
use kind_parts::{
    first_in_turn, is_certain, is_difference, is_equality, is_met, is_only, is_refuted, truth_over,
    write_ends_in_turn,
};
use std::alloc::{AllocError, Global};
use std::marker::Model;

/// A sum of variables and constants with coefficients, compared with a number.
#[derive(Drop)]
pub struct SumRelation {
    terms: Vec<Term>,
    relation: Relation,
    bound: i64,
    vars: Vec<VarId>,
    single: bool,
}

impl Model for SumRelation {
    ghost use Rattle.kind_sum.specs.SumRelation.{SumRelation};
    ghost use Rattle.kind_sum.specs.Slack.{IsKept};

    ghost Value = { SumRelation };

    ghost view = { λ k. record { terms = k.terms.items; relation = k.relation; bound = k.bound } };

    ghost invariant = { λ k. IsKept k.vars.items k.single
        (record { terms = k.terms.items; relation = k.relation; bound = k.bound }) };
}

impl SumRelation {
    ghost use Rattle.std.specs.Prelude.{◌≡◌, ◌<◌, ◌≤◌, ◌^◌, false, true, IfOk, OnOk, OnErr, []};
    ghost use Rattle.kind_law.specs.Visit.{IsVisited};
    ghost use Rattle.dom_cells.specs.Box.{cell_of};
    ghost use Rattle.kind_law.specs.Laws.{Each, AllBelow, hulls};
    ghost use Rattle.kind_sum.specs.SumRelation.{sum_vars, sum_refuted, SumFits};
    ghost use Rattle.dom_core.specs.Ends.{HasBits};
    ghost use Rattle.kind_parts.specs.Relation.{truth_over};
    ghost use Rattle.kind_sum.specs.Slack.{HasSingles};
    ghost use Rattle.kind_law.specs.Argument.{arg_span, arg_ends};
    ghost use Rattle.kind_sum.specs.Sum.{total, magnitude};

    /// The relation of the sum of the arguments, each times its coefficient, to the bound.
    pub fn new(
        alloc: Global,
        coefs: &[i64],
        args: &[Arg],
        relation: Relation,
        bound: i64,
    ) -> Result<SumRelation, AllocError>
        requires { length coefs.now ≡ length args.now }
        ensures { IfOk result (λ k. k
            ≡ record { terms = terms_of coefs.now args.now; relation = relation; bound = bound }) }
    {
        let terms = pair_up(alloc, coefs, args)?;
        let vars = term_vars(alloc, terms.as_slice())?;
        let single = vars.is_single();
        Ok(SumRelation {
            terms,
            relation,
            bound,
            vars: vars.into_vars(),
            single,
        })
    }

    /// The terms of the sum.
    pub fn terms(&self) -> &[Term]
        ensures { result.now ≡ self.now.terms }
    {
        self.terms.as_slice()
    }

    pub fn bound(&self) -> i64
        ensures { result ≡ self.now.bound }
    {
        self.bound
    }

    pub fn relation(&self) -> Relation
        ensures { result ≡ self.now.relation }
    {
        self.relation
    }

    /// Whether no variable is known to come twice.
    pub fn is_single(&self) -> bool
        ensures { result ≡ true → HasSingles self.now }
    {
        self.single
    }

    /// The sum under intervals.
    pub fn total<I: Intervals>(&self, reading: Reading, intervals: &I) -> Interval
        requires below { Each (λ u. u.0 < I.width intervals.now) (sum_vars self.now) }
        requires ready { Each (λ u. I.ready intervals.now u.0) (sum_vars self.now) }
        requires fits { magnitude self.now.terms (arg_span reading (I.spans intervals.now)) ≤ 2 ^ 102 }
        ensures { result ≡ total self.now.terms (arg_span reading (I.spans intervals.now)) }
    {
        total_of(self.terms.as_slice(), reading, intervals)
    }

    /// The truths of sums within the interval.
    pub fn truth(&self, total: Interval) -> Interval
        ensures truth { result ≡ truth_over self.now.relation total self.now.bound }
        ensures bits { HasBits 1 result }
    {
        truth_over(self.relation, total, self.bound)
    }

    /// Tells all implied ends, where no variable comes twice, in an empty clause. Nothing more follows from a sum that is at
    /// most a number: its ends move the greatest sum alone.
    fn tell_ends(
        &self,
        cells: &Cells,
        known: Interval,
        ends: &mut Clause,
    ) -> Result<Visited, AllocError>
        requires single { HasSingles self.now }
        requires below { AllBelow (length cells.now.state.starts) (sum_vars self.now) }
        requires sum { known ≡ total self.now.terms (arg_ends (hulls (cell_of cells.now.state))) }
        requires fits { SumFits self.now (hulls (cell_of cells.now.state)) }
        requires quiet { sum_refuted self.now (cell_of cells.now.state) ≡ false }
        requires empty { ends.old ≡ [] }
        ensures visited { IfOk result (λ v. IsVisited (sum_refuted self.now) (sum_vars self.now)
            (cell_of cells.now.state) (length cells.now.state.starts) v ends.new) }
        ensures none { OnErr result (ends.new ≡ []) }
    {
        let _width = cells.width();
        let sum = KnownSum {
            sum: self,
            total: known,
        };
        if let Err(error) = write_ends_in_turn(&sum, cells, ends) {
            ends.clear();
            return Err(error);
        }
        let empty = ends.literals().is_empty();
        Ok(batch_of(self.relation(), empty))
    }

    /// Whether the relation is an equation in which the variable at this place occurs once, with the coefficient 1 or
    /// -1, so that the equation can be solved for it.
    pub fn can_define(&self, place: usize) -> bool
        ensures { result ≡ can_define self.now place }
    {
        if !is_equality(self.relation) {
            return false;
        }
        match self.terms.get(place) {
            None => false,
            Some(own) => is_unit(own.coef) && is_alone(own.arg, self.terms.as_slice(), place),
        }
    }
}

impl Kind for SumRelation {
    ghost use Rattle.kind_sum.specs.SumRelationStill.{sum-still};
    ghost use Rattle.kind_sum.specs.SumRelation.{sum_vars, sum_size, SumFits, sum_met, sum_kept, sum_refuted};
    ghost use Rattle.kind_sum.specs.SumRelationLaws.{sum-fits, sum-width, sum-measured, sum-size, sum-shrink, sum-fixed, sum-keep};
    ghost use Rattle.std.specs.Prelude.{false};

    ghost vars = { sum_vars };

    ghost inside = { λ k v. false };

    ghost measured = { sum_vars };

    ghost size = { sum_size };

    ghost fits = { SumFits };

    ghost met = { sum_met };

    ghost kept = { sum_kept };

    ghost refuted = { sum_refuted };

    fn vars(&self) -> &[VarId] {
        self.vars.as_slice()
    }

    fn is_inside(&self, _var: VarId) -> bool {
        false
    }

    fn is_too_wide<I: Intervals>(&self, intervals: &I) -> bool {
        is_wide(self.terms.as_slice(), intervals)
    }

    fn holds(&self, a: &Assignment) -> bool {
        let sum = self.total(Reading::Values, &Point(a));
        is_met(self.relation, sum.lo(), self.bound)
    }

    fn keeps(&self, view: &View) -> bool {
        let change = self.total(Reading::Changes, &Changes(view));
        if stays(self.relation, change) {
            return true;
        }
        let after = self.total(Reading::Values, &After(view));
        is_certain(self.relation, after, self.bound)
    }

    fn refutes_in<R: Region>(&self, cells: &R) -> bool {
        let total = self.total(Reading::Values, &Hulls(cells));
        is_refuted(self.relation, total, self.bound)
    }

    ghost fits_law = { sum-fits };

    ghost width_law = { sum-width };

    ghost measured_law = { sum-measured };

    ghost size_law = { sum-size };

    ghost shrink_law = { sum-shrink };

    ghost fixed_law = { sum-fixed };

    ghost keep_law = { sum-keep };

    ghost still_law = { sum-still };
}

impl Propagate for SumRelation {
    fn visit(
        &self,
        cells: &Cells,
        _scratch: &mut Scratch,
        ends: &mut Clause,
    ) -> Result<Visited, AllocError> {
        if !self.single {
            return visit_of(self, cells, ends);
        }
        ends.clear();
        let _width = cells.width();
        let total = self.total(Reading::Values, &Hulls(cells));
        if is_refuted(self.relation, total, self.bound) {
            return Ok(Visited::Refuted);
        }
        self.tell_ends(cells, total, ends)
    }

    fn next(&self, cells: &Cells) -> Option<Literal> {
        let _width = cells.width();
        if !self.single {
            return next_of(self, cells);
        }
        let total = self.total(Reading::Values, &Hulls(cells));
        first_in_turn(&KnownSum { sum: self, total }, cells)
    }

    fn write_reason(
        &self,
        cells: &Cells,
        implied: Option<Literal>,
        out: &mut Clause,
    ) -> Result<(), AllocError> {
        if !self.single || is_difference(self.relation) {
            return reason_of(self, cells, implied, out);
        }
        write_sum_reason(self, cells, implied, out)
    }
}

/// Whether the relation stays wherever the sum lies, where it changes so.
fn stays(relation: Relation, change: Interval) -> bool
    ensures { result ≡ stays_by relation change }
{
    match relation {
        Relation::AtMost => change.hi() <= 0,
        Relation::Equal => is_only(change, 0),
        Relation::Differ => is_only(change, 0),
    }
}

/// Ends of such a relation, with the word whether more may follow once they are applied.
fn batch_of(relation: Relation, empty: bool) -> Visited
    ensures { result ≡ Ends (may_follow relation && not empty) }
{
    match relation {
        Relation::AtMost => Visited::Ends { more: false },
        Relation::Equal => Visited::Ends { more: !empty },
        Relation::Differ => Visited::Ends { more: !empty },
    }
}
