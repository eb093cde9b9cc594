//! Linear relations whose truth is the value of an argument.
ghost use Rattle.std.specs.Prelude.{◌≡◌, ◌<◌, IfOk, length, pos, true};
ghost use Rattle.dom_core.specs.Ends.{only};
ghost use Rattle.dom_core.specs.Ends.{HasBits};
ghost use Rattle.kind_law.specs.Argument.{arg_movement, is_variable};
ghost use Rattle.kind_parts.specs.Relation.{number_of};
ghost use Rattle.kind_law.specs.Argument.{ArgHas};
ghost use Rattle.kind_sum.specs.Sum.{terms_of};
ghost use Rattle.kind_reified.specs.LinearReified.{truth_of};
ghost use Rattle.kind_reified.specs.TruthNext.{AreSingle};

use crate::argued::{verdict_of, write_truth_reason};
use crate::truth_next::TruthSpans;
use dom_cells::{Cells, Hulls, Point, Region};
use dom_core::{
    After, Arg, Assignment, Before, Changes, Clause, Interval, Intervals, Literal, Movement,
    Relation, VarId, View,
};
use kind_law::{
    Define, Kind, Propagate, Reading, Scratch, Visited, are_apart, are_same, are_still, change_by,
    difference_of, is_function_kept, movement_of, next_of, reason_of, span, var_of, visit_of,
};
use kind_parts::{bound_row, is_new, with_output};
use kind_sum::SumRelation;
use std::alloc::{AllocError, Global};
use std::marker::Model;

/// A linear relation, with the argument that is 1 exactly where it holds and else 0.
#[derive(Drop)]
pub struct LinearReified {
    linear: SumRelation,
    output: Arg,
    vars: Vec<VarId>,
    single: bool,
}

impl Model for LinearReified {
    ghost use Rattle.kind_reified.specs.LinearReified.{LinearReified};
    ghost use Rattle.kind_reified.specs.TruthNext.{IsTruthKept};

    ghost Value = { LinearReified };

    ghost view = { λ k. record { sum = k.linear; output = k.output } };

    ghost invariant = { λ k. IsTruthKept k.vars.items k.single
        (record { sum = k.linear; output = k.output }) };
}

impl LinearReified {
    /// The truth of the relation of the sum of the arguments, each times its coefficient, to the bound.
    pub fn new(
        alloc: Global,
        coefs: &[i64],
        args: &[Arg],
        relation: Relation,
        bound: i64,
        output: Arg,
    ) -> Result<LinearReified, AllocError>
        requires { length coefs.now ≡ length args.now }
        ensures { IfOk result (λ k. k ≡ truth_of
            (record { terms = terms_of coefs.now args.now; relation = relation; bound = bound }) output) }
    {
        let linear = SumRelation::new(alloc, coefs, args, relation, bound)?;
        let vars = with_output(alloc, linear.vars(), output)?;
        let single = are_single(&linear, output);
        Ok(LinearReified {
            linear,
            output,
            vars,
            single,
        })
    }
}

impl LinearReified {
    ghost use Rattle.std.specs.Prelude.{◌≡◌, ◌<◌, length};
    ghost use Rattle.dom_core.specs.View.{movement_at};
    ghost use Rattle.kind_law.specs.Argument.{arg_change};
    ghost use Rattle.kind_law.specs.Laws.{Each, AllBelow, befores, afters, changes, IsTrueChange};
    ghost use Rattle.kind_sum.specs.SumRelation.{sum_vars, SumFits};
    ghost use Rattle.kind_sum.specs.Sum.{total};
    ghost use Rattle.dom_core.specs.Ends.{HasBits};
    ghost use Rattle.kind_reified.specs.LinearReified.{reified_range, reified_changed, reified_own_change};

    /// The truths under intervals.
    fn truths<I: Intervals>(&self, intervals: &I) -> Interval
        requires below { Each (λ u. u.0 < I.width intervals.now) (sum_vars self.now.sum) }
        requires ready { Each (λ u. I.ready intervals.now u.0) (sum_vars self.now.sum) }
        requires fits { SumFits self.now.sum (I.spans intervals.now) }
        ensures range { result ≡ reified_range self.now (I.spans intervals.now) }
        ensures bits { HasBits 1 result }
    {
        let total = self.linear.total(Reading::Values, intervals);
        self.linear.truth(total)
    }

    /// The change of the truth under a view, where its ranges before and after are known.
    fn truth_change(&self, view: &View, before: Interval, after: Interval) -> Interval
        requires below { AllBelow (length view.now) (sum_vars self.now.sum) }
        requires fits_before { SumFits self.now.sum (befores view.now) }
        requires fits_after { SumFits self.now.sum (afters view.now) }
        requires change { Each (λ u. IsTrueChange (movement_at view.now u.0)) (sum_vars self.now.sum) }
        requires before { before ≡ reified_range self.now (befores view.now) }
        requires after { after ≡ reified_range self.now (afters view.now) }
        requires bits { HasBits 102 before × HasBits 102 after }
        ensures { result ≡ reified_changed self.now view.now }
    {
        if are_still(self.linear.vars(), view) {
            return Interval::new(0, 0);
        }
        change_by(self.own_truth_change(view, before, after), before, after)
    }

    /// The truth's own change under a view, where its ranges before and after are known.
    fn own_truth_change(&self, view: &View, before: Interval, after: Interval) -> Interval
        requires below { AllBelow (length view.now) (sum_vars self.now.sum) }
        requires fits_before { SumFits self.now.sum (befores view.now) }
        requires fits_after { SumFits self.now.sum (afters view.now) }
        requires change { Each (λ u. IsTrueChange (movement_at view.now u.0)) (sum_vars self.now.sum) }
        requires before { before ≡ reified_range self.now (befores view.now) }
        requires after { after ≡ reified_range self.now (afters view.now) }
        requires bits { HasBits 102 before × HasBits 102 after }
        ensures { result ≡ reified_own_change self.now view.now }
    {
        match self.linear.relation() {
            Relation::AtMost => bound_row(self.sum_change(view)),
            Relation::Equal => difference_of(after, before),
            Relation::Differ => difference_of(after, before),
        }
    }

    /// How the sum changes under a view.
    fn sum_change(&self, view: &View) -> Interval
        requires below { AllBelow (length view.now) (sum_vars self.now.sum) }
        requires before { SumFits self.now.sum (befores view.now) }
        requires after { SumFits self.now.sum (afters view.now) }
        requires change { Each (λ u. IsTrueChange (movement_at view.now u.0)) (sum_vars self.now.sum) }
        ensures { result ≡ total self.now.sum.terms (arg_change (changes view.now)) }
    {
        self.linear.total(Reading::Changes, &Changes(view))
    }
}

impl Kind for LinearReified {
    ghost use Rattle.std.specs.Prelude.{false};
    ghost use Rattle.kind_sum.specs.SumRelation.{sum_vars, sum_size, SumFits};
    ghost use Rattle.kind_reified.specs.LinearReified.{reified_vars, reified_met, reified_kept, reified_refuted};
    ghost use Rattle.kind_sum.specs.SumRelationLaws.{sum-size};
    ghost use Rattle.kind_reified.specs.LinearReifiedLaws.{reified-fits, reified-width, reified-measured, reified-shrink, reified-fixed, reified-keep, reified-still};

    ghost vars = { reified_vars };

    ghost inside = { λ k v. false };

    ghost measured = { λ k. sum_vars k.sum };

    ghost size = { λ k. sum_size k.sum };

    ghost fits = { λ k. SumFits k.sum };

    ghost met = { reified_met };

    ghost kept = { reified_kept };

    ghost refuted = { reified_refuted };

    fn vars(&self) -> &[VarId] {
        self.vars.as_slice()
    }

    fn is_inside(&self, _var: VarId) -> bool {
        false
    }

    fn is_too_wide<I: Intervals>(&self, intervals: &I) -> bool {
        self.linear.is_too_wide(intervals)
    }

    fn holds(&self, a: &Assignment) -> bool {
        let truth = number_of(self.linear.holds(a));
        let output = span(self.output, Reading::Values, &Point(a));
        output.lo() == truth
    }

    fn keeps(&self, view: &View) -> bool {
        let output = movement_of(self.output, view);
        if self.is_at_rest(view, &output) {
            return true;
        }
        let after = self.truths(&After(view));
        if are_same(after, output.after) {
            return true;
        }
        self.is_kept_by_change(view, after, output)
    }

    fn refutes_in<R: Region>(&self, cells: &R) -> bool {
        let truth = self.truths(&Hulls(cells));
        let output = span(self.output, Reading::Values, &Hulls(cells));
        are_apart(truth, output)
    }

    ghost fits_law = { reified-fits };

    ghost width_law = { reified-width };

    ghost measured_law = { reified-measured };

    ghost size_law = { λ k. sum-size k.sum };

    ghost shrink_law = { reified-shrink };

    ghost fixed_law = { reified-fixed };

    ghost keep_law = { reified-keep };

    ghost still_law = { reified-still };
}

impl Propagate for LinearReified {
    fn visit(
        &self,
        cells: &Cells,
        _scratch: &mut Scratch,
        ends: &mut Clause,
    ) -> Result<Visited, AllocError> {
        if !self.single {
            return visit_of(self, cells, ends);
        }
        ends.clear();
        let _width = cells.width();
        let spans = TruthSpans {
            linear: &self.linear,
            output: self.output,
            total: self.linear.total(Reading::Values, &Hulls(cells)),
            span: span(self.output, Reading::Values, &Hulls(cells)),
        };
        if are_apart(spans.truth(), spans.span) {
            return Ok(Visited::Refuted);
        }
        spans.tell_ends(cells, ends)
    }

    fn next(&self, cells: &Cells) -> Option<Literal> {
        if !self.single {
            return next_of(self, cells);
        }
        let _width = cells.width();
        let spans = TruthSpans {
            linear: &self.linear,
            output: self.output,
            total: self.linear.total(Reading::Values, &Hulls(cells)),
            span: span(self.output, Reading::Values, &Hulls(cells)),
        };
        let end = spans.term_end(cells);
        if end.is_some() {
            return end;
        }
        spans.output_end(cells)
    }

    fn write_reason(
        &self,
        cells: &Cells,
        implied: Option<Literal>,
        out: &mut Clause,
    ) -> Result<(), AllocError> {
        match verdict_of(&self.linear, self.output, cells, implied) {
            None => reason_of(self, cells, implied, out),
            Some(verdict) => {
                write_truth_reason(&self.linear, self.output, cells, implied, verdict, out)
            }
        }
    }
}

impl Define for LinearReified {
    ghost use Rattle.std.specs.Prelude.{true};
    ghost use Rattle.kind_sum.specs.SumRelation.{sum_vars, SumFits};
    ghost use Rattle.kind_law.specs.Argument.{var_of};
    ghost use Rattle.kind_reified.specs.LinearReified.{is_giver, reified_given, reified_range, reified_own_change};
    ghost use Rattle.kind_law.specs.TotalLaws.{total_defined};
    ghost use Rattle.kind_reified.specs.LinearReifiedLaws.{reified-measured, reified-inputs, reified-pass, reified-input_width, reified-measured_inputs, reified-apart, reified-parts, reified-value, reified-input, reified-range, reified-monotone, reified-own_change, reified-fixes};

    ghost functional = { is_giver };

    ghost output = { λ k. var_of k.output };

    ghost inputs = { λ k. sum_vars k.sum };

    ghost fits_inputs = { λ k. SumFits k.sum };

    ghost defined = { λ k s. true };

    ghost given = { reified_given };

    ghost ranged = { reified_range };

    ghost own_change = { reified_own_change };

    fn is_functional(&self) -> bool {
        is_variable(self.output) && is_new(self.linear.vars(), self.output)
    }

    fn output(&self) -> VarId {
        var_of(self.output)
    }

    fn inputs(&self) -> &[VarId] {
        self.linear.vars()
    }

    fn is_defined_over<I: Intervals>(&self, _intervals: &I) -> bool {
        true
    }

    fn value(&self, a: &Assignment) -> i64 {
        if self.linear.holds(a) { 1 } else { 0 }
    }

    fn range<I: Intervals>(&self, intervals: &I) -> Interval {
        self.truths(intervals)
    }

    fn own_change(&self, view: &View, before: Interval, after: Interval) -> Interval {
        self.own_truth_change(view, before, after)
    }

    ghost inputs_law = { reified-inputs };

    ghost pass_law = { reified-pass };

    ghost input_width_law = { reified-input_width };

    ghost measured_inputs_law = { reified-measured_inputs };

    ghost among_law = { reified-measured };

    ghost apart_law = { reified-apart };

    ghost parts_law = { reified-parts };

    ghost value_law = { reified-value };

    ghost input_law = { reified-input };

    ghost defined_law = { λ k. total_defined (sum_vars k.sum) };

    ghost range_law = { reified-range };

    ghost monotone_law = { reified-monotone };

    ghost own_change_law = { reified-own_change };

    ghost fixes_law = { reified-fixes };
}

impl LinearReified {
    ghost use Rattle.std.specs.Prelude.{◌≡◌, ◌&&◌, length, pos, true};
    ghost use Rattle.dom_core.specs.Ends.{only, HasBits};
    ghost use Rattle.dom_core.specs.View.{movement_at};
    ghost use Rattle.kind_law.specs.Function.{are_one, function_kept};
    ghost use Rattle.kind_law.specs.Laws.{Each, AllBelow, all_still, befores, afters, IsTrueChange};
    ghost use Rattle.kind_sum.specs.SumRelation.{sum_vars, SumFits};
    ghost use Rattle.kind_reified.specs.LinearReified.{reified_movement, reified_range};

    /// Whether the view moves neither a variable of the sum nor the output.
    fn is_at_rest(&self, view: &View, output: &Movement) -> bool
        requires { AllBelow (length view.now) (sum_vars self.now.sum) }
        ensures { result ≡ (all_still (sum_vars self.now.sum) view.now
            && are_one (only (pos 0)) output.now.change) }
    {
        if !are_still(self.linear.vars(), view) {
            return false;
        }
        are_same(Interval::new(0, 0), output.change)
    }

    /// Whether the output keeps the value of the truth, of which the range after is known.
    fn is_kept_by_change(&self, view: &View, after: Interval, output: Movement) -> bool
        requires below { AllBelow (length view.now) (sum_vars self.now.sum) }
        requires before { SumFits self.now.sum (befores view.now) }
        requires fits { SumFits self.now.sum (afters view.now) }
        requires change { Each (λ u. IsTrueChange (movement_at view.now u.0)) (sum_vars self.now.sum) }
        requires after { after ≡ reified_range self.now (afters view.now) }
        requires bits { HasBits 1 after }
        ensures { result ≡ function_kept true (reified_movement self.now view.now) output }
    {
        let before = self.truths(&Before(view));
        let change = self.truth_change(view, before, after);
        let truth = Movement {
            before,
            after,
            change,
        };
        is_function_kept(true, truth, output)
    }
}

/// Whether no variable of the sum is known to come twice, and the output is none of them.
fn are_single(linear: &SumRelation, output: Arg) -> bool
    ensures { result ≡ true → AreSingle (truth_of linear.now output) }
{
    linear.is_single() && is_new(linear.vars(), output)
}

/// The number of a truth.
fn number_of(truth: bool) -> i128
    ensures { result ≡ number_of truth }
{
    if truth { 1 } else { 0 }
}

/// Whether the argument is a variable.
fn is_variable(arg: Arg) -> bool
    ensures { result ≡ is_variable arg }
{
    match arg {
        Arg::Var(_) => true,
        Arg::Const(_) => false,
    }
}
