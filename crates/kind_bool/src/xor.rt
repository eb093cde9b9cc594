//! Whether two arguments differ.
ghost use Rattle.std.specs.Prelude.{◌≡◌};
ghost use Rattle.dom_core.specs.Ends.{HasBits};
ghost use Rattle.kind_bool.specs.Xor.{differ, IsDecided, truths_between};

use crate::connective::{is_variable, number_of};
use dom_cells::{Cells, Hulls, Point, Region};
use dom_core::{
    After, Arg, Assignment, Before, Clause, Interval, Intervals, Literal, Movement, VarId, View,
};
use kind_law::{
    Define, Kind, Propagate, Reading, are_apart, are_still, change_by, difference_of,
    is_function_kept, movement_of, next_of, reason_of, span, var_of,
};
use kind_parts::{distinct_vars, is_new, with_output};
use kind_truths::{is_certain, truth};
use std::alloc::{AllocError, Global};
use std::marker::Model;

/// The output is 1 exactly where one of two arguments is true and the other isn't, and else 0. A value of 1 or more is
/// true, one of 0 or less is false.
#[derive(Drop)]
pub struct Xor {
    first: Arg,
    second: Arg,
    output: Arg,
    inputs: Vec<VarId>,
    vars: Vec<VarId>,
}

impl Model for Xor {
    ghost use Rattle.std.specs.Prelude.{◌≡◌};
    ghost use Rattle.kind_bool.specs.Xor.{Xor, xor_inputs, xor_vars};

    ghost Value = { Xor };

    ghost view = { λ k. record { first = k.first; second = k.second; output = k.output } };

    ghost invariant = { λ k. (k.inputs.items ≡ xor_inputs (record { first = k.first; second = k.second; output = k.output })) × (k.vars.items ≡ xor_vars (record { first = k.first; second = k.second; output = k.output })) };
}

impl Xor {
    ghost use Rattle.std.specs.Prelude.{◌≡◌, ◌<◌, length, IfOk};
    ghost use Rattle.dom_core.specs.Ends.{HasBits};
    ghost use Rattle.kind_law.specs.Argument.{ArgHas, arg_ends};
    ghost use Rattle.kind_law.specs.Laws.{Each, AllBelow, befores, afters};
    ghost use Rattle.kind_law.specs.Output.{moved};
    ghost use Rattle.kind_bool.specs.Xor.{xor_inputs, xor_vars, xor_range, xor_changed, differ, is_true};

    /// The output is whether the arguments differ.
    pub fn new(alloc: Global, a: Arg, b: Arg, output: Arg) -> Result<Xor, AllocError>
        ensures { IfOk result (λ k. k ≡ record { first = a; second = b; output = output }) }
    {
        let args = [a, b];
        let inputs = distinct_vars(alloc, args.as_slice())?.into_vars();
        let vars = with_output(alloc, inputs.as_slice(), output)?;
        Ok(Xor {
            first: a,
            second: b,
            output,
            inputs,
            vars,
        })
    }

    /// The truths under intervals.
    fn truths<I: Intervals>(&self, intervals: &I) -> Interval
        requires below { Each (λ u. u.0 < I.width intervals.now) (xor_inputs self.now) }
        requires ready { Each (λ u. I.ready intervals.now u.0) (xor_inputs self.now) }
        ensures range { result ≡ xor_range self.now (I.spans intervals.now) }
        ensures bits { HasBits 1 result }
    {
        let first = span(self.first, Reading::Values, intervals);
        let second = span(self.second, Reading::Values, intervals);
        truths_of(first, second)
    }

    /// The movement of the truth under a view.
    fn movement(&self, view: &View) -> Movement
        requires { AllBelow (length view.now) (xor_inputs self.now) }
        ensures { result ≡ moved (xor_range self.now) (xor_changed self.now) view.now }
    {
        let before = self.truths(&Before(view));
        let after = self.truths(&After(view));
        let change = self.truth_change(view, before, after);
        Movement {
            before,
            after,
            change,
        }
    }

    /// The change of the truth under a view, where its ranges before and after are known.
    fn truth_change(&self, view: &View, before: Interval, after: Interval) -> Interval
        requires below { AllBelow (length view.now) (xor_inputs self.now) }
        requires before { before ≡ xor_range self.now (befores view.now) }
        requires after { after ≡ xor_range self.now (afters view.now) }
        requires bits { HasBits 102 before × HasBits 102 after }
        ensures { result ≡ xor_changed self.now view.now }
    {
        if are_still(self.inputs.as_slice(), view) {
            return Interval::new(0, 0);
        }
        change_by(difference_of(after, before), before, after)
    }

    /// The interval of the output under intervals.
    fn output_span<I: Intervals>(&self, intervals: &I) -> Interval
        requires below { Each (λ u. u.0 < I.width intervals.now) (xor_vars self.now) }
        requires ready { Each (λ u. I.ready intervals.now u.0) (xor_vars self.now) }
        ensures { result ≡ arg_ends (I.spans intervals.now) self.now.output }
    {
        span(self.output, Reading::Values, intervals)
    }

    /// Whether the arguments differ at the assignment.
    fn is_true(&self, a: &Assignment) -> bool
        requires { AllBelow (length a.now) (xor_inputs self.now) }
        ensures { result ≡ differ (is_true a.now self.now.first) (is_true a.now self.now.second) }
    {
        let first = span(self.first, Reading::Values, &Point(a));
        let second = span(self.second, Reading::Values, &Point(a));
        differ(is_certain(false, first), is_certain(false, second))
    }
}

impl Kind for Xor {
    ghost use Rattle.std.specs.Prelude.{false, []};
    ghost use Rattle.kind_bool.specs.Xor.{xor_vars, xor_met, xor_kept, xor_refuted};
    ghost use Rattle.kind_law.specs.TotalLaws.{no_size};
    ghost use Rattle.kind_bool.specs.XorLaws.{xor-fits, xor-width, xor-measured, xor-shrink, xor-fixed, xor-keep, xor-still};

    ghost vars = { xor_vars };

    ghost inside = { λ k v. false };

    ghost measured = { λ k. [] };

    ghost size = { λ k s. 0 };

    ghost fits = { λ k s. Unit {0} };

    ghost met = { xor_met };

    ghost kept = { xor_kept };

    ghost refuted = { xor_refuted };

    fn vars(&self) -> &[VarId] {
        self.vars.as_slice()
    }

    fn is_inside(&self, _var: VarId) -> bool {
        false
    }

    fn is_too_wide<I: Intervals>(&self, _intervals: &I) -> bool {
        false
    }

    fn holds(&self, a: &Assignment) -> bool {
        let output = self.output_span(&Point(a));
        output.lo() == number_of(self.is_true(a))
    }

    fn keeps(&self, view: &View) -> bool {
        let truth = self.movement(view);
        let output = movement_of(self.output, view);
        is_function_kept(true, truth, output)
    }

    fn refutes_in<R: Region>(&self, cells: &R) -> bool {
        let truth = self.truths(&Hulls(cells));
        let output = self.output_span(&Hulls(cells));
        are_apart(truth, output)
    }

    ghost fits_law = { xor-fits };

    ghost width_law = { xor-width };

    ghost measured_law = { xor-measured };

    ghost size_law = { λ k. no_size };

    ghost shrink_law = { xor-shrink };

    ghost fixed_law = { xor-fixed };

    ghost keep_law = { xor-keep };

    ghost still_law = { xor-still };
}

impl Propagate for Xor {
    fn next(&self, cells: &Cells) -> Option<Literal> {
        next_of(self, cells)
    }

    fn write_reason(
        &self,
        cells: &Cells,
        implied: Option<Literal>,
        out: &mut Clause,
    ) -> Result<(), AllocError> {
        reason_of(self, cells, implied, out)
    }
}

impl Define for Xor {
    ghost use Rattle.std.specs.Prelude.{true};
    ghost use Rattle.kind_law.specs.Argument.{var_of};
    ghost use Rattle.kind_bool.specs.Xor.{gives_output, xor_inputs, xor_given, xor_range, xor_own_change};
    ghost use Rattle.kind_law.specs.TotalLaws.{total_defined};
    ghost use Rattle.kind_bool.specs.XorLaws.{xor-inputs, xor-pass, xor-input_width, xor-measured_inputs, xor-among, xor-apart, xor-parts, xor-value, xor-input, xor-range, xor-monotone, xor-own_change, xor-fixes};

    ghost functional = { gives_output };

    ghost output = { λ k. var_of k.output };

    ghost inputs = { xor_inputs };

    ghost fits_inputs = { λ k s. Unit {0} };

    ghost defined = { λ k s. true };

    ghost given = { xor_given };

    ghost ranged = { xor_range };

    ghost own_change = { xor_own_change };

    fn is_functional(&self) -> bool {
        is_variable(self.output) && is_new(self.inputs.as_slice(), self.output)
    }

    fn output(&self) -> VarId {
        var_of(self.output)
    }

    fn inputs(&self) -> &[VarId] {
        self.inputs.as_slice()
    }

    fn is_defined_over<I: Intervals>(&self, _intervals: &I) -> bool {
        true
    }

    fn value(&self, a: &Assignment) -> i64 {
        if self.is_true(a) { 1 } else { 0 }
    }

    fn range<I: Intervals>(&self, intervals: &I) -> Interval {
        self.truths(intervals)
    }

    fn own_change(&self, _view: &View, before: Interval, after: Interval) -> Interval {
        difference_of(after, before)
    }

    ghost inputs_law = { xor-inputs };

    ghost pass_law = { xor-pass };

    ghost input_width_law = { xor-input_width };

    ghost measured_inputs_law = { xor-measured_inputs };

    ghost among_law = { xor-among };

    ghost apart_law = { xor-apart };

    ghost parts_law = { xor-parts };

    ghost value_law = { xor-value };

    ghost input_law = { xor-input };

    ghost defined_law = { λ k. total_defined (xor_inputs k) };

    ghost range_law = { xor-range };

    ghost monotone_law = { xor-monotone };

    ghost own_change_law = { xor-own_change };

    ghost fixes_law = { xor-fixes };
}

/// The truths of two arguments that lie in the intervals: one where both are decided, else both.
#[tactic(auto, using(crate::proofs::XorTruths::both_decided, crate::proofs::XorTruths::first_open, crate::proofs::XorTruths::second_open))]
fn truths_of(first: Interval, second: Interval) -> Interval
    ensures range { result ≡ truths_between first second }
    ensures bits { HasBits 1 result }
{
    let Some(p) = decided(first) else {
        return Interval::new(0, 1);
    };
    let Some(q) = decided(second) else {
        return Interval::new(0, 1);
    };
    truth(differ(p, q))
}

/// The truth at all values of the interval, where it is the same.
fn decided(interval: Interval) -> Option<bool>
    ensures { IsDecided interval result }
{
    if is_certain(false, interval) {
        return Some(true);
    }
    if is_certain(true, interval) {
        return Some(false);
    }
    None
}

/// Whether one of the truths holds and the other doesn't.
fn differ(p: bool, q: bool) -> bool
    ensures { result ≡ differ p q }
{
    if p { !q } else { q }
}
