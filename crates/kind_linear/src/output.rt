//! Linear equations that give one of their variables its value.
ghost use Rattle.std.specs.Prelude.{◌≡◌, IfOk, true, pos, int_lt};
ghost use Rattle.dom_core.specs.Ends.{HasBits, only, difference_ends};
ghost use Rattle.kind_linear.specs.LinearOutput.{IsSolved, turned_ends};
ghost use Rattle.kind_sum.specs.Place.{can_define};

use crate::linear::Linear;
use dom_cells::{Cells, Point, Region};
use dom_core::{Assignment, Changes, Clause, Interval, Intervals, Literal, VarId, View};
use kind_law::{Define, Kind, Propagate, Reading, Scratch, Visited, var_of};
use kind_sum::{Term, is_wide, term_vars, terms_but, total_of};
use std::alloc::{AllocError, Global};
use std::marker::Model;

/// A linear equation, solved for one of its variables.
#[derive(Drop)]
pub struct LinearOutput {
    linear: Linear,
    place: usize,
    output: VarId,
    turned: bool,
    others: Vec<Term>,
    inputs: Vec<VarId>,
}

impl Model for LinearOutput {
    ghost use Rattle.std.specs.Prelude.{◌+◌, take, drop};
    ghost use Rattle.kind_linear.specs.LinearOutput.{LinearOutput, IsSolvedParts};

    ghost Value = { LinearOutput };

    ghost view = { λ k. record {
      front = take k.place k.linear.terms;
      turned = k.turned;
      output = k.output;
      back = drop (k.place + 1) k.linear.terms;
      bound = k.linear.bound;
    } };

    ghost invariant = { λ k. IsSolvedParts k.linear k.others.items k.inputs.items
        (record {
          front = take k.place k.linear.terms;
          turned = k.turned;
          output = k.output;
          back = drop (k.place + 1) k.linear.terms;
          bound = k.linear.bound;
        }) };
}

impl LinearOutput {
    /// The equation, solved for the variable at that place.
    pub fn new(alloc: Global, linear: Linear, place: usize) -> Result<LinearOutput, AllocError>
        requires { can_define linear place ≡ true }
        ensures { IfOk result (IsSolved linear place) }
    {
        let own = linear.terms()[place];
        let others = terms_but(alloc, linear.terms(), place)?;
        let vars = term_vars(alloc, others.as_slice())?;
        let inputs = vars.into_vars();
        Ok(LinearOutput {
            linear,
            place,
            output: var_of(own.arg),
            turned: is_negative(own.coef),
            others,
            inputs,
        })
    }
}

impl LinearOutput {
    ghost use Rattle.std.specs.Prelude.{◌≡◌, ◌<◌, ◌≤◌, ◌^◌};
    ghost use Rattle.kind_law.specs.Laws.{Each};
    ghost use Rattle.kind_law.specs.Argument.{arg_span};
    ghost use Rattle.kind_sum.specs.Sum.{total, magnitude};
    ghost use Rattle.dom_core.specs.Ends.{HasBits};
    ghost use Rattle.kind_linear.specs.LinearOutput.{rest_of, inputs_of, InputsFit, output_range};

    /// The sum of the other terms.
    fn rest_total<I: Intervals>(&self, reading: Reading, intervals: &I) -> Interval
        requires below { Each (λ u. u.0 < I.width intervals.now) (inputs_of self.now) }
        requires ready { Each (λ u. I.ready intervals.now u.0) (inputs_of self.now) }
        requires fits { magnitude (rest_of self.now) (arg_span reading (I.spans intervals.now)) ≤ 2 ^ 101 }
        ensures total { result ≡ total (rest_of self.now) (arg_span reading (I.spans intervals.now)) }
        ensures bits { HasBits 101 result }
    {
        total_of(self.others.as_slice(), reading, intervals)
    }

    /// The values of the output under the others' intervals.
    fn solve<I: Intervals>(&self, intervals: &I) -> Interval
        requires below { Each (λ u. u.0 < I.width intervals.now) (inputs_of self.now) }
        requires ready { Each (λ u. I.ready intervals.now u.0) (inputs_of self.now) }
        requires fits { InputsFit self.now (I.spans intervals.now) }
        ensures range { result ≡ output_range self.now (I.spans intervals.now) }
        ensures bits { HasBits 102 result }
    {
        let sum = self.rest_total(Reading::Values, intervals);
        turn(self.turned, minus(self.linear.bound(), sum))
    }
}

impl Kind for LinearOutput {
    ghost use Rattle.kind_linear.specs.LinearOutputLaws.{output-still};
    ghost use Rattle.kind_sum.specs.SumRelation.{sum_vars, sum_met, sum_kept, sum_refuted};
    ghost use Rattle.kind_linear.specs.LinearOutput.{relation_of, inputs_of, output_size, OutputFits};
    ghost use Rattle.kind_linear.specs.LinearOutputLaws.{output-fits, output-width, output-measured, output-size, output-shrink, output-fixed, output-keep};
    ghost use Rattle.std.specs.Prelude.{false};

    ghost vars = { λ k. sum_vars (relation_of k) };

    ghost inside = { λ k v. false };

    ghost measured = { inputs_of };

    ghost size = { output_size };

    ghost fits = { OutputFits };

    ghost met = { λ k. sum_met (relation_of k) };

    ghost kept = { λ k. sum_kept (relation_of k) };

    ghost refuted = { λ k. sum_refuted (relation_of k) };

    fn vars(&self) -> &[VarId] {
        self.linear.vars()
    }

    fn is_inside(&self, _var: VarId) -> bool {
        false
    }

    fn is_too_wide<I: Intervals>(&self, intervals: &I) -> bool {
        is_wide(self.others.as_slice(), intervals)
    }

    fn holds(&self, a: &Assignment) -> bool {
        self.linear.holds(a)
    }

    fn keeps(&self, view: &View) -> bool {
        self.linear.keeps(view)
    }

    fn refutes_in<R: Region>(&self, cells: &R) -> bool {
        self.linear.refutes_in(cells)
    }

    ghost fits_law = { output-fits };

    ghost width_law = { output-width };

    ghost measured_law = { output-measured };

    ghost size_law = { output-size };

    ghost shrink_law = { output-shrink };

    ghost fixed_law = { output-fixed };

    ghost keep_law = { output-keep };

    ghost still_law = { output-still };
}

impl Propagate for LinearOutput {
    fn visit(
        &self,
        cells: &Cells,
        scratch: &mut Scratch,
        ends: &mut Clause,
    ) -> Result<Visited, AllocError> {
        self.linear.visit(cells, scratch, ends)
    }

    fn next(&self, cells: &Cells) -> Option<Literal> {
        self.linear.next(cells)
    }

    fn write_reason(
        &self,
        cells: &Cells,
        implied: Option<Literal>,
        out: &mut Clause,
    ) -> Result<(), AllocError> {
        self.linear.write_reason(cells, implied, out)
    }
}

impl Define for LinearOutput {
    ghost use Rattle.std.specs.Prelude.{true};
    ghost use Rattle.kind_linear.specs.LinearOutput.{inputs_of, is_functional, InputsFit, output_given, output_range, output_own_change};
    ghost use Rattle.kind_law.specs.TotalLaws.{total_defined};
    ghost use Rattle.kind_linear.specs.LinearOutputLaws.{output-measured, output-inputs, output-pass, output-input_width, output-measured_inputs, output-apart, output-parts, output-value, output-input, output-range, output-monotone, output-own_change, output-fixes};

    ghost functional = { is_functional };

    ghost output = { λ k. k.output };

    ghost inputs = { inputs_of };

    ghost fits_inputs = { InputsFit };

    ghost defined = { λ k s. true };

    ghost given = { output_given };

    ghost ranged = { output_range };

    ghost own_change = { output_own_change };

    fn is_functional(&self) -> bool {
        let _place = self.place;
        true
    }

    fn output(&self) -> VarId {
        self.output
    }

    fn inputs(&self) -> &[VarId] {
        self.inputs.as_slice()
    }

    fn is_defined_over<I: Intervals>(&self, _intervals: &I) -> bool {
        true
    }

    fn value(&self, a: &Assignment) -> i64 {
        let value = self.solve(&Point(a)).lo();
        value as i64
    }

    fn range<I: Intervals>(&self, intervals: &I) -> Interval {
        self.solve(intervals)
    }

    fn own_change(&self, view: &View, _before: Interval, _after: Interval) -> Interval {
        let sum = self.rest_total(Reading::Changes, &Changes(view));
        turn(!self.turned, sum)
    }

    ghost inputs_law = { output-inputs };

    ghost pass_law = { output-pass };

    ghost input_width_law = { output-input_width };

    ghost measured_inputs_law = { output-measured_inputs };

    ghost among_law = { output-measured };

    ghost apart_law = { output-apart };

    ghost parts_law = { output-parts };

    ghost value_law = { output-value };

    ghost input_law = { output-input };

    ghost defined_law = { λ k. total_defined (inputs_of k) };

    ghost range_law = { output-range };

    ghost monotone_law = { output-monotone };

    ghost own_change_law = { output-own_change };

    ghost fixes_law = { output-fixes };
}

/// The number minus the sums of the interval.
fn minus(bound: i64, sum: Interval) -> Interval
    requires { HasBits 101 sum }
    ensures difference { result ≡ difference_ends (only bound) sum }
    ensures bits { HasBits 102 result }
{
    let bound = bound as i128;
    Interval::new(bound - sum.hi(), bound - sum.lo())
}

/// The interval, or that of the negatives where it is turned.
fn turn(turned: bool, interval: Interval) -> Interval
    requires { HasBits 102 interval }
    ensures turned { result ≡ turned_ends turned interval }
    ensures bits { HasBits 102 result }
{
    if turned {
        return Interval::new(0 - interval.hi(), 0 - interval.lo());
    }
    interval
}

/// Whether the coefficient is below 0.
fn is_negative(coef: i64) -> bool
    ensures { result ≡ int_lt coef (pos 0) }
{
    coef < 0
}
