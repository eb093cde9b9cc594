//! Boolean functions of any number of arguments: conjunctions, disjunctions, and truths of clauses.
ghost use Rattle.std.specs.Prelude.{◌≡◌, ◌&&◌, IfOk};
ghost use Rattle.kind_law.specs.Argument.{is_new, is_variable};
ghost use Rattle.kind_parts.specs.Relation.{number_of};
ghost use Rattle.kind_truths.specs.Operand.{operands_of, turned};
ghost use Rattle.kind_truths.specs.Connective.{conjunction_of, disjunction_of, clause_truth_of, move_ends};

use dom_cells::{Cells, Hulls, Point, Region};
use dom_core::{
    After, Arg, Assignment, Before, Clause, Interval, Intervals, Literal, Movement, VarId, View,
};
use kind_law::{
    Define, Kind, Propagate, Scratch, Visited, are_apart, are_still, change_by, is_function_kept,
    movement_of, next_of, reason_of, var_of, visit_of,
};
use kind_parts::{is_new, with_output};
use kind_truths::{Operand, Parts, operands_of, some_certain, some_moves, turned, vars_of};
use std::alloc::{AllocError, Global};
use std::marker::Model;

/// The truth of a disjunction of arguments and negated arguments, or of its opposite, as the value of the output. A value
/// of 1 or more is true, one of 0 or less is false. `F` says which function of which arguments it is.
#[derive(Drop)]
pub struct Connective<F: Drop> {
    operands: Vec<Operand>,
    flipped: bool,
    output: Arg,
    inputs: Vec<VarId>,
    vars: Vec<VarId>,
    single: bool,
    form: F,
}

/// The form of a conjunction.
#[derive(Clone, Copy, Debug, Drop)]
pub struct Conjunction;

/// The form of a disjunction.
#[derive(Clone, Copy, Debug, Drop)]
pub struct Disjunction;

/// The form of the truth of a clause.
#[derive(Clone, Copy, Debug, Drop)]
pub struct ClauseTruth;

/// The output is 1 exactly where all arguments are true, and else 0.
pub type And = Connective<Conjunction>;

/// The output is 1 exactly where some argument is true, and else 0.
pub type Or = Connective<Disjunction>;

/// The output is 1 exactly where a clause holds, and else 0.
pub type BoolClauseReified = Connective<ClauseTruth>;

impl<F: Drop> Model for Connective<F> {
    ghost use Rattle.kind_truths.specs.Connective.{Connective, IsConnectiveKept};

    ghost Value = { Connective };

    ghost view = { λ k. record { operands = k.operands.items; flipped = k.flipped; output = k.output } };

    ghost invariant = { λ k. IsConnectiveKept k.inputs.items k.vars.items k.single (record { operands = k.operands.items; flipped = k.flipped; output = k.output }) };
}

impl<F: Drop> Connective<F> {
    ghost use Rattle.std.specs.Prelude.{◌≡◌, ◌<◌, length};
    ghost use Rattle.dom_core.specs.Ends.{HasBits};
    ghost use Rattle.kind_law.specs.Argument.{arg_ends};
    ghost use Rattle.kind_law.specs.Laws.{Each, AllBelow, befores, afters};
    ghost use Rattle.kind_law.specs.Output.{moved};
    ghost use Rattle.kind_truths.specs.BoolClause.{clause_met};
    ghost use Rattle.kind_truths.specs.Operand.{turned};
    ghost use Rattle.kind_truths.specs.Connective.{connective_of, connective_inputs, connective_vars, connective_range, connective_changed, connective_own_change};

    /// The connective of these operands.
    fn of(
        alloc: Global,
        operands: Vec<Operand>,
        flipped: bool,
        output: Arg,
        form: F,
    ) -> Result<Connective<F>, AllocError>
        ensures { IfOk result (λ k. k ≡ connective_of operands.items flipped output) }
    {
        let inputs = vars_of(alloc, operands.as_slice())?;
        let single = inputs.is_single();
        let inputs = inputs.into_vars();
        let vars = with_output(alloc, inputs.as_slice(), output)?;
        let single = is_single(single, inputs.as_slice(), output);
        Ok(Connective {
            operands,
            flipped,
            output,
            inputs,
            vars,
            single,
            form,
        })
    }

    /// Its parts.
    fn parts(&self) -> Parts<'_>
        ensures { result ≡ self.now }
    {
        Parts::new(self.operands.as_slice(), self.flipped, self.output)
    }

    /// The truths under intervals.
    fn truths<I: Intervals>(&self, intervals: &I) -> Interval
        requires below { Each (λ u. u.0 < I.width intervals.now) (connective_inputs self.now) }
        requires ready { Each (λ u. I.ready intervals.now u.0) (connective_inputs self.now) }
        ensures range { result ≡ connective_range self.now (I.spans intervals.now) }
        ensures bits { HasBits 1 result }
    {
        self.parts().truths(intervals)
    }

    /// The interval of the output under intervals.
    fn output_span<I: Intervals>(&self, intervals: &I) -> Interval
        requires below { Each (λ u. u.0 < I.width intervals.now) (connective_vars self.now) }
        requires ready { Each (λ u. I.ready intervals.now u.0) (connective_vars self.now) }
        ensures { result ≡ arg_ends (I.spans intervals.now) self.now.output }
    {
        self.parts().output_span(intervals)
    }

    /// The movement of the truth under a view.
    fn movement(&self, view: &View) -> Movement
        requires { AllBelow (length view.now) (connective_inputs self.now) }
        ensures { result ≡ moved (connective_range self.now) (connective_changed self.now) view.now }
    {
        let before = self.truths(&Before(view));
        let after = self.truths(&After(view));
        let change = self.truth_change(view, before, after);
        Movement {
            before,
            after,
            change,
        }
    }

    /// Whether the truth holds at the assignment.
    fn is_true(&self, a: &Assignment) -> bool
        requires { AllBelow (length a.now) (connective_inputs self.now) }
        ensures { result ≡ turned self.now.flipped (clause_met self.now.operands a.now) }
    {
        turned(
            self.flipped,
            some_certain(self.operands.as_slice(), &Point(a)),
        )
    }

    /// The change of the truth under a view, where its ranges before and after are known.
    fn truth_change(&self, view: &View, before: Interval, after: Interval) -> Interval
        requires below { AllBelow (length view.now) (connective_inputs self.now) }
        requires before { before ≡ connective_range self.now (befores view.now) }
        requires after { after ≡ connective_range self.now (afters view.now) }
        requires bits { HasBits 102 before × HasBits 102 after }
        ensures { result ≡ connective_changed self.now view.now }
    {
        if are_still(self.inputs.as_slice(), view) {
            return Interval::new(0, 0);
        }
        change_by(self.moves(view), before, after)
    }

    /// The truth's own change under a view.
    fn moves(&self, view: &View) -> Interval
        requires { AllBelow (length view.now) (connective_inputs self.now) }
        ensures { result ≡ connective_own_change self.now view.now }
    {
        let falls = some_moves(self.operands.as_slice(), view, self.flipped);
        let rises = some_moves(self.operands.as_slice(), view, !self.flipped);
        move_of(falls, rises)
    }
}

impl Connective<Conjunction> {
    /// The output is the conjunction of the arguments.
    pub fn new(alloc: Global, ps: &[Arg], output: Arg) -> Result<And, AllocError>
        ensures { IfOk result (λ k. k ≡ conjunction_of ps.now output) }
    {
        let operands = operands_of(alloc, &[], ps)?;
        Connective::of(alloc, operands, true, output, Conjunction)
    }
}

impl Connective<Disjunction> {
    /// The output is the disjunction of the arguments.
    pub fn new(alloc: Global, ps: &[Arg], output: Arg) -> Result<Or, AllocError>
        ensures { IfOk result (λ k. k ≡ disjunction_of ps.now output) }
    {
        let operands = operands_of(alloc, ps, &[])?;
        Connective::of(alloc, operands, false, output, Disjunction)
    }
}

impl Connective<ClauseTruth> {
    /// The output is the truth of the clause that some argument of the first list is true or some of the second is false.
    pub fn new(
        alloc: Global,
        ps: &[Arg],
        ns: &[Arg],
        output: Arg,
    ) -> Result<BoolClauseReified, AllocError>
        ensures { IfOk result (λ k. k ≡ clause_truth_of ps.now ns.now output) }
    {
        let operands = operands_of(alloc, ps, ns)?;
        Connective::of(alloc, operands, false, output, ClauseTruth)
    }
}

impl<F: Drop> Kind for Connective<F> {
    ghost use Rattle.std.specs.Prelude.{false, []};
    ghost use Rattle.kind_truths.specs.Connective.{connective_vars, connective_met, connective_kept, connective_refuted};
    ghost use Rattle.kind_law.specs.TotalLaws.{no_size};
    ghost use Rattle.kind_truths.specs.ConnectiveLaws.{connective-fits, connective-width, connective-measured, connective-shrink, connective-fixed, connective-keep, connective-still};

    ghost vars = { connective_vars };

    ghost inside = { λ k v. false };

    ghost measured = { λ k. [] };

    ghost size = { λ k s. 0 };

    ghost fits = { λ k s. Unit {0} };

    ghost met = { connective_met };

    ghost kept = { connective_kept };

    ghost refuted = { connective_refuted };

    fn vars(&self) -> &[VarId] {
        self.vars.as_slice()
    }

    fn is_inside(&self, _var: VarId) -> bool {
        false
    }

    fn is_too_wide<I: Intervals>(&self, _intervals: &I) -> bool {
        false
    }

    fn holds(&self, a: &Assignment) -> bool {
        let output = self.output_span(&Point(a));
        output.lo() == number_of(self.is_true(a))
    }

    fn keeps(&self, view: &View) -> bool {
        let truth = self.movement(view);
        let output = movement_of(self.output, view);
        is_function_kept(true, truth, output)
    }

    fn refutes_in<R: Region>(&self, cells: &R) -> bool {
        let truth = self.truths(&Hulls(cells));
        let output = self.output_span(&Hulls(cells));
        are_apart(truth, output)
    }

    ghost fits_law = { connective-fits };

    ghost width_law = { connective-width };

    ghost measured_law = { connective-measured };

    ghost size_law = { λ k. no_size };

    ghost shrink_law = { connective-shrink };

    ghost fixed_law = { connective-fixed };

    ghost keep_law = { connective-keep };

    ghost still_law = { connective-still };
}

impl<F: Drop> Propagate for Connective<F> {
    fn visit(
        &self,
        cells: &Cells,
        _scratch: &mut Scratch,
        ends: &mut Clause,
    ) -> Result<Visited, AllocError> {
        if !self.single {
            return visit_of(self, cells, ends);
        }
        self.parts().visit(cells, ends)
    }

    fn next(&self, cells: &Cells) -> Option<Literal> {
        if !self.single {
            return next_of(self, cells);
        }
        self.parts().next(cells)
    }

    fn write_reason(
        &self,
        cells: &Cells,
        implied: Option<Literal>,
        out: &mut Clause,
    ) -> Result<(), AllocError> {
        let parts = self.parts();
        match parts.verdict(cells, implied) {
            None => reason_of(self, cells, implied, out),
            Some(verdict) => parts.write_reason(cells, implied, verdict, out),
        }
    }
}

impl<F: Drop> Define for Connective<F> {
    ghost use Rattle.std.specs.Prelude.{true};
    ghost use Rattle.kind_law.specs.Argument.{var_of};
    ghost use Rattle.kind_truths.specs.Connective.{defines_output, connective_inputs, connective_given, connective_range, connective_own_change};
    ghost use Rattle.kind_law.specs.TotalLaws.{total_defined};
    ghost use Rattle.kind_truths.specs.ConnectiveLaws.{connective-inputs, connective-pass, connective-input_width, connective-measured_inputs, connective-among, connective-apart, connective-parts, connective-value, connective-input, connective-range, connective-monotone, connective-own_change, connective-fixes};

    ghost functional = { defines_output };

    ghost output = { λ k. var_of k.output };

    ghost inputs = { connective_inputs };

    ghost fits_inputs = { λ k s. Unit {0} };

    ghost defined = { λ k s. true };

    ghost given = { connective_given };

    ghost ranged = { connective_range };

    ghost own_change = { connective_own_change };

    fn is_functional(&self) -> bool {
        is_variable(self.output) && is_new(self.inputs.as_slice(), self.output)
    }

    fn output(&self) -> VarId {
        var_of(self.output)
    }

    fn inputs(&self) -> &[VarId] {
        self.inputs.as_slice()
    }

    fn is_defined_over<I: Intervals>(&self, _intervals: &I) -> bool {
        true
    }

    fn value(&self, a: &Assignment) -> i64 {
        if self.is_true(a) { 1 } else { 0 }
    }

    fn range<I: Intervals>(&self, intervals: &I) -> Interval {
        self.truths(intervals)
    }

    fn own_change(&self, view: &View, _before: Interval, _after: Interval) -> Interval {
        self.moves(view)
    }

    ghost inputs_law = { connective-inputs };

    ghost pass_law = { connective-pass };

    ghost input_width_law = { connective-input_width };

    ghost measured_inputs_law = { connective-measured_inputs };

    ghost among_law = { connective-among };

    ghost apart_law = { connective-apart };

    ghost parts_law = { connective-parts };

    ghost value_law = { connective-value };

    ghost input_law = { connective-input };

    ghost defined_law = { λ k. total_defined (connective_inputs k) };

    ghost range_law = { connective-range };

    ghost monotone_law = { connective-monotone };

    ghost own_change_law = { connective-own_change };

    ghost fixes_law = { connective-fixes };
}

/// From -1 to 1, without what falls where nothing may fall and without what rises where nothing may rise.
fn move_of(falls: bool, rises: bool) -> Interval
    ensures { result ≡ move_ends falls rises }
{
    let lo = if falls { -1 } else { 0 };
    let hi = if rises { 1 } else { 0 };
    Interval::new(lo, hi)
}

/// Whether no variable comes twice, where none of the inputs does, and these are all of them.
fn is_single(single: bool, inputs: &[VarId], output: Arg) -> bool
    ensures { result ≡ (single && is_new inputs.now output) }
{
    single && is_new(inputs, output)
}

/// The number of a truth.
pub(crate) fn number_of(truth: bool) -> i128
    ensures { result ≡ number_of truth }
{
    if truth { 1 } else { 0 }
}

/// Whether the argument is a variable.
pub(crate) fn is_variable(arg: Arg) -> bool
    ensures { result ≡ is_variable arg }
{
    match arg {
        Arg::Var(_) => true,
        Arg::Const(_) => false,
    }
}
