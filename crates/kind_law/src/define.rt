//! Kinds that give one of their variables its value.

use crate::change::{are_still, change_by};
use crate::kind::Kind;
use dom_core::{After, Assignment, Before, Interval, Intervals, VarId, View};

/// A kind that can define one of its variables: the output has the value that the other variables, the inputs, give.
pub trait Define: Kind {
    ghost use Rattle.std.specs.Prelude.{◌≡◌, length, true, Bool, List, ℕ, ℤ};
    ghost use Rattle.dom_core.specs.Ends.{Ends, HasBits};
    ghost use Rattle.dom_core.specs.View.{movement_at};
    ghost use Rattle.dom_core.specs.Small.{IsSmall};
    ghost use Rattle.dom_core.specs.declared.var_id.VarId.{VarId};
    ghost use Rattle.dom_core.specs.declared.view.Movement.{Movement};
    ghost use Rattle.kind_law.specs.Laws.{Each, AllBelow, AreAmong, points, befores, afters, IsTrueChange, FitsLaw};
    ghost use Rattle.kind_law.specs.DefineLaws.{ApartLaw, ArePartsOf, PassLaw, InputWidthLaw, ValueLaw, InputLaw, DefinedLaw, RangeLaw, MonotoneLaw, OwnChangeLaw, FixesLaw, changed_of};

    /// It has a functional shape: its output is a variable, and none of its inputs.
    ghost functional: { Self → Bool };

    /// The variable that it defines.
    ghost output: { Self → VarId };

    /// The variables that the value is computed from.
    ghost inputs: { Self → List VarId };

    /// The sums and products of the inputs alone stay far from a machine's ends, and the function has a value at all
    /// inputs within the intervals.
    ghost fits_inputs: { Self → (ℕ → Ends) → Type 0 };

    /// Whether the function has a value at all inputs within these intervals, as a table does where the index lies inside.
    ghost defined: { Self → (ℕ → Ends) → Bool };

    /// The value that the inputs give.
    ghost given: { Self → List ℤ → ℤ };

    /// The interval that the inputs' intervals give.
    ghost ranged: { Self → (ℕ → Ends) → Ends };

    /// The kind's own change: how the value may change by a view's movements of the inputs, before its ranges are looked at.
    ghost own_change: { Self → List Movement → Ends };

    fn is_functional(&self) -> bool
        ensures { result ≡ functional self.now };

    fn output(&self) -> VarId
        requires { functional self.now ≡ true }
        ensures { result ≡ output self.now };

    fn inputs(&self) -> &[VarId]
        ensures { result.now ≡ inputs self.now };

    fn is_defined_over<I: Intervals>(&self, intervals: &I) -> bool
        requires below { AllBelow (I.width intervals.now) (inputs self.now) }
        requires ready { Each (λ u. I.ready intervals.now u.0) (inputs self.now) }
        ensures { result ≡ defined self.now (I.spans intervals.now) };

    fn value(&self, a: &Assignment) -> i64
        requires below { AllBelow (length a.now) (inputs self.now) }
        requires fits { fits_inputs self.now (points a.now) }
        requires small { IsSmall (given self.now a.now) }
        ensures { result ≡ given self.now a.now };

    fn range<I: Intervals>(&self, intervals: &I) -> Interval
        requires below { AllBelow (I.width intervals.now) (inputs self.now) }
        requires ready { Each (λ u. I.ready intervals.now u.0) (inputs self.now) }
        requires fits { fits_inputs self.now (I.spans intervals.now) }
        ensures range { result ≡ ranged self.now (I.spans intervals.now) }
        ensures bits { HasBits 102 result };

    /// The own change, where the ranges before and after are known.
    fn own_change(&self, view: &View, before: Interval, after: Interval) -> Interval
        requires below { AllBelow (length view.now) (inputs self.now) }
        requires fits_before { fits_inputs self.now (befores view.now) }
        requires fits_after { fits_inputs self.now (afters view.now) }
        requires change { Each (λ u. IsTrueChange (movement_at view.now u.0)) (inputs self.now) }
        requires before { before ≡ ranged self.now (befores view.now) }
        requires after { after ≡ ranged self.now (afters view.now) }
        requires bits { HasBits 102 before × HasBits 102 after }
        ensures { result ≡ own_change self.now view.now };

    /// The change, where the ranges before and after are known: 0 where no input moves, else what its own change and the ranges
    /// allow.
    final fn change_between(&self, view: &View, before: Interval, after: Interval) -> Interval
        requires below { AllBelow (length view.now) (inputs self.now) }
        requires fits_before { fits_inputs self.now (befores view.now) }
        requires fits_after { fits_inputs self.now (afters view.now) }
        requires change { Each (λ u. IsTrueChange (movement_at view.now u.0)) (inputs self.now) }
        requires before { before ≡ ranged self.now (befores view.now) }
        requires after { after ≡ ranged self.now (afters view.now) }
        requires bits { HasBits 102 before × HasBits 102 after }
        ensures { result ≡ changed_of (inputs self.now) (ranged self.now) (own_change self.now) view.now }
    {
        if are_still(self.inputs(), view) {
            return Interval::new(0, 0);
        }
        change_by(self.own_change(view, before, after), before, after)
    }

    /// The change of the output under the view.
    final fn change(&self, view: &View) -> Interval
        requires below { AllBelow (length view.now) (inputs self.now) }
        requires before { fits_inputs self.now (befores view.now) }
        requires after { fits_inputs self.now (afters view.now) }
        requires change { Each (λ u. IsTrueChange (movement_at view.now u.0)) (inputs self.now) }
        ensures { result ≡ changed_of (inputs self.now) (ranged self.now) (own_change self.now) view.now }
    {
        if are_still(self.inputs(), view) {
            return Interval::new(0, 0);
        }
        let before = self.range(&Before(view));
        let after = self.range(&After(view));
        change_by(self.own_change(view, before, after), before, after)
    }

    /// Smaller intervals of the inputs fit where larger ones do.
    ghost inputs_law: { (k : Self) → FitsLaw (inputs k) (fits_inputs k) };

    /// Where the intervals fit and the function has a value over them, the inputs fit.
    ghost pass_law: { (k : Self) → functional k ≡ true → PassLaw (Self.fits k) (defined k) (fits_inputs k) };

    /// Small intervals of the inputs fit where the size is at most 2 ^ 100 and the function has a value over them.
    ghost input_width_law: { (k : Self) → functional k ≡ true → InputWidthLaw (inputs k) (Self.size k) (defined k) (fits_inputs k) };

    /// The variables that are measured are inputs.
    ghost measured_inputs_law: { (k : Self) → functional k ≡ true → AreAmong (Self.measured k) (inputs k) };

    /// The inputs are some of its variables, whether it has a functional shape or not.
    ghost among_law: { (k : Self) → AreAmong (inputs k) (Self.vars k) };

    /// The output is none of the inputs.
    ghost apart_law: { (k : Self) → functional k ≡ true → ApartLaw (output k) (inputs k) };

    /// The variables are the inputs and the output.
    ghost parts_law: { (k : Self) → functional k ≡ true → ArePartsOf (output k) (inputs k) (Self.vars k) };

    /// The kind is met exactly where the output has the value that the inputs give.
    ghost value_law: { (k : Self) → functional k ≡ true → ValueLaw (output k) (fits_inputs k) (given k) (Self.met k) };

    /// The value reads the inputs alone.
    ghost input_law: { (k : Self) → InputLaw (inputs k) (given k) };

    /// Whether the function has a value reads the intervals of the inputs alone.
    ghost defined_law: { (k : Self) → DefinedLaw (inputs k) (defined k) };

    /// The range covers every value that inputs within the intervals give.
    ghost range_law: { (k : Self) → RangeLaw (inputs k) (given k) (ranged k) };

    /// The range over smaller intervals lies in the range over larger ones.
    ghost monotone_law: { (k : Self) → MonotoneLaw (inputs k) (ranged k) };

    /// The value's change lies in the kind's own change.
    ghost own_change_law: { (k : Self) → OwnChangeLaw (inputs k) (given k) (own_change k) };

    /// Where the inputs are fixed, the box is refuted exactly where the output's interval doesn't hold their value.
    ghost fixes_law: { (k : Self) → functional k ≡ true → FixesLaw (output k) (inputs k) (fits_inputs k) (given k) (Self.refuted k) };
}
