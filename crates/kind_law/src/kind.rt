//! What every kind of constraint offers and proves.

use dom_cells::{Cells, Region};
use dom_core::{Assignment, Intervals, VarId, View};

/// A kind of constraint: its plain meaning, when a view keeps it, and when a box is given up.
pub trait Kind {
    ghost use Rattle.std.specs.Prelude.{◌≡◌, ◌^◌, length, nat_lt, true, false, List, Bool, ℕ, ℤ};
    ghost use Rattle.dom_cells.specs.Box.{cell_of};
    ghost use Rattle.dom_core.specs.Ends.{Ends};
    ghost use Rattle.dom_core.specs.View.{movement_at};
    ghost use Rattle.dom_cells.specs.declared.start.Start.{Start};
    ghost use Rattle.dom_core.specs.declared.var_id.VarId.{VarId};
    ghost use Rattle.dom_core.specs.declared.view.Movement.{Movement};
    ghost use Rattle.kind_law.specs.Laws.{Each, AllBelow, AllSane, points, hulls, befores, afters, IsTrueChange, IsUnmet, AreAmong, AreSmall, FitsLaw, WidthLaw, SizeLaw, ShrinkLaw, FixedLaw, KeepLaw, StillLaw};

    /// The variables that it reads or defines, each once, in order of the arguments.
    ghost vars: { Self → List VarId };

    /// Whether it looks at single values of this variable, and not at its ends alone.
    ghost inside: { Self → ℕ → Bool };

    /// The variables of its sum or product. An equation that is solved for a variable leaves that out.
    ghost measured: { Self → List VarId };

    /// How large its sum or product can be over these intervals, the sizes of a sum's terms added up; 0 where it has neither.
    ghost size: { Self → (ℕ → Ends) → ℕ };

    /// Its sums and products over these intervals stay far from a machine's ends.
    ghost fits: { Self → (ℕ → Ends) → Type 0 };

    /// The plain meaning: the assignment satisfies it.
    ghost met: { Self → List ℤ → Bool };

    /// The test by which a view is known to keep it.
    ghost kept: { Self → List Movement → Bool };

    /// The test by which a box is given up.
    ghost refuted: { Self → (ℕ → Start) → Bool };

    fn vars(&self) -> &[VarId]
        ensures { result.now ≡ vars self.now };

    fn is_inside(&self, var: VarId) -> bool
        ensures { result ≡ inside self.now var.0 };

    /// Whether the size over the intervals is above 2 ^ 100.
    fn is_too_wide<I: Intervals>(&self, intervals: &I) -> bool
        requires below { AllBelow (I.width intervals.now) (measured self.now) }
        requires ready { Each (λ u. I.ready intervals.now u.0) (measured self.now) }
        requires small { AreSmall (measured self.now) (I.spans intervals.now) }
        ensures { result ≡ nat_lt (2 ^ 100) (size self.now (I.spans intervals.now)) };

    fn holds(&self, a: &Assignment) -> bool
        requires below { AllBelow (length a.now) (vars self.now) }
        requires fits { fits self.now (points a.now) }
        ensures { result ≡ met self.now a.now };

    fn keeps(&self, view: &View) -> bool
        requires below { AllBelow (length view.now) (vars self.now) }
        requires before { fits self.now (befores view.now) }
        requires after { fits self.now (afters view.now) }
        requires change { Each (λ u. IsTrueChange (movement_at view.now u.0)) (vars self.now) }
        ensures { result ≡ kept self.now view.now };

    fn refutes_in<R: Region>(&self, cells: &R) -> bool
        requires below { AllBelow (R.width cells.now) (vars self.now) }
        requires sane { AllSane (R.cells cells.now) (vars self.now) }
        requires fits { fits self.now (hulls (R.cells cells.now)) }
        ensures { result ≡ refuted self.now (R.cells cells.now) };

    /// Whether the cells are given up; then no assignment within them satisfies the kind.
    final fn refutes(&self, cells: &Cells) -> bool
        requires below { AllBelow (length cells.now.state.starts) (vars self.now) }
        requires fits { fits self.now (hulls (cell_of cells.now.state)) }
        ensures refuted { result ≡ refuted self.now (cell_of cells.now.state) }
        ensures none { result ≡ true → IsUnmet (met self.now) (vars self.now) (cell_of cells.now.state) }
    {
        let _width = cells.width();
        self.refutes_in(cells)
    }

    /// Smaller intervals fit where larger ones do.
    ghost fits_law: { (k : Self) → FitsLaw (vars k) (fits k) };

    /// Small intervals fit where the size over them is at most 2 ^ 100.
    ghost width_law: { (k : Self) → WidthLaw (vars k) (size k) (fits k) };

    /// The variables that are measured are some of its own.
    ghost measured_law: { (k : Self) → AreAmong (measured k) (vars k) };

    /// The size over smaller intervals of these variables is no larger.
    ghost size_law: { (k : Self) → SizeLaw (measured k) (size k) };

    /// A smaller box is refuted where a larger one is.
    ghost shrink_law: { (k : Self) → ShrinkLaw (inside k) (vars k) (refuted k) };

    /// The box of one assignment is refuted exactly where the assignment doesn't satisfy the kind.
    ghost fixed_law: { (k : Self) → FixedLaw (refuted k) (met k) };

    /// A kept kind is satisfied after a change that the view allows, where it was before.
    ghost keep_law: { (k : Self) → KeepLaw (vars k) (kept k) (met k) };

    /// Where the view moves none of the variables, the kind is kept.
    ghost still_law: { (k : Self) → StillLaw (vars k) (kept k) };
}
