//! Questions about boxes with one bound more.

use crate::kind::Kind;
use dom_cells::{Cells, Kept};
use dom_core::Literal;

/// What can tell whether a box with one bound more is refuted.
pub trait Probe {
    ghost use Rattle.std.specs.Prelude.{◌≡◌, length, List, ℕ, Bool};
    ghost use Rattle.dom_cells.specs.Box.{Box, cell_of, kept, IsBox};
    ghost use Rattle.dom_cells.specs.declared.start.Start.{Start};
    ghost use Rattle.dom_core.specs.declared.var_id.VarId.{VarId};
    ghost use Rattle.kind_law.specs.Laws.{ShrinkLaw};
    ghost use Rattle.kind_law.specs.Next.{IsBound};

    /// The variables that it reads.
    ghost vars: { Self → List VarId };

    /// Whether it looks at single values of this variable.
    ghost inside: { Self → ℕ → Bool };

    /// The test by which a box is given up.
    ghost refuted: { Self → (ℕ → Start) → Bool };

    /// What must be known before it is asked about bounds on this variable of these cells.
    ghost answers: { Self → Box → VarId → Type 0 };

    fn is_refuted_within(&self, cells: &Cells, literal: Literal) -> bool
        requires bound { IsBound (vars self.now) (length cells.now.state.starts) (cell_of cells.now.state)
            literal }
        requires answers { answers self.now cells.now.state literal.var }
        requires sound { IsBox cells.now.state }
        ensures { result ≡ refuted self.now (kept (cell_of cells.now.state) literal) };

    /// A smaller box is refuted where a larger one is.
    ghost shrink_law: { (k : Self) → ShrinkLaw (inside k) (vars k) (refuted k) };
}

/// Asks a kind about the whole box.
#[derive(Drop)]
pub(crate) struct Whole<'a, K: Kind>(pub(crate) &'a K);

impl<K: Kind> Probe for Whole<'_, K> {
    ghost use Rattle.dom_cells.specs.Box.{cell_of};
    ghost use Rattle.kind_law.specs.Laws.{hulls};

    ghost vars = { λ w. K.vars w.0.now };

    ghost inside = { λ w. K.inside w.0.now };

    ghost refuted = { λ w. K.refuted w.0.now };

    ghost answers = { λ w m u. K.fits w.0.now (hulls (cell_of m)) };

    fn is_refuted_within(&self, cells: &Cells, literal: Literal) -> bool {
        let kept = Kept { cells, literal };
        self.0.refutes_in(&kept)
    }

    ghost shrink_law = { λ w. K.shrink_law w.0.now };
}
