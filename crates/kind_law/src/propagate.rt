//! What a kind implies, and why.

use crate::kind::Kind;
use crate::scratch::Scratch;
use crate::visit::visit_of;
use crate::visited::Visited;
use dom_cells::Cells;
use dom_core::{Clause, Literal};
use std::alloc::AllocError;

/// A kind that tells the ends that it implies and gives reasons. The usual bodies are [`next_of`](crate::next_of) and
/// [`reason_of`](crate::reason_of); a kind may answer faster, or with a shorter reason, under the same clauses.
pub trait Propagate: Kind {
    ghost use Rattle.std.specs.Prelude.{◌≡◌, false, length, IfOk, OnOk, OnErr, []};
    ghost use Rattle.dom_cells.specs.Box.{cell_of};
    ghost use Rattle.kind_law.specs.Laws.{AllBelow, hulls};
    ghost use Rattle.kind_law.specs.Next.{IsNext};
    ghost use Rattle.kind_law.specs.Reason.{IsCause, IsRead, IsReason};
    ghost use Rattle.kind_law.specs.Visit.{IsVisited};

    /// Tells at once whether the kind gives up the cells or which ends it implies. It may use the scratch and grow it.
    fn visit(
        &self,
        cells: &Cells,
        _scratch: &mut Scratch,
        ends: &mut Clause,
    ) -> Result<Visited, AllocError>
        requires below { AllBelow (length cells.now.state.starts) (Self.vars self.now) }
        requires fits { Self.fits self.now (hulls (cell_of cells.now.state)) }
        ensures visited { IfOk result (λ v. IsVisited (Self.refuted self.now) (Self.vars self.now)
            (cell_of cells.now.state) (length cells.now.state.starts) v ends.new) }
        ensures none { OnErr result (ends.new ≡ []) }
    {
        visit_of(self, cells, ends)
    }

    /// The first implied end, in the order of the kind's variables, the lower end of each first.
    fn next(&self, cells: &Cells) -> Option<Literal>
        requires below { AllBelow (length cells.now.state.starts) (Self.vars self.now) }
        requires fits { Self.fits self.now (hulls (cell_of cells.now.state)) }
        requires quiet { Self.refuted self.now (cell_of cells.now.state) ≡ false }
        ensures { IsNext (Self.refuted self.now) (Self.vars self.now) (cell_of cells.now.state) result };

    /// Writes why the end is implied, or, without one, why the kind refutes the cells, into an empty clause.
    fn write_reason(
        &self,
        cells: &Cells,
        implied: Option<Literal>,
        out: &mut Clause,
    ) -> Result<(), AllocError>
        requires below { AllBelow (length cells.now.state.starts) (Self.vars self.now) }
        requires fits { Self.fits self.now (hulls (cell_of cells.now.state)) }
        requires cause { IsCause (Self.refuted self.now) (cell_of cells.now.state) implied }
        requires var { IsRead (length cells.now.state.starts) implied }
        requires empty { out.old ≡ [] }
        ensures { OnOk result (IsReason (Self.refuted self.now) cells.now.state implied out.new) };

    /// Writes why the end is implied, or, without one, why the kind refutes the cells, in place of what the clause held.
    final fn reason(
        &self,
        cells: &Cells,
        implied: Option<Literal>,
        out: &mut Clause,
    ) -> Result<(), AllocError>
        requires below { AllBelow (length cells.now.state.starts) (Self.vars self.now) }
        requires fits { Self.fits self.now (hulls (cell_of cells.now.state)) }
        requires cause { IsCause (Self.refuted self.now) (cell_of cells.now.state) implied }
        requires var { IsRead (length cells.now.state.starts) implied }
        ensures reason { OnOk result (IsReason (Self.refuted self.now) cells.now.state implied out.new) }
        ensures none { OnErr result (out.new ≡ []) }
    {
        out.clear();
        let written = self.write_reason(cells, implied, out);
        if written.is_err() {
            out.clear();
        }
        written
    }
}
