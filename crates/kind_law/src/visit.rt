//! All ends that a kind implies, found one by one.
ghost use Rattle.std.specs.Prelude.{◌≡◌, [], false, length, IfOk, OnErr, OnOk};
ghost use Rattle.dom_cells.specs.Box.{cell_of};
ghost use Rattle.kind_law.specs.Laws.{AllBelow, hulls};
ghost use Rattle.kind_law.specs.Visit.{AreEnds, IsVisited};

use crate::kind::Kind;
use crate::next::first_end;
use crate::probe::Whole;
use crate::reason::add_implied;
use crate::visited::Visited;
use dom_cells::Cells;
use dom_core::Clause;
use std::alloc::AllocError;

/// Visits the cells: asks whether they are given up, and then each variable for its end, the lower one first.
pub fn visit_of<K: Kind>(kind: &K, cells: &Cells, ends: &mut Clause) -> Result<Visited, AllocError>
    requires below { AllBelow (length cells.now.state.starts) (K.vars kind.now) }
    requires fits { K.fits kind.now (hulls (cell_of cells.now.state)) }
    ensures visited { IfOk result (λ v. IsVisited (K.refuted kind.now) (K.vars kind.now)
        (cell_of cells.now.state) (length cells.now.state.starts) v ends.new) }
    ensures none { OnErr result (ends.new ≡ []) }
{
    ends.clear();
    if kind.refutes(cells) {
        return Ok(Visited::Refuted);
    }
    if let Err(error) = write_ends(kind, cells, ends) {
        ends.clear();
        return Err(error);
    }
    Ok(Visited::Ends {
        more: !ends.literals().is_empty(),
    })
}

/// Writes for each of the kind's variables the end that is implied, the lower one first, into an empty clause.
fn write_ends<K: Kind>(kind: &K, cells: &Cells, ends: &mut Clause) -> Result<(), AllocError>
    requires below { AllBelow (length cells.now.state.starts) (K.vars kind.now) }
    requires fits { K.fits kind.now (hulls (cell_of cells.now.state)) }
    requires empty { ends.old ≡ [] }
    ensures { OnOk result (AreEnds (K.refuted kind.now) (K.vars kind.now) (cell_of cells.now.state)
        (length cells.now.state.starts) ends.new) }
{
    let _width = cells.width();
    for var in kind.vars() {
        let end = first_end(&Whole(kind), cells, *var);
        add_implied(end, ends)?;
    }
    Ok(())
}
