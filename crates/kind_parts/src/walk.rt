//! Implied ends in the order of arguments, of which each variable comes once.
ghost use Rattle.std.specs.Prelude.{◌≡◌, ◌<◌, [], true, length, OnOk};
ghost use Rattle.dom_cells.specs.Box.{cell_of};
ghost use Rattle.kind_law.specs.Argument.{distinct};
ghost use Rattle.kind_law.specs.Laws.{AllBelow};
ghost use Rattle.kind_law.specs.Next.{IsNext};
ghost use Rattle.kind_parts.specs.Told.{AreTold};
ghost use Rattle.kind_parts.specs.Vars.{are_distinct, variables_of};

use dom_cells::Cells;
use dom_core::{Clause, Literal};
use kind_law::add_implied;
use std::alloc::AllocError;

/// What has arguments, and tells of each the end that is implied.
pub trait Places {
    ghost use Rattle.std.specs.Prelude.{◌≡◌, ◌<◌, length, Bool, List, ℕ};
    ghost use Rattle.dom_cells.specs.Box.{Box, cell_of};
    ghost use Rattle.dom_cells.specs.declared.start.Start.{Start};
    ghost use Rattle.dom_core.specs.declared.arg.Arg.{Arg};
    ghost use Rattle.kind_parts.specs.Walk.{IsArgEnd, arg_at};

    /// The arguments.
    ghost args: { Self → List Arg };

    /// The test by which a box is given up.
    ghost refuted: { Self → (ℕ → Start) → Bool };

    /// What must be known before it is asked about ends of these cells.
    ghost answers: { Self → Box → Type 0 };

    /// How many arguments there are.
    fn len(&self) -> usize
        ensures { result ≡ length (args self.now) };

    /// The implied end of the argument at the place, where that is a variable, the lower one first.
    fn end_at(&self, cells: &Cells, place: usize) -> Option<Literal>
        requires place { place < length (args self.now) }
        requires answers { answers self.now cells.now.state }
        ensures { IsArgEnd (refuted self.now) (cell_of cells.now.state) (arg_at (args self.now) place)
            result };
}

/// The first implied end, the arguments being taken in turn.
pub fn first_in_turn<P: Places>(places: &P, cells: &Cells) -> Option<Literal>
    requires answers { P.answers places.now cells.now.state }
    requires single { are_distinct (variables_of (P.args places.now)) ≡ true }
    ensures { IsNext (P.refuted places.now) (distinct (variables_of (P.args places.now)))
        (cell_of cells.now.state) result }
{
    for at in 0..places.len() {
        let end = places.end_at(cells, at);
        if end.is_some() {
            return end;
        }
    }
    None
}

/// Writes for each variable the end that is implied, the arguments being taken in turn, into an empty clause.
pub fn write_ends_in_turn<P: Places>(
    places: &P,
    cells: &Cells,
    ends: &mut Clause,
) -> Result<(), AllocError>
    requires answers { P.answers places.now cells.now.state }
    requires single { are_distinct (variables_of (P.args places.now)) ≡ true }
    requires below { AllBelow (length cells.now.state.starts) (distinct (variables_of (P.args places.now))) }
    requires empty { ends.old ≡ [] }
    ensures { OnOk result (AreTold (P.refuted places.now) (distinct (variables_of (P.args places.now)))
        (cell_of cells.now.state) (length cells.now.state.starts) ends.new) }
{
    let _width = cells.width();
    let count = places.len();
    for at in 0..count {
        let end = places.end_at(cells, at);
        add_implied(end, ends)?;
    }
    Ok(())
}
