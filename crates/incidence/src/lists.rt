//! Lists of labels that grow, one for each number.
ghost use Rattle.std.specs.Prelude.{◌≡◌, ◌<◌, ◌++◌, [], ◌∷◌, List, ℕ, length, replicate, slice_index_or, slice_set, true, IfOk, OnOk};
ghost use Rattle.std.specs.List.{Contains};
ghost use Rattle.incidence.specs.Meeting.{Meets};

use crate::row::Row;
use digraph::Digraph;
use std::alloc::{AllocError, Global};
use std::marker::Model;

/// For each number a list of labels.
#[derive(Drop)]
pub(crate) struct Lists {
    rows: Vec<Row>,
}

impl Model for Lists {
    ghost use Rattle.std.specs.Prelude.{List, ℕ};

    ghost Value = { List (List ℕ) };

    ghost view = { λ l. l.rows.items };
}

impl Lists {
    /// So many empty lists.
    pub(crate) fn empty(alloc: Global, count: usize) -> Result<Lists, AllocError>
        ensures { IfOk result (λ l. l ≡ replicate count []) }
    {
        let mut rows = Vec::new(alloc);
        for number in 0..count {
            rows.push(Row::new(alloc))?;
        }
        Ok(Lists { rows })
    }

    pub(crate) fn row(&self, number: usize) -> &[usize]
        requires { number < length self.now }
        ensures { result.now ≡ slice_index_or self.now number [] }
    {
        self.rows[number].as_slice()
    }

    pub(crate) fn set(&mut self, number: usize, row: Row)
        requires { number < length self.old }
        ensures { self.new ≡ slice_set self.old number row }
    {
        self.rows[number] = row;
    }

    /// Adds the label to the list of the number, unless it stands at its end, and then the number to those met.
    pub(crate) fn meet(
        &mut self,
        met: &mut Row,
        number: usize,
        label: usize,
    ) -> Result<(), AllocError>
        ensures { OnOk result (Meets label (λ x. x ≡ number) met.old self.old met.new self.new) }
    {
        if self.rows.len() <= number {
            return Ok(());
        }
        if self.rows[number].ends_with(label) {
            return Ok(());
        }
        self.rows[number].push(label)?;
        met.push(number)?;
        Ok(())
    }

    /// Meets the number, where this is asked.
    pub(crate) fn meet_if(
        &mut self,
        met: &mut Row,
        number: usize,
        asked: bool,
        label: usize,
    ) -> Result<(), AllocError>
        ensures { OnOk result
            (Meets label (λ x. (x ≡ number) × (asked ≡ true)) met.old self.old met.new self.new) }
    {
        if asked {
            self.meet(met, number, label)?;
            return Ok(());
        }
        Ok(())
    }

    /// Meets each of these numbers.
    pub(crate) fn meet_all(
        &mut self,
        met: &mut Row,
        numbers: &[usize],
        label: usize,
    ) -> Result<(), AllocError>
        ensures { OnOk result (Meets label (Contains numbers.now) met.old self.old met.new self.new) }
    {
        for number in numbers {
            self.meet(met, *number, label)?;
        }
        Ok(())
    }

    /// The lists behind one another.
    pub(crate) fn pack(self, alloc: Global) -> Result<Digraph, AllocError>
        ensures { IfOk result (λ g. g ≡ self) }
    {
        let mut packed = Digraph::new(alloc);
        for row in self.rows {
            add_row(&mut packed, row.as_slice())?;
        }
        Ok(packed)
    }
}

/// Adds a list behind the others.
pub(crate) fn add_row(packed: &mut Digraph, row: &[usize]) -> Result<(), AllocError>
    ensures { OnOk result (packed.new ≡ packed.old ++ row.now ∷ []) }
{
    packed.node()?;
    add_labels(packed, row)
}

/// Adds labels to the last list, which is empty.
fn add_labels(packed: &mut Digraph, labels: &[usize]) -> Result<(), AllocError>
    requires { (front : List (List ℕ)) × (packed.old ≡ front ++ [] ∷ []) }
    ensures { OnOk result ((front : List (List ℕ)) → packed.old ≡ front ++ [] ∷ []
        → packed.new ≡ front ++ labels.now ∷ []) }
{
    for label in labels {
        packed.edge(*label)?;
    }
    Ok(())
}
