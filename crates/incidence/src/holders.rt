//! The rows that hold a number.
ghost use Rattle.std.specs.Prelude.{IfOk};
ghost use Rattle.incidence.specs.Holders.{AreHolders};

use crate::lists::Lists;
use crate::row::Row;
use digraph::Digraph;
use std::alloc::{AllocError, Global};

/// For each of so many numbers the places of the rows that hold it. What a node of the graph leads to is its row.
/// The time is linear in the lengths of the rows.
pub fn holders_of(alloc: Global, rows: &Digraph, count: usize) -> Result<Digraph, AllocError>
    ensures { IfOk result (AreHolders rows.now count) }
{
    let mut lists = Lists::empty(alloc, count)?;
    for place in 0..rows.len() {
        let mut met = Row::new(alloc);
        lists.meet_all(&mut met, rows.successors(place), place)?;
    }
    lists.pack(alloc)
}
