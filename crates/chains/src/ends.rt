//! The ends of all chains.
ghost use Rattle.std.specs.Prelude.{◌≡◌, IfOk};
ghost use Rattle.chains.specs.Chains.{AreEnds, HasOneEnd, end_at};

use crate::link::Link;
use crate::marks::{Marks, end_of};
use crate::walk::follow;
use std::alloc::{AllocError, Global};
use std::marker::Model;

/// A chain has one end at most.
pub fn one_end()
    ensures { HasOneEnd }
{}

/// The end of the chain from each place.
#[derive(Debug, Drop)]
pub struct Ends {
    marks: Marks,
}

impl Model for Ends {
    ghost use Rattle.std.specs.Prelude.{List, ℕ, Option, map};
    ghost use Rattle.chains.specs.Walks.{end_of};

    ghost Value = { List (Option ℕ) };

    ghost view = { λ e. map end_of e.marks };
}

impl Ends {
    /// The end of the chain from this place.
    pub fn at(&self, place: usize) -> Option<usize>
        ensures { result ≡ end_at self.now place }
    {
        end_of(self.marks.at(place))
    }
}

/// The end of each chain. One that comes back to a place where it was has none.
pub fn ends_of(alloc: Global, links: &[Link]) -> Result<Ends, AllocError>
    ensures { IfOk result (λ ends. AreEnds links.now ends) }
{
    let mut marks = Marks::new(alloc, links.len())?;
    for start in 0..links.len() {
        follow(links, &mut marks, start);
    }
    Ok(Ends { marks })
}
