//! Names in order of declaration.
ghost use Rattle.std.specs.Prelude.{◌≡◌, [], length, MatchOption, slice_get, Some};
ghost use Rattle.fzn_symbols.specs.Listed.{IsListed, IsUnlisted};
ghost use Rattle.fzn_symbols.specs.Noted.{IsAdded};

use crate::error::NameError;
use indexmap::IndexSet;
use std::alloc::Global;
use std::marker::Model;

/// Names in order of declaration; the number of a name is its place.
#[derive(Drop)]
pub(crate) struct Names<'a> {
    names: IndexSet<&'a [u8]>,
}

impl<'a> Model for Names<'a> {
    ghost use Rattle.std.specs.Prelude.{List, ℕ, map};

    ghost Value = { List (List ℕ) };

    ghost view = { λ n. map (λ k. k.now) n.names.keys };
}

impl<'a> Names<'a> {
    pub(crate) fn new(alloc: Global) -> Names<'a>
        ensures { result ≡ [] }
    {
        Names {
            names: IndexSet::new(alloc),
        }
    }

    // Puts a name behind the others; true where it stands among them already.
    pub(crate) fn add(&mut self, name: &'a [u8]) -> Result<bool, NameError>
        ensures { IsAdded self.old name.now self.new result }
    {
        Ok(!self.names.insert(name)?)
    }

    /// The number of this name, from 0.
    pub(crate) fn find(&self, name: &[u8]) -> Option<usize>
        ensures { MatchOption result (IsUnlisted self.now name.now) (λ i. slice_get self.now i ≡ Some name.now) }
    {
        self.names.get_index_of(name)
    }

    pub(crate) fn len(&self) -> usize
        ensures { result ≡ length self.now }
    {
        self.names.len()
    }
}
