//! What is known of each place.
ghost use Rattle.std.specs.Prelude.{◌≡◌, ◌↔◌, IfOk, IsTrue, length, replicate, slice_set};
ghost use Rattle.chains.specs.declared.marks.Mark.TheVariants.{Unseen};
ghost use Rattle.chains.specs.Walks.{mark_at, mark_of, end_of};

use std::alloc::{AllocError, Global};
use std::marker::Model;

// What is known of the chain from a place.
#[derive(Clone, Copy, Debug, PartialEq, Eq, Drop)]
pub(crate) enum Mark {
    Unseen,
    Endless,
    EndsAt(usize),
}

pub(crate) fn mark_of(end: Option<usize>) -> Mark
    ensures { result ≡ mark_of end }
{
    match end {
        None => Mark::Endless,
        Some(place) => Mark::EndsAt(place),
    }
}

pub(crate) fn end_of(mark: Mark) -> Option<usize>
    ensures { result ≡ end_of mark }
{
    match mark {
        Mark::Unseen => None,
        Mark::Endless => None,
        Mark::EndsAt(place) => Some(place),
    }
}

// A mark for each place.
#[derive(Debug, Drop)]
pub(crate) struct Marks {
    items: Vec<Mark>,
}

impl Model for Marks {
    ghost use Rattle.std.specs.Prelude.{List};
    ghost use Rattle.chains.specs.declared.marks.Mark.{Mark};

    ghost Value = { List Mark };

    ghost view = { λ m. m.items.items };
}

impl Marks {
    pub(crate) fn new(alloc: Global, count: usize) -> Result<Marks, AllocError>
        ensures { IfOk result (λ m. m ≡ replicate count Unseen) }
    {
        Ok(Marks {
            items: vec![in alloc; Mark::Unseen; count]?,
        })
    }

    pub(crate) fn at(&self, place: usize) -> Mark
        ensures { result ≡ mark_at self.now place }
    {
        match self.items.get(place) {
            None => Mark::Endless,
            Some(mark) => *mark,
        }
    }

    pub(crate) fn is_unseen(&self, place: usize) -> bool
        ensures { IsTrue result ↔ (mark_at self.now place ≡ Unseen) }
    {
        match self.at(place) {
            Mark::Unseen => true,
            Mark::Endless => false,
            Mark::EndsAt(_) => false,
        }
    }

    pub(crate) fn put(&mut self, place: usize, mark: Mark)
        ensures { self.new ≡ slice_set self.old place mark }
    {
        if place < self.items.len() {
            self.items[place] = mark;
        }
    }

    pub(crate) fn len(&self) -> usize
        ensures { result ≡ length self.now }
    {
        self.items.len()
    }
}
