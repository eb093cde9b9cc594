//! A list of numbers that grows.
ghost use Rattle.std.specs.Prelude.{◌≡◌, ◌↔◌, ◌-◌, ◌++◌, [], ◌∷◌, length, slice_get, Some, IsTrue, OnOk};

use std::alloc::{AllocError, Global};
use std::marker::Model;

/// Some numbers in order.
#[derive(Drop)]
pub(crate) struct Row {
    numbers: Vec<usize>,
}

impl Model for Row {
    ghost use Rattle.std.specs.Prelude.{List, ℕ};

    ghost Value = { List ℕ };

    ghost view = { λ r. r.numbers.items };
}

impl Row {
    pub(crate) fn new(alloc: Global) -> Row
        ensures { result ≡ [] }
    {
        Row {
            numbers: Vec::new(alloc),
        }
    }

    pub(crate) fn push(&mut self, number: usize) -> Result<(), AllocError>
        ensures { OnOk result (self.new ≡ self.old ++ number ∷ []) }
    {
        self.numbers.push(number)?;
        Ok(())
    }

    pub(crate) fn ends_with(&self, number: usize) -> bool
        ensures { IsTrue result ↔ (slice_get self.now (length self.now - 1) ≡ Some number) }
    {
        match self.numbers.last() {
            Some(last) => *last == number,
            None => false,
        }
    }

    pub(crate) fn as_slice(&self) -> &[usize]
        ensures { result.now ≡ self.now }
    {
        self.numbers.as_slice()
    }
}
