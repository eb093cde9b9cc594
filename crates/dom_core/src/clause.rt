//! Clauses: lists of literals of which one is to hold.
ghost use Rattle.std.specs.Prelude.{◌≡◌, ◌++◌, ◌∷◌, [], length, OnOk, OnErr};

use crate::Literal;
use std::alloc::{AllocError, Global};
use std::marker::Model;

/// A list of literals; it holds at an assignment where one of them does.
#[derive(Debug, Drop)]
pub struct Clause {
    items: Vec<Literal>,
}

impl Model for Clause {
    ghost use Rattle.std.specs.Prelude.{List};
    ghost use Rattle.dom_core.specs.declared.literal.Literal.{Literal};

    ghost Value = { List Literal };

    ghost view = { λ c. c.items.items };
}

impl Clause {
    /// The clause without a literal. Its later calls take memory from `alloc`.
    pub fn new(alloc: Global) -> Clause
        ensures { result ≡ [] }
    {
        Clause {
            items: Vec::new(alloc),
        }
    }

    pub fn push(&mut self, literal: Literal) -> Result<(), AllocError>
        ensures ok { OnOk result (self.new ≡ self.old ++ literal ∷ []) }
        ensures err { OnErr result (self.new ≡ self.old) }
    {
        self.items.push(literal)?;
        Ok(())
    }

    pub fn literals(&self) -> &[Literal]
        ensures { result.now ≡ self.now }
    {
        self.items.as_slice()
    }

    pub fn len(&self) -> usize
        ensures { result ≡ length self.now }
    {
        self.items.len()
    }

    /// Drops all literals and keeps the memory.
    pub fn clear(&mut self)
        ensures { self.new ≡ [] }
    {
        self.items.clear();
    }
}
