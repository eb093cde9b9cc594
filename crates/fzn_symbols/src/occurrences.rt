//! Names where they stand, in order of the text.
ghost use Rattle.std.specs.Prelude.{◌≡◌, [], ◌∷◌, ◌++◌, OnOk};
ghost use Rattle.fzn_symbols.specs.Marks.{marks_of};
ghost use Rattle.fzn_symbols.specs.Occurrences.{mark};

use crate::occurrence::{Occurrence, Role};
use fzn_syntax::Identifier;
use std::alloc::{AllocError, Global};
use std::marker::Model;

/// Names where they stand, in order of the text.
#[derive(Drop)]
pub(crate) struct Occurrences<'a> {
    occurrences: Vec<Occurrence<'a>>,
}

impl<'a> Model for Occurrences<'a> {
    ghost use Rattle.std.specs.Prelude.{List};
    ghost use Rattle.fzn_symbols.specs.Marks.{marks_of};
    ghost use Rattle.fzn_symbols.specs.Numbered.{Mark};

    ghost Value = { List Mark };

    ghost view = { λ o. marks_of o.occurrences.items };
}

impl<'a> Occurrences<'a> {
    pub(crate) fn new(alloc: Global) -> Occurrences<'a>
        ensures { result ≡ [] }
    {
        Occurrences {
            occurrences: Vec::new(alloc),
        }
    }

    pub(crate) fn as_slice(&self) -> &[Occurrence<'a>]
        ensures { marks_of result.now ≡ self.now }
    {
        self.occurrences.as_slice()
    }

    // Puts a name behind the others.
    pub(crate) fn note(&mut self, role: Role, identifier: &'a Identifier) -> Result<(), AllocError>
        ensures { OnOk result (self.new ≡ self.old ++ mark role identifier.now ∷ []) }
    {
        self.occurrences.push(Occurrence {
            name: identifier.name.as_bytes(),
            at: identifier.at,
            role,
        })?;
        Ok(())
    }
}
