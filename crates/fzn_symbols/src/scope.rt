//! The declarations of a text, found by their names.
ghost use Rattle.std.specs.Prelude.{◌≡◌, length, slice_get, Some, MatchOption};
ghost use Rattle.fzn_symbols.specs.Named.{names_of, AreDifferent, IsNamed, IsPlaced, IsUndeclared};

use crate::names::Names;
use fzn_syntax::Declaration;
use std::marker::Model;

/// The declarations of a text, found by their names.
#[derive(Drop)]
pub struct Scope<'a> {
    declarations: &'a [Declaration],
    names: Names<'a>,
}

impl<'a> Model for Scope<'a> {
    ghost use Rattle.std.specs.Prelude.{◌≡◌, List};
    ghost use Rattle.fzn_syntax.specs.declared.declaration.Declaration.{Declaration};
    ghost use Rattle.fzn_symbols.specs.Named.{names_of, AreDifferent};

    ghost Value = { List Declaration };

    ghost view = { λ s. s.declarations.now };

    ghost invariant = { λ s. (s.names ≡ names_of s.declarations.now) × AreDifferent (names_of s.declarations.now) };
}

impl<'a> Scope<'a> {
    /// The declarations whose names are numbered in this order.
    pub(crate) fn new(declarations: &'a [Declaration], names: Names<'a>) -> Scope<'a>
        requires numbered { names ≡ names_of declarations.now }
        requires different { AreDifferent (names_of declarations.now) }
        ensures { result ≡ declarations.now }
    {
        Scope {
            declarations,
            names,
        }
    }

    /// All of them, in order of the text.
    pub fn declarations(&self) -> &'a [Declaration]
        ensures all { result.now ≡ self.now }
        ensures different { AreDifferent (names_of self.now) }
    {
        self.declarations
    }

    /// The place of the declaration of this name, from 0.
    pub fn place(&self, name: &[u8]) -> Option<usize>
        ensures { MatchOption result (IsUndeclared self.now name.now) (IsPlaced self.now name.now) }
    {
        self.names.find(name)
    }

    /// The declaration of this name.
    pub fn declaration(&self, name: &[u8]) -> Option<&'a Declaration>
        ensures { MatchOption result (IsUndeclared self.now name.now) (λ d. IsNamed self.now name.now d.now) }
    {
        match self.names.find(name) {
            None => None,
            Some(place) => self.declarations.get(place),
        }
    }
}
