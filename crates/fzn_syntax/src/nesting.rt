//! The brackets that are open around a place among arguments.
ghost use Rattle.std.specs.Prelude.{◌≡◌, IfOk};
ghost use Rattle.fzn_words.specs.Words.{code};
ghost use Rattle.fzn_syntax.specs.Turns.{opened, moved, turn};
ghost use Rattle.fzn_syntax.specs.Moves.{IsMoved};

use crate::turn::{Moved, Place, Turn, turn_of};
use fzn_words::Terminal;
use std::alloc::{AllocError, Global};
use std::marker::Model;

// The place, whether the innermost open bracket is a parenthesis, and which stand around it.
#[derive(Drop)]
pub(crate) struct Nesting {
    place: Place,
    paren: bool,
    below: Vec<bool>,
}

impl Model for Nesting {
    ghost use Rattle.std.specs.Prelude.{reverse};
    ghost use Rattle.fzn_syntax.specs.Position.{Position};

    ghost Value = { Position };

    ghost view = { λ s. record { place = s.place; paren = s.paren; below = reverse s.below.items } };
}

impl Nesting {
    pub(crate) fn opened(alloc: Global) -> Nesting
        ensures { result ≡ opened }
    {
        Nesting {
            place: Place::First,
            paren: true,
            below: Vec::new(alloc),
        }
    }

    pub(crate) fn take(&mut self, terminal: Terminal) -> Result<Moved, AllocError>
        ensures { IfOk result (λ m. IsMoved m (moved (turn self.old.place self.old.paren (code terminal)) self.old.paren self.old.below) self.new) }
    {
        match turn_of(self.place, self.paren, terminal) {
            Turn::Stop => Ok(Moved::Stop),
            Turn::Pop => match self.below.pop() {
                None => Ok(Moved::Done),
                Some(paren) => {
                    self.paren = paren;
                    self.place = Place::After;
                    Ok(Moved::On)
                }
            },
            Turn::Stay(place) => {
                self.place = place;
                Ok(Moved::On)
            }
            Turn::Push(paren) => {
                self.below.push(self.paren)?;
                self.paren = paren;
                self.place = Place::First;
                Ok(Moved::On)
            }
        }
    }
}
