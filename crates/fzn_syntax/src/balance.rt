//! The inside of a predicate: any words whose brackets match.
ghost use Rattle.std.specs.Prelude.{◌≡◌, ◌==◌, ◌∷◌, Some, IfOk};
ghost use Rattle.reading.specs.Gives.{Gives};
ghost use Rattle.fzn_words.specs.Words.{code, words};
ghost use Rattle.fzn_syntax.specs.Moves.{IsMoved};
ghost use Rattle.fzn_syntax.specs.Balance.{closing, covered, uncovered, around_by, enclosed, body_at};

use crate::arguments::read_paren;
use crate::bracket::{Bracket, closing, is_inert};
use crate::sequence::Sequence;
use crate::turn::Moved;
use fzn_lex::Token;
use fzn_words::{Terminal, Word, code, split_first, terminal_of, word_of};
use reading::ParseError;
use std::alloc::{AllocError, Global};
use std::marker::Model;

// The innermost open bracket, and those around it.
#[derive(Drop)]
pub(crate) struct Balance {
    bracket: Bracket,
    below: Vec<Bracket>,
}

impl Model for Balance {
    ghost use Rattle.std.specs.Prelude.{reverse};
    ghost use Rattle.fzn_syntax.specs.Around.{Around};

    ghost Value = { Around };

    ghost view = { λ s. record { bracket = s.bracket; below = reverse s.below.items } };
}

impl Balance {
    pub(crate) fn enclosed(alloc: Global) -> Balance
        ensures { result ≡ enclosed }
    {
        Balance {
            bracket: Bracket::Paren,
            below: Vec::new(alloc),
        }
    }

    fn open(&mut self, bracket: Bracket) -> Result<Moved, AllocError>
        ensures { IfOk result (λ m. IsMoved m (covered bracket self.old) self.new) }
    {
        self.below.push(self.bracket)?;
        self.bracket = bracket;
        Ok(Moved::On)
    }

    fn close(&mut self) -> Moved
        ensures { IsMoved result (Some (uncovered self.old.below)) self.new }
    {
        match self.below.pop() {
            None => Moved::Done,
            Some(bracket) => {
                self.bracket = bracket;
                Moved::On
            }
        }
    }

    fn closes(&self, terminal: Terminal) -> bool
        ensures { result ≡ (code terminal == code (closing self.now.bracket)) }
    {
        code(terminal) == code(closing(self.bracket))
    }

    fn take(&mut self, terminal: Terminal) -> Result<Moved, AllocError>
        ensures { IfOk result (λ m. IsMoved m (around_by self.old (code terminal)) self.new) }
    {
        if code(terminal) == code(Terminal::LeftParen) {
            return self.open(Bracket::Paren);
        }
        if code(terminal) == code(Terminal::LeftBracket) {
            return self.open(Bracket::Square);
        }
        if code(terminal) == code(Terminal::LeftBrace) {
            return self.open(Bracket::Brace);
        }
        if self.closes(terminal) {
            return Ok(self.close());
        }
        if is_inert(terminal) {
            return Ok(Moved::On);
        }
        Ok(Moved::Stop)
    }
}

#[tactic(auto, unfolding(crate::specs::Balance::body_at))]
pub(crate) fn read_body<'a>(
    alloc: Global,
    bytes: &[u8],
    tokens: &'a [Token],
) -> Result<(Sequence<Word>, &'a [Token]), ParseError>
    ensures { Gives (λ x. (x.0, words bytes.now x.1.now)) result (body_at (words bytes.now tokens.now)) }
{
    let (paren, after) = read_paren(alloc, bytes, tokens)?;
    let mut flat = Vec::new(alloc);
    flat.push(paren)?;
    let mut balance = Balance::enclosed(alloc);
    let mut rest = after;
    'words: while let Some((token, after)) = split_first(rest) {
        match balance.take(terminal_of(bytes, token))? {
            Moved::Stop => return Err(ParseError::Stuck(rest.len())),
            Moved::Done => {
                flat.push(word_of(alloc, bytes, token)?)?;
                return Ok((Sequence::from_vec(flat), after));
            }
            Moved::On => {
                flat.push(word_of(alloc, bytes, token)?)?;
                rest = after;
            }
        }
    }
    Err(ParseError::Stuck(0))
}
