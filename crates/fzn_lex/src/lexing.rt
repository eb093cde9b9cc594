//! The tokens of a text.

ghost use Rattle.std.specs.Prelude.{◌≡◌, ◌+◌, ◌^◌, ◌≤◌, ◌<◌, ◌++◌, length, drop, get_or, Err, OnOk, OnErr, IfOk};
ghost use Rattle.fzn_lex.specs.declared.errors.LexError.TheVariants.{Memory};
ghost use Rattle.fzn_lex.specs.Cutting.{IsLexed, AreTokens, HasOneAnswer, seen, told, error_of};
ghost use Rattle.fzn_lex.specs.Heading.{IsFirst};

use crate::errors::LexError;
use crate::pieces::{Fault, Piece, Sort, first_piece};
use crate::scanning::after;
use crate::tokens::Token;
use std::alloc::Global;

// The greatest number of bytes of a text.
const LONGEST: usize = 16_777_216;

// The longest piece at the head of the bytes, or why none is taken.
fn head(bytes: &[u8]) -> Result<Piece, Fault>
    requires { 0 < length bytes.now }
    ensures { IsFirst bytes.now result }
{
    first_piece(bytes)
}

fn error_at(fault: Fault, at: usize) -> LexError
    ensures { result ≡ error_of fault at }
{
    match fault {
        Fault::BadByte => LexError::BadByte { at: at as u64 },
        Fault::BadNumber => LexError::BadNumber { at: at as u64 },
        Fault::OpenString => LexError::OpenString { at: at as u64 },
    }
}

// Appends the piece if it is a token.
fn tell(tokens: &mut Vec<Token>, start: usize, end: usize, sort: Sort) -> Result<(), LexError>
    ensures ok { OnOk result (tokens.new.items ≡ tokens.old.items ++ told start end sort) }
    ensures err { OnErr result (result ≡ Err Memory) }
{
    if let Sort::Word(what) = sort {
        tokens.push(Token {
            start: start as u64,
            end: end as u64,
            what,
        })?;
    }
    Ok(())
}

/// The tokens of the text in their order. Blanks and comments are no tokens.
pub fn lex(alloc: Global, bytes: &[u8]) -> Result<Vec<Token>, LexError>
    ensures answer { IsLexed bytes.now (seen (λ v. v.items) result) }
    ensures spans { IfOk result (λ v. AreTokens bytes.now 0 v.items) }
{
    if bytes.len() > LONGEST {
        return Err(LexError::TooLong);
    }
    let mut tokens = Vec::new(alloc);
    let mut at = 0;
    'pieces: while at < bytes.len() {
        match head(after(bytes, at)) {
            Ok(piece) => {
                tell(&mut tokens, at, at + piece.len, piece.sort)?;
                at += piece.len;
            }
            Err(fault) => return Err(error_at(fault, at)),
        }
    }
    Ok(tokens)
}

/// One text has one answer, want of memory aside: this is what makes the place of a fault the
/// first, and each error come exactly where it should. The call does nothing.
pub fn every_text_has_one_answer()
    ensures { HasOneAnswer }
{}
