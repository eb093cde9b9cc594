//! From tokens to items.
ghost use Rattle.std.specs.Prelude.{◌≡◌, ◌-◌, ◌≤◌, length, drop};
ghost use Rattle.fzn_words.specs.Words.{words};
ghost use Rattle.fzn_syntax.specs.Parsed.{place_of, IsParsed, HasOneAnswer};

use crate::error::SyntaxError;
use crate::items::{Items, read_text};
use fzn_lex::Token;
use reading::ParseError;
use std::alloc::Global;

// The first byte of the token from which on so many are left.
fn place(bytes: &[u8], tokens: &[Token], left: usize) -> u64
    requires { left ≤ length tokens.now }
    ensures { result ≡ place_of (length bytes.now) (words bytes.now (drop (length tokens.now - left) tokens.now)) }
{
    match &tokens[tokens.len() - left..] {
        [] => bytes.len() as u64,
        [token, ..] => token.start,
    }
}

/// The items that the tokens of a text spell.
pub fn parse(alloc: Global, bytes: &[u8], tokens: &[Token]) -> Result<Items, SyntaxError>
    ensures { IsParsed (length bytes.now) (words bytes.now tokens.now) result }
{
    match read_text(alloc, bytes, tokens) {
        Ok((items, _)) => Ok(items),
        Err(ParseError::Memory) => Err(SyntaxError::Memory),
        Err(ParseError::Stuck(left)) => Err(SyntaxError::Unexpected {
            at: place(bytes, tokens, left),
        }),
    }
}

/// One list of words has one answer, want of memory aside: so each error comes exactly where it
/// should, and its place is the first. The call does nothing.
pub fn tokens_have_one_answer()
    ensures { HasOneAnswer }
{}
