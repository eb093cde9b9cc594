//! Words: tokens with what the grammar needs of their bytes.
ghost use Rattle.std.specs.Prelude.{◌≡◌, [], ◌∷◌, IfOk, MatchOption};
ghost use Rattle.fzn_words.specs.Words.{word_of, bytes_between, kept_text, terminal};

use crate::spelling::Spelling;
use crate::terminal::{Terminal, terminal_by};
use fzn_lex::{Token, What};
use std::alloc::{AllocError, Global};

/// A token with its place. A name, a float and a text have their bytes; of all else `what` says all.
#[derive(Debug, Drop)]
pub struct Word {
    pub what: What,
    pub text: Spelling,
    pub at: u64,
}

fn bytes_of<'a>(bytes: &'a [u8], token: &Token) -> &'a [u8]
    ensures { result.now ≡ bytes_between bytes.now token.now.start token.now.end }
{
    let len = bytes.len();
    let start = (token.start as usize).min(len);
    let end = (token.end as usize).min(len).max(start);
    &bytes[start..end]
}

/// The bytes of a name, a float or a text; of all else none.
pub fn kept_text<'a>(bytes: &'a [u8], token: &Token) -> &'a [u8]
    ensures { result.now ≡ kept_text token.now.what (bytes_between bytes.now token.now.start token.now.end) }
{
    match token.what {
        What::Name | What::Float | What::Text => bytes_of(bytes, token),
        _ => &[],
    }
}

/// What the token is to the grammar.
pub fn terminal_of(bytes: &[u8], token: &Token) -> Terminal
    ensures { result ≡ terminal (word_of bytes.now token.now) }
{
    terminal_by(token.what, kept_text(bytes, token))
}

/// The token with its bytes and its place.
pub fn word_of(alloc: Global, bytes: &[u8], token: &Token) -> Result<Word, AllocError>
    ensures { IfOk result (λ w. w ≡ word_of bytes.now token.now) }
{
    let text = Spelling::from_slice(alloc, kept_text(bytes, token))?;
    Ok(Word {
        what: token.what,
        text,
        at: token.start,
    })
}

/// The first token, and those behind it.
pub fn split_first(tokens: &[Token]) -> Option<(&Token, &[Token])>
    ensures { MatchOption result (tokens.now ≡ []) (λ p. tokens.now ≡ p.0.now ∷ p.1.now) }
{
    match tokens {
        [] => None,
        [token, rest @ ..] => Some((token, rest)),
    }
}
