//! Numbers, ranges and sets of them.
ghost use Rattle.std.specs.Prelude.{◌≡◌};
ghost use Rattle.reading.specs.Gives.{Gives};
ghost use Rattle.reading.specs.Readers.{begins};
ghost use Rattle.fzn_words.specs.Words.{words, word_of};
ghost use Rattle.fzn_syntax.specs.Reading.{int_at, number_at, is_number, bounds_at, more_numbers_at, numbers_at, some_numbers_at, set_at};

use crate::sequence::Sequence;
use crate::sign::{is, next_is, read_sign};
use fzn_lex::{Token, What};
use fzn_words::{Spelling, Terminal, kept_text};
use reading::ParseError;
use std::alloc::Global;

#[derive(Debug, Drop)]
pub enum Number {
    Int(i64),
    /// As it is written.
    Float(Spelling),
}

/// Both ends of a range, which may stand in the wrong order.
#[derive(Debug, Drop)]
pub struct Bounds {
    pub lower: Number,
    pub upper: Number,
}

#[tactic(auto, unfolding(crate::specs::Reading::int_at))]
pub(crate) fn read_int<'a>(
    bytes: &[u8],
    tokens: &'a [Token],
) -> Result<(i64, &'a [Token]), ParseError>
    ensures { Gives (λ x. (x.0, words bytes.now x.1.now)) result (int_at (words bytes.now tokens.now)) }
{
    match tokens {
        [] => Err(ParseError::Stuck(0)),
        [token, rest @ ..] => match token.what {
            What::Int(value) => Ok((value, rest)),
            _ => Err(ParseError::Stuck(tokens.len())),
        },
    }
}

#[tactic(auto, unfolding(crate::specs::Reading::number_at))]
pub(crate) fn read_number<'a>(
    alloc: Global,
    bytes: &[u8],
    tokens: &'a [Token],
) -> Result<(Number, &'a [Token]), ParseError>
    ensures { Gives (λ x. (x.0, words bytes.now x.1.now)) result (number_at (words bytes.now tokens.now)) }
{
    match tokens {
        [] => Err(ParseError::Stuck(0)),
        [token, rest @ ..] => match token.what {
            What::Int(value) => Ok((Number::Int(value), rest)),
            What::Float => {
                let text = Spelling::from_slice(alloc, kept_text(bytes, token))?;
                Ok((Number::Float(text), rest))
            }
            _ => Err(ParseError::Stuck(tokens.len())),
        },
    }
}

pub(crate) fn next_is_number(bytes: &[u8], tokens: &[Token]) -> bool
    ensures { result ≡ begins is_number (words bytes.now tokens.now) }
{
    match tokens {
        [] => false,
        [token, ..] => is(Terminal::Int, bytes, token) || is(Terminal::Float, bytes, token),
    }
}

#[tactic(auto, unfolding(crate::specs::Reading::bounds_at))]
pub(crate) fn read_bounds<'a>(
    alloc: Global,
    bytes: &[u8],
    tokens: &'a [Token],
) -> Result<(Bounds, &'a [Token]), ParseError>
    ensures { Gives (λ x. (x.0, words bytes.now x.1.now)) result (bounds_at (words bytes.now tokens.now)) }
{
    let (lower, rest) = read_number(alloc, bytes, tokens)?;
    let rest = read_sign(Terminal::DotDot, bytes, rest)?;
    let (upper, rest) = read_number(alloc, bytes, rest)?;
    Ok((Bounds { lower, upper }, rest))
}

fn read_more_numbers<'a>(
    alloc: Global,
    bytes: &[u8],
    tokens: &'a [Token],
) -> Result<(Number, &'a [Token]), ParseError>
    ensures { Gives (λ x. (x.0, words bytes.now x.1.now)) result (more_numbers_at (words bytes.now tokens.now)) }
{
    let rest = read_sign(Terminal::Comma, bytes, tokens)?;
    let (number, rest) = read_number(alloc, bytes, rest)?;
    Ok((number, rest))
}

#[tactic(auto, unfolding(crate::specs::Reading::numbers_at))]
fn read_numbers<'a>(
    alloc: Global,
    bytes: &[u8],
    tokens: &'a [Token],
) -> Result<(Sequence<Number>, &'a [Token]), ParseError>
    ensures { Gives (λ x. (x.0, words bytes.now x.1.now)) result (numbers_at (words bytes.now tokens.now)) }
{
    let (number, after) = read_number(alloc, bytes, tokens)?;
    let mut numbers = Vec::new(alloc);
    numbers.push(number)?;
    let mut rest = after;
    'more: while next_is(Terminal::Comma, bytes, rest) {
        let (number, after) = read_more_numbers(alloc, bytes, rest)?;
        numbers.push(number)?;
        rest = after;
    }
    Ok((Sequence::from_vec(numbers), rest))
}

#[tactic(auto, unfolding(crate::specs::Reading::some_numbers_at))]
fn read_some_numbers<'a>(
    alloc: Global,
    bytes: &[u8],
    tokens: &'a [Token],
) -> Result<(Sequence<Number>, &'a [Token]), ParseError>
    ensures { Gives (λ x. (x.0, words bytes.now x.1.now)) result (some_numbers_at (words bytes.now tokens.now)) }
{
    if next_is_number(bytes, tokens) {
        read_numbers(alloc, bytes, tokens)
    } else {
        Ok((Sequence::from_vec(Vec::new(alloc)), tokens))
    }
}

#[tactic(auto, unfolding(crate::specs::Reading::set_at))]
pub(crate) fn read_set<'a>(
    alloc: Global,
    bytes: &[u8],
    tokens: &'a [Token],
) -> Result<(Sequence<Number>, &'a [Token]), ParseError>
    ensures { Gives (λ x. (x.0, words bytes.now x.1.now)) result (set_at (words bytes.now tokens.now)) }
{
    let rest = read_sign(Terminal::LeftBrace, bytes, tokens)?;
    let (numbers, rest) = read_some_numbers(alloc, bytes, rest)?;
    let rest = read_sign(Terminal::RightBrace, bytes, rest)?;
    Ok((numbers, rest))
}
