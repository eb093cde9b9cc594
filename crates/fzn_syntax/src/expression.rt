//! Expressions.
ghost use Rattle.std.specs.Prelude.{◌≡◌};
ghost use Rattle.reading.specs.Gives.{Gives};
ghost use Rattle.reading.specs.Readers.{begins};
ghost use Rattle.fzn_words.specs.Words.{words, word_of};
ghost use Rattle.fzn_syntax.specs.Reading.{upper_at, range_at, basic_at, more_basics_at, basics_at, leads_basic, some_basics_at, list_at, expression_at};

use crate::identifier::{Identifier, read_name};
use crate::number::{Bounds, Number, next_is_number, read_number, read_set};
use crate::sequence::Sequence;
use crate::sign::{next_is, read_sign};
use fzn_lex::Token;
use fzn_words::Terminal;
use reading::ParseError;
use std::alloc::Global;

/// An expression without a list.
#[derive(Drop)]
pub enum Basic {
    True,
    False,
    Name(Identifier),
    Number(Number),
    Range(Bounds),
    Set(Sequence<Number>),
}

#[derive(Drop)]
pub enum Expression {
    Basic(Basic),
    List(Sequence<Basic>),
}

#[tactic(auto, unfolding(crate::specs::Reading::upper_at))]
fn read_upper<'a>(
    alloc: Global,
    bytes: &[u8],
    tokens: &'a [Token],
) -> Result<(Option<Number>, &'a [Token]), ParseError>
    ensures { Gives (λ x. (x.0, words bytes.now x.1.now)) result (upper_at (words bytes.now tokens.now)) }
{
    if next_is(Terminal::DotDot, bytes, tokens) {
        let rest = read_sign(Terminal::DotDot, bytes, tokens)?;
        let (upper, rest) = read_number(alloc, bytes, rest)?;
        return Ok((Some(upper), rest));
    }
    Ok((None, tokens))
}

#[tactic(auto, unfolding(crate::specs::Reading::range_at))]
fn read_range<'a>(
    alloc: Global,
    bytes: &[u8],
    tokens: &'a [Token],
) -> Result<(Basic, &'a [Token]), ParseError>
    ensures { Gives (λ x. (x.0, words bytes.now x.1.now)) result (range_at (words bytes.now tokens.now)) }
{
    let (lower, rest) = read_number(alloc, bytes, tokens)?;
    let (upper, rest) = read_upper(alloc, bytes, rest)?;
    match upper {
        None => Ok((Basic::Number(lower), rest)),
        Some(upper) => Ok((Basic::Range(Bounds { lower, upper }), rest)),
    }
}

#[tactic(auto, unfolding(crate::specs::Reading::basic_at))]
fn read_basic<'a>(
    alloc: Global,
    bytes: &[u8],
    tokens: &'a [Token],
) -> Result<(Basic, &'a [Token]), ParseError>
    ensures { Gives (λ x. (x.0, words bytes.now x.1.now)) result (basic_at (words bytes.now tokens.now)) }
{
    if next_is(Terminal::True, bytes, tokens) {
        let rest = read_sign(Terminal::True, bytes, tokens)?;
        return Ok((Basic::True, rest));
    }
    if next_is(Terminal::False, bytes, tokens) {
        let rest = read_sign(Terminal::False, bytes, tokens)?;
        return Ok((Basic::False, rest));
    }
    if next_is(Terminal::LeftBrace, bytes, tokens) {
        let (numbers, rest) = read_set(alloc, bytes, tokens)?;
        return Ok((Basic::Set(numbers), rest));
    }
    if next_is_number(bytes, tokens) {
        return read_range(alloc, bytes, tokens);
    }
    let (name, rest) = read_name(alloc, bytes, tokens)?;
    Ok((Basic::Name(name), rest))
}

fn read_more_basics<'a>(
    alloc: Global,
    bytes: &[u8],
    tokens: &'a [Token],
) -> Result<(Basic, &'a [Token]), ParseError>
    ensures { Gives (λ x. (x.0, words bytes.now x.1.now)) result (more_basics_at (words bytes.now tokens.now)) }
{
    let rest = read_sign(Terminal::Comma, bytes, tokens)?;
    let (basic, rest) = read_basic(alloc, bytes, rest)?;
    Ok((basic, rest))
}

#[tactic(auto, unfolding(crate::specs::Reading::basics_at))]
fn read_basics<'a>(
    alloc: Global,
    bytes: &[u8],
    tokens: &'a [Token],
) -> Result<(Sequence<Basic>, &'a [Token]), ParseError>
    ensures { Gives (λ x. (x.0, words bytes.now x.1.now)) result (basics_at (words bytes.now tokens.now)) }
{
    let (basic, after) = read_basic(alloc, bytes, tokens)?;
    let mut basics = Vec::new(alloc);
    basics.push(basic)?;
    let mut rest = after;
    'more: while next_is(Terminal::Comma, bytes, rest) {
        let (basic, after) = read_more_basics(alloc, bytes, rest)?;
        basics.push(basic)?;
        rest = after;
    }
    Ok((Sequence::from_vec(basics), rest))
}

pub(crate) fn next_leads_basic(bytes: &[u8], tokens: &[Token]) -> bool
    ensures { result ≡ begins leads_basic (words bytes.now tokens.now) }
{
    next_is(Terminal::True, bytes, tokens)
        || next_is(Terminal::False, bytes, tokens)
        || next_is(Terminal::LeftBrace, bytes, tokens)
        || next_is_number(bytes, tokens)
        || next_is(Terminal::Name, bytes, tokens)
}

#[tactic(auto, unfolding(crate::specs::Reading::some_basics_at))]
fn read_some_basics<'a>(
    alloc: Global,
    bytes: &[u8],
    tokens: &'a [Token],
) -> Result<(Sequence<Basic>, &'a [Token]), ParseError>
    ensures { Gives (λ x. (x.0, words bytes.now x.1.now)) result (some_basics_at (words bytes.now tokens.now)) }
{
    if next_leads_basic(bytes, tokens) {
        read_basics(alloc, bytes, tokens)
    } else {
        Ok((Sequence::from_vec(Vec::new(alloc)), tokens))
    }
}

#[tactic(auto, unfolding(crate::specs::Reading::list_at))]
fn read_list<'a>(
    alloc: Global,
    bytes: &[u8],
    tokens: &'a [Token],
) -> Result<(Sequence<Basic>, &'a [Token]), ParseError>
    ensures { Gives (λ x. (x.0, words bytes.now x.1.now)) result (list_at (words bytes.now tokens.now)) }
{
    let rest = read_sign(Terminal::LeftBracket, bytes, tokens)?;
    let (basics, rest) = read_some_basics(alloc, bytes, rest)?;
    let rest = read_sign(Terminal::RightBracket, bytes, rest)?;
    Ok((basics, rest))
}

#[tactic(auto, unfolding(crate::specs::Reading::expression_at))]
pub(crate) fn read_expression<'a>(
    alloc: Global,
    bytes: &[u8],
    tokens: &'a [Token],
) -> Result<(Expression, &'a [Token]), ParseError>
    ensures { Gives (λ x. (x.0, words bytes.now x.1.now)) result (expression_at (words bytes.now tokens.now)) }
{
    if next_is(Terminal::LeftBracket, bytes, tokens) {
        let (basics, rest) = read_list(alloc, bytes, tokens)?;
        return Ok((Expression::List(basics), rest));
    }
    let (basic, rest) = read_basic(alloc, bytes, tokens)?;
    Ok((Expression::Basic(basic), rest))
}
