//! Set literals.
ghost use Rattle.std.specs.Prelude.{◌≡◌};
ghost use Rattle.reading.specs.Gives.{Gives};
ghost use Rattle.fzn_output_marks.specs.Reading.{range_at, more_ints_at, ints_at, some_ints_at, set_at, literal_at, more_literals_at, literals_at, argument_at};

use crate::sign::{next_is, next_is_int, read_int, read_sign};
use dom_index_sets::IndexSet;
use fzn_lex::What;
use fzn_syntax::Sequence;
use fzn_words::Word;
use reading::ParseError;
use std::alloc::Global;

/// A set of integers, as it is written.
#[derive(Drop)]
pub(crate) enum SetLiteral {
    Range(IndexSet),
    Set(Sequence<i64>),
}

#[tactic(auto, unfolding(crate::specs::Reading::range_at))]
fn read_range(words: &[Word]) -> Result<(IndexSet, &[Word]), ParseError>
    ensures { Gives (λ x. (x.0, x.1.now)) result (range_at words.now) }
{
    let (lo, rest) = read_int(words)?;
    let rest = read_sign(What::DotDot, rest)?;
    let (hi, rest) = read_int(rest)?;
    Ok((IndexSet { lo, hi }, rest))
}

fn read_more_ints(words: &[Word]) -> Result<(i64, &[Word]), ParseError>
    ensures { Gives (λ x. (x.0, x.1.now)) result (more_ints_at words.now) }
{
    let rest = read_sign(What::Comma, words)?;
    let (value, rest) = read_int(rest)?;
    Ok((value, rest))
}

#[tactic(auto, unfolding(crate::specs::Reading::ints_at))]
fn read_ints(alloc: Global, words: &[Word]) -> Result<(Sequence<i64>, &[Word]), ParseError>
    ensures { Gives (λ x. (x.0, x.1.now)) result (ints_at words.now) }
{
    let (value, after) = read_int(words)?;
    let mut values = Vec::new(alloc);
    values.push(value)?;
    let mut rest = after;
    'more: while next_is(What::Comma, rest) {
        let (value, after) = read_more_ints(rest)?;
        values.push(value)?;
        rest = after;
    }
    Ok((Sequence::from_vec(values), rest))
}

#[tactic(auto, unfolding(crate::specs::Reading::some_ints_at))]
fn read_some_ints(alloc: Global, words: &[Word]) -> Result<(Sequence<i64>, &[Word]), ParseError>
    ensures { Gives (λ x. (x.0, x.1.now)) result (some_ints_at words.now) }
{
    if next_is_int(words) {
        read_ints(alloc, words)
    } else {
        Ok((Sequence::from_vec(Vec::new(alloc)), words))
    }
}

#[tactic(auto, unfolding(crate::specs::Reading::set_at))]
fn read_set(alloc: Global, words: &[Word]) -> Result<(Sequence<i64>, &[Word]), ParseError>
    ensures { Gives (λ x. (x.0, x.1.now)) result (set_at words.now) }
{
    let rest = read_sign(What::LeftBrace, words)?;
    let (values, rest) = read_some_ints(alloc, rest)?;
    let rest = read_sign(What::RightBrace, rest)?;
    Ok((values, rest))
}

#[tactic(auto, unfolding(crate::specs::Reading::literal_at))]
fn read_literal(alloc: Global, words: &[Word]) -> Result<(SetLiteral, &[Word]), ParseError>
    ensures { Gives (λ x. (x.0, x.1.now)) result (literal_at words.now) }
{
    if next_is(What::LeftBrace, words) {
        let (values, rest) = read_set(alloc, words)?;
        return Ok((SetLiteral::Set(values), rest));
    }
    let (range, rest) = read_range(words)?;
    Ok((SetLiteral::Range(range), rest))
}

fn read_more_literals(alloc: Global, words: &[Word]) -> Result<(SetLiteral, &[Word]), ParseError>
    ensures { Gives (λ x. (x.0, x.1.now)) result (more_literals_at words.now) }
{
    let rest = read_sign(What::Comma, words)?;
    let (literal, rest) = read_literal(alloc, rest)?;
    Ok((literal, rest))
}

#[tactic(auto, unfolding(crate::specs::Reading::literals_at))]
fn read_literals(
    alloc: Global,
    words: &[Word],
) -> Result<(Sequence<SetLiteral>, &[Word]), ParseError>
    ensures { Gives (λ x. (x.0, x.1.now)) result (literals_at words.now) }
{
    let (literal, after) = read_literal(alloc, words)?;
    let mut literals = Vec::new(alloc);
    literals.push(literal)?;
    let mut rest = after;
    'more: while next_is(What::Comma, rest) {
        let (literal, after) = read_more_literals(alloc, rest)?;
        literals.push(literal)?;
        rest = after;
    }
    Ok((Sequence::from_vec(literals), rest))
}

#[tactic(auto, unfolding(crate::specs::Reading::argument_at))]
pub(crate) fn read_argument(
    alloc: Global,
    words: &[Word],
) -> Result<(Sequence<SetLiteral>, &[Word]), ParseError>
    ensures { Gives (λ x. (x.0, x.1.now)) result (argument_at words.now) }
{
    let rest = read_sign(What::LeftParen, words)?;
    let rest = read_sign(What::LeftBracket, rest)?;
    let (literals, rest) = read_literals(alloc, rest)?;
    let rest = read_sign(What::RightBracket, rest)?;
    let rest = read_sign(What::RightParen, rest)?;
    Ok((literals, rest))
}
