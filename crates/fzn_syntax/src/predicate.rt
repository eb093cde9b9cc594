//! Predicate items.
ghost use Rattle.std.specs.Prelude.{◌≡◌};
ghost use Rattle.reading.specs.Gives.{Gives};
ghost use Rattle.fzn_words.specs.Words.{words};
ghost use Rattle.fzn_syntax.specs.ItemReading.{predicate_at, predicates_at};

use crate::balance::read_body;
use crate::identifier::{Identifier, read_name};
use crate::sequence::Sequence;
use crate::sign::{next_is, read_sign};
use fzn_lex::Token;
use fzn_words::{Terminal, Word};
use reading::ParseError;
use std::alloc::Global;

/// A predicate. Its body is kept as it is written, with its parentheses.
#[derive(Drop)]
pub struct Predicate {
    pub name: Identifier,
    pub body: Sequence<Word>,
}

#[tactic(auto, unfolding(crate::specs::ItemReading::predicate_at))]
fn read_predicate<'a>(
    alloc: Global,
    bytes: &[u8],
    tokens: &'a [Token],
) -> Result<(Predicate, &'a [Token]), ParseError>
    ensures { Gives (λ x. (x.0, words bytes.now x.1.now)) result (predicate_at (words bytes.now tokens.now)) }
{
    let rest = read_sign(Terminal::Predicate, bytes, tokens)?;
    let (name, rest) = read_name(alloc, bytes, rest)?;
    let (body, rest) = read_body(alloc, bytes, rest)?;
    let rest = read_sign(Terminal::Semicolon, bytes, rest)?;
    Ok((Predicate { name, body }, rest))
}

pub(crate) fn read_predicates<'a>(
    alloc: Global,
    bytes: &[u8],
    tokens: &'a [Token],
) -> Result<(Sequence<Predicate>, &'a [Token]), ParseError>
    ensures { Gives (λ x. (x.0, words bytes.now x.1.now)) result (predicates_at (words bytes.now tokens.now)) }
{
    let mut predicates = Vec::new(alloc);
    let mut rest = tokens;
    'more: while next_is(Terminal::Predicate, bytes, rest) {
        let (predicate, after) = read_predicate(alloc, bytes, rest)?;
        predicates.push(predicate)?;
        rest = after;
    }
    Ok((Sequence::from_vec(predicates), rest))
}
