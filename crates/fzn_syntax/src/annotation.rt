//! Annotations.
ghost use Rattle.std.specs.Prelude.{◌≡◌};
ghost use Rattle.reading.specs.Gives.{Gives};
ghost use Rattle.fzn_words.specs.Words.{words};
ghost use Rattle.fzn_syntax.specs.ItemReading.{maybe_arguments_at, annotation_at, annotations_at};

use crate::arguments::read_arguments;
use crate::identifier::{Identifier, read_name};
use crate::sequence::Sequence;
use crate::sign::{next_is, read_sign};
use fzn_lex::Token;
use fzn_words::{Terminal, Word};
use reading::ParseError;
use std::alloc::Global;

/// An annotation. Its arguments are kept as they are written, with their parentheses.
#[derive(Drop)]
pub struct Annotation {
    pub name: Identifier,
    pub arguments: Option<Sequence<Word>>,
}

#[tactic(auto, unfolding(crate::specs::ItemReading::maybe_arguments_at))]
fn read_maybe_arguments<'a>(
    alloc: Global,
    bytes: &[u8],
    tokens: &'a [Token],
) -> Result<(Option<Sequence<Word>>, &'a [Token]), ParseError>
    ensures { Gives (λ x. (x.0, words bytes.now x.1.now)) result (maybe_arguments_at (words bytes.now tokens.now)) }
{
    if next_is(Terminal::LeftParen, bytes, tokens) {
        let (arguments, rest) = read_arguments(alloc, bytes, tokens)?;
        return Ok((Some(arguments), rest));
    }
    Ok((None, tokens))
}

#[tactic(auto, unfolding(crate::specs::ItemReading::annotation_at))]
fn read_annotation<'a>(
    alloc: Global,
    bytes: &[u8],
    tokens: &'a [Token],
) -> Result<(Annotation, &'a [Token]), ParseError>
    ensures { Gives (λ x. (x.0, words bytes.now x.1.now)) result (annotation_at (words bytes.now tokens.now)) }
{
    let rest = read_sign(Terminal::DoubleColon, bytes, tokens)?;
    let (name, rest) = read_name(alloc, bytes, rest)?;
    let (arguments, rest) = read_maybe_arguments(alloc, bytes, rest)?;
    Ok((Annotation { name, arguments }, rest))
}

pub(crate) fn read_annotations<'a>(
    alloc: Global,
    bytes: &[u8],
    tokens: &'a [Token],
) -> Result<(Sequence<Annotation>, &'a [Token]), ParseError>
    ensures { Gives (λ x. (x.0, words bytes.now x.1.now)) result (annotations_at (words bytes.now tokens.now)) }
{
    let mut annotations = Vec::new(alloc);
    let mut rest = tokens;
    'more: while next_is(Terminal::DoubleColon, bytes, rest) {
        let (annotation, after) = read_annotation(alloc, bytes, rest)?;
        annotations.push(annotation)?;
        rest = after;
    }
    Ok((Sequence::from_vec(annotations), rest))
}
