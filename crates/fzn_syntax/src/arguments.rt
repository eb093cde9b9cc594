//! The arguments of an annotation, kept as their words.
ghost use Rattle.std.specs.Prelude.{◌≡◌};
ghost use Rattle.reading.specs.Gives.{Gives};
ghost use Rattle.fzn_words.specs.Words.{words};
ghost use Rattle.fzn_syntax.specs.Turns.{paren_at, arguments_at};

use crate::nesting::Nesting;
use crate::sequence::Sequence;
use crate::sign::is;
use crate::turn::Moved;
use fzn_lex::Token;
use fzn_words::{Terminal, Word, split_first, terminal_of, word_of};
use reading::ParseError;
use std::alloc::Global;

#[tactic(auto, unfolding(crate::specs::Turns::paren_at))]
pub(crate) fn read_paren<'a>(
    alloc: Global,
    bytes: &[u8],
    tokens: &'a [Token],
) -> Result<(Word, &'a [Token]), ParseError>
    ensures { Gives (λ x. (x.0, words bytes.now x.1.now)) result (paren_at (words bytes.now tokens.now)) }
{
    match tokens {
        [] => Err(ParseError::Stuck(0)),
        [token, rest @ ..] => {
            if !is(Terminal::LeftParen, bytes, token) {
                return Err(ParseError::Stuck(tokens.len()));
            }
            let word = word_of(alloc, bytes, token)?;
            Ok((word, rest))
        }
    }
}

#[tactic(auto, unfolding(crate::specs::Turns::arguments_at))]
pub(crate) fn read_arguments<'a>(
    alloc: Global,
    bytes: &[u8],
    tokens: &'a [Token],
) -> Result<(Sequence<Word>, &'a [Token]), ParseError>
    ensures { Gives (λ x. (x.0, words bytes.now x.1.now)) result (arguments_at (words bytes.now tokens.now)) }
{
    let (paren, after) = read_paren(alloc, bytes, tokens)?;
    let mut flat = Vec::new(alloc);
    flat.push(paren)?;
    let mut nesting = Nesting::opened(alloc);
    let mut rest = after;
    'words: while let Some((token, after)) = split_first(rest) {
        match nesting.take(terminal_of(bytes, token))? {
            Moved::Stop => return Err(ParseError::Stuck(rest.len())),
            Moved::Done => {
                flat.push(word_of(alloc, bytes, token)?)?;
                return Ok((Sequence::from_vec(flat), after));
            }
            Moved::On => {
                flat.push(word_of(alloc, bytes, token)?)?;
                rest = after;
            }
        }
    }
    Err(ParseError::Stuck(0))
}
