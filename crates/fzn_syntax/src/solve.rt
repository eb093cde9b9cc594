//! The solve item.
ghost use Rattle.std.specs.Prelude.{◌≡◌};
ghost use Rattle.reading.specs.Gives.{Gives};
ghost use Rattle.fzn_words.specs.Words.{words};
ghost use Rattle.fzn_syntax.specs.ItemReading.{goal_at, solve_word_at, solve_at};

use crate::annotation::{Annotation, read_annotations};
use crate::identifier::{Identifier, read_name};
use crate::sequence::Sequence;
use crate::sign::{is, next_is, read_sign};
use fzn_lex::Token;
use fzn_words::Terminal;
use reading::ParseError;
use std::alloc::Global;

#[derive(Drop)]
pub enum SolveGoal {
    Satisfy,
    Minimize(Identifier),
    Maximize(Identifier),
}

#[derive(Drop)]
pub struct Solve {
    /// The first byte of the word `solve`.
    pub at: u64,
    pub annotations: Sequence<Annotation>,
    pub goal: SolveGoal,
}

#[tactic(auto, unfolding(crate::specs::ItemReading::goal_at))]
fn read_goal<'a>(
    alloc: Global,
    bytes: &[u8],
    tokens: &'a [Token],
) -> Result<(SolveGoal, &'a [Token]), ParseError>
    ensures { Gives (λ x. (x.0, words bytes.now x.1.now)) result (goal_at (words bytes.now tokens.now)) }
{
    if next_is(Terminal::Satisfy, bytes, tokens) {
        let rest = read_sign(Terminal::Satisfy, bytes, tokens)?;
        return Ok((SolveGoal::Satisfy, rest));
    }
    if next_is(Terminal::Minimize, bytes, tokens) {
        let rest = read_sign(Terminal::Minimize, bytes, tokens)?;
        let (name, rest) = read_name(alloc, bytes, rest)?;
        return Ok((SolveGoal::Minimize(name), rest));
    }
    let rest = read_sign(Terminal::Maximize, bytes, tokens)?;
    let (name, rest) = read_name(alloc, bytes, rest)?;
    Ok((SolveGoal::Maximize(name), rest))
}

#[tactic(auto, unfolding(crate::specs::ItemReading::solve_word_at))]
fn read_solve_word<'a>(bytes: &[u8], tokens: &'a [Token]) -> Result<(u64, &'a [Token]), ParseError>
    ensures { Gives (λ x. (x.0, words bytes.now x.1.now)) result (solve_word_at (words bytes.now tokens.now)) }
{
    match tokens {
        [] => Err(ParseError::Stuck(0)),
        [token, rest @ ..] => {
            if is(Terminal::Solve, bytes, token) {
                Ok((token.start, rest))
            } else {
                Err(ParseError::Stuck(tokens.len()))
            }
        }
    }
}

#[tactic(auto, unfolding(crate::specs::ItemReading::solve_at))]
pub(crate) fn read_solve<'a>(
    alloc: Global,
    bytes: &[u8],
    tokens: &'a [Token],
) -> Result<(Solve, &'a [Token]), ParseError>
    ensures { Gives (λ x. (x.0, words bytes.now x.1.now)) result (solve_at (words bytes.now tokens.now)) }
{
    let (at, rest) = read_solve_word(bytes, tokens)?;
    let (annotations, rest) = read_annotations(alloc, bytes, rest)?;
    let (goal, rest) = read_goal(alloc, bytes, rest)?;
    let rest = read_sign(Terminal::Semicolon, bytes, rest)?;
    let solve = Solve {
        at,
        annotations,
        goal,
    };
    Ok((solve, rest))
}
