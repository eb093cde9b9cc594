//! All items of a text.
ghost use Rattle.std.specs.Prelude.{◌≡◌};
ghost use Rattle.reading.specs.Gives.{Gives};
ghost use Rattle.fzn_words.specs.Words.{words};
ghost use Rattle.fzn_syntax.specs.ItemReading.{items_at, text_at};

use crate::constraint::{Constraint, read_constraints};
use crate::declaration::{Declaration, read_declarations};
use crate::predicate::{Predicate, read_predicates};
use crate::sequence::Sequence;
use crate::solve::{Solve, read_solve};
use fzn_lex::Token;
use reading::ParseError;
use std::alloc::Global;

/// The items of a text in their order.
#[derive(Drop)]
pub struct Items {
    pub predicates: Sequence<Predicate>,
    pub declarations: Sequence<Declaration>,
    pub constraints: Sequence<Constraint>,
    pub solve: Solve,
}

#[tactic(auto, unfolding(crate::specs::ItemReading::items_at))]
fn read_items<'a>(
    alloc: Global,
    bytes: &[u8],
    tokens: &'a [Token],
) -> Result<(Items, &'a [Token]), ParseError>
    ensures { Gives (λ x. (x.0, words bytes.now x.1.now)) result (items_at (words bytes.now tokens.now)) }
{
    let (predicates, rest) = read_predicates(alloc, bytes, tokens)?;
    let (declarations, rest) = read_declarations(alloc, bytes, rest)?;
    let (constraints, rest) = read_constraints(alloc, bytes, rest)?;
    let (solve, rest) = read_solve(alloc, bytes, rest)?;
    let items = Items {
        predicates,
        declarations,
        constraints,
        solve,
    };
    Ok((items, rest))
}

#[tactic(auto, unfolding(crate::specs::ItemReading::text_at))]
pub(crate) fn read_text<'a>(
    alloc: Global,
    bytes: &[u8],
    tokens: &'a [Token],
) -> Result<(Items, &'a [Token]), ParseError>
    ensures { Gives (λ x. (x.0, words bytes.now x.1.now)) result (text_at (words bytes.now tokens.now)) }
{
    let (items, rest) = read_items(alloc, bytes, tokens)?;
    match rest {
        [] => Ok((items, rest)),
        [_, ..] => Err(ParseError::Stuck(rest.len())),
    }
}
