//! Constraint items.
ghost use Rattle.std.specs.Prelude.{◌≡◌};
ghost use Rattle.reading.specs.Gives.{Gives};
ghost use Rattle.reading.specs.Readers.{begins};
ghost use Rattle.fzn_words.specs.Words.{words};
ghost use Rattle.fzn_syntax.specs.ItemReading.{more_expressions_at, expressions_at, leads_expression, some_expressions_at, constraint_at, constraints_at};

use crate::annotation::{Annotation, read_annotations};
use crate::expression::{Expression, next_leads_basic, read_expression};
use crate::identifier::{Identifier, read_name};
use crate::sequence::Sequence;
use crate::sign::{next_is, read_sign};
use fzn_lex::Token;
use fzn_words::Terminal;
use reading::ParseError;
use std::alloc::Global;

#[derive(Drop)]
pub struct Constraint {
    pub name: Identifier,
    pub arguments: Sequence<Expression>,
    pub annotations: Sequence<Annotation>,
}

fn read_more_expressions<'a>(
    alloc: Global,
    bytes: &[u8],
    tokens: &'a [Token],
) -> Result<(Expression, &'a [Token]), ParseError>
    ensures { Gives (λ x. (x.0, words bytes.now x.1.now)) result (more_expressions_at (words bytes.now tokens.now)) }
{
    let rest = read_sign(Terminal::Comma, bytes, tokens)?;
    let (expression, rest) = read_expression(alloc, bytes, rest)?;
    Ok((expression, rest))
}

#[tactic(auto, unfolding(crate::specs::ItemReading::expressions_at))]
fn read_expressions<'a>(
    alloc: Global,
    bytes: &[u8],
    tokens: &'a [Token],
) -> Result<(Sequence<Expression>, &'a [Token]), ParseError>
    ensures { Gives (λ x. (x.0, words bytes.now x.1.now)) result (expressions_at (words bytes.now tokens.now)) }
{
    let (expression, after) = read_expression(alloc, bytes, tokens)?;
    let mut expressions = Vec::new(alloc);
    expressions.push(expression)?;
    let mut rest = after;
    'more: while next_is(Terminal::Comma, bytes, rest) {
        let (expression, after) = read_more_expressions(alloc, bytes, rest)?;
        expressions.push(expression)?;
        rest = after;
    }
    Ok((Sequence::from_vec(expressions), rest))
}

fn next_leads_expression(bytes: &[u8], tokens: &[Token]) -> bool
    ensures { result ≡ begins leads_expression (words bytes.now tokens.now) }
{
    next_is(Terminal::LeftBracket, bytes, tokens) || next_leads_basic(bytes, tokens)
}

#[tactic(auto, unfolding(crate::specs::ItemReading::some_expressions_at))]
fn read_some_expressions<'a>(
    alloc: Global,
    bytes: &[u8],
    tokens: &'a [Token],
) -> Result<(Sequence<Expression>, &'a [Token]), ParseError>
    ensures { Gives (λ x. (x.0, words bytes.now x.1.now)) result (some_expressions_at (words bytes.now tokens.now)) }
{
    if next_leads_expression(bytes, tokens) {
        read_expressions(alloc, bytes, tokens)
    } else {
        Ok((Sequence::from_vec(Vec::new(alloc)), tokens))
    }
}

#[tactic(auto, unfolding(crate::specs::ItemReading::constraint_at))]
fn read_constraint<'a>(
    alloc: Global,
    bytes: &[u8],
    tokens: &'a [Token],
) -> Result<(Constraint, &'a [Token]), ParseError>
    ensures { Gives (λ x. (x.0, words bytes.now x.1.now)) result (constraint_at (words bytes.now tokens.now)) }
{
    let rest = read_sign(Terminal::Constraint, bytes, tokens)?;
    let (name, rest) = read_name(alloc, bytes, rest)?;
    let rest = read_sign(Terminal::LeftParen, bytes, rest)?;
    let (arguments, rest) = read_some_expressions(alloc, bytes, rest)?;
    let rest = read_sign(Terminal::RightParen, bytes, rest)?;
    let (annotations, rest) = read_annotations(alloc, bytes, rest)?;
    let rest = read_sign(Terminal::Semicolon, bytes, rest)?;
    let constraint = Constraint {
        name,
        arguments,
        annotations,
    };
    Ok((constraint, rest))
}

pub(crate) fn read_constraints<'a>(
    alloc: Global,
    bytes: &[u8],
    tokens: &'a [Token],
) -> Result<(Sequence<Constraint>, &'a [Token]), ParseError>
    ensures { Gives (λ x. (x.0, words bytes.now x.1.now)) result (constraints_at (words bytes.now tokens.now)) }
{
    let mut constraints = Vec::new(alloc);
    let mut rest = tokens;
    'more: while next_is(Terminal::Constraint, bytes, rest) {
        let (constraint, after) = read_constraint(alloc, bytes, rest)?;
        constraints.push(constraint)?;
        rest = after;
    }
    Ok((Sequence::from_vec(constraints), rest))
}
