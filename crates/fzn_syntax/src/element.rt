//! Types.
ghost use Rattle.std.specs.Prelude.{◌≡◌};
ghost use Rattle.reading.specs.Gives.{Gives};
ghost use Rattle.fzn_words.specs.Words.{words};
ghost use Rattle.fzn_syntax.specs.Reading.{element_at, set_of_at, parameter_type_at, domain_at, variable_type_at};

use crate::number::{Bounds, Number, read_bounds, read_set};
use crate::sequence::Sequence;
use crate::sign::{next_is, read_sign};
use fzn_lex::Token;
use fzn_words::Terminal;
use reading::ParseError;
use std::alloc::Global;

/// What a variable takes, or what a set holds.
#[derive(Drop)]
pub enum Element {
    Int,
    Float,
    Range(Bounds),
    Set(Sequence<Number>),
}

/// The type of a parameter.
#[derive(Drop)]
pub enum ParameterType {
    Bool,
    Int,
    Float,
    SetOf(Element),
}

/// The type of a variable, without `var`.
#[derive(Drop)]
pub enum VariableType {
    Bool,
    Plain(Element),
    SetOf(Element),
}

#[tactic(auto, unfolding(crate::specs::Reading::element_at))]
fn read_element<'a>(
    alloc: Global,
    bytes: &[u8],
    tokens: &'a [Token],
) -> Result<(Element, &'a [Token]), ParseError>
    ensures { Gives (λ x. (x.0, words bytes.now x.1.now)) result (element_at (words bytes.now tokens.now)) }
{
    if next_is(Terminal::IntWord, bytes, tokens) {
        let rest = read_sign(Terminal::IntWord, bytes, tokens)?;
        return Ok((Element::Int, rest));
    }
    if next_is(Terminal::FloatWord, bytes, tokens) {
        let rest = read_sign(Terminal::FloatWord, bytes, tokens)?;
        return Ok((Element::Float, rest));
    }
    if next_is(Terminal::LeftBrace, bytes, tokens) {
        let (numbers, rest) = read_set(alloc, bytes, tokens)?;
        return Ok((Element::Set(numbers), rest));
    }
    let (bounds, rest) = read_bounds(alloc, bytes, tokens)?;
    Ok((Element::Range(bounds), rest))
}

#[tactic(auto, unfolding(crate::specs::Reading::set_of_at))]
fn read_set_of<'a>(
    alloc: Global,
    bytes: &[u8],
    tokens: &'a [Token],
) -> Result<(Element, &'a [Token]), ParseError>
    ensures { Gives (λ x. (x.0, words bytes.now x.1.now)) result (set_of_at (words bytes.now tokens.now)) }
{
    let rest = read_sign(Terminal::Set, bytes, tokens)?;
    let rest = read_sign(Terminal::Of, bytes, rest)?;
    let (element, rest) = read_element(alloc, bytes, rest)?;
    Ok((element, rest))
}

#[tactic(auto, unfolding(crate::specs::Reading::parameter_type_at))]
pub(crate) fn read_parameter_type<'a>(
    alloc: Global,
    bytes: &[u8],
    tokens: &'a [Token],
) -> Result<(ParameterType, &'a [Token]), ParseError>
    ensures { Gives (λ x. (x.0, words bytes.now x.1.now)) result (parameter_type_at (words bytes.now tokens.now)) }
{
    if next_is(Terminal::Bool, bytes, tokens) {
        let rest = read_sign(Terminal::Bool, bytes, tokens)?;
        return Ok((ParameterType::Bool, rest));
    }
    if next_is(Terminal::IntWord, bytes, tokens) {
        let rest = read_sign(Terminal::IntWord, bytes, tokens)?;
        return Ok((ParameterType::Int, rest));
    }
    if next_is(Terminal::FloatWord, bytes, tokens) {
        let rest = read_sign(Terminal::FloatWord, bytes, tokens)?;
        return Ok((ParameterType::Float, rest));
    }
    let (element, rest) = read_set_of(alloc, bytes, tokens)?;
    Ok((ParameterType::SetOf(element), rest))
}

#[tactic(auto, unfolding(crate::specs::Reading::domain_at))]
fn read_domain<'a>(
    alloc: Global,
    bytes: &[u8],
    tokens: &'a [Token],
) -> Result<(VariableType, &'a [Token]), ParseError>
    ensures { Gives (λ x. (x.0, words bytes.now x.1.now)) result (domain_at (words bytes.now tokens.now)) }
{
    if next_is(Terminal::Bool, bytes, tokens) {
        let rest = read_sign(Terminal::Bool, bytes, tokens)?;
        return Ok((VariableType::Bool, rest));
    }
    if next_is(Terminal::Set, bytes, tokens) {
        let (element, rest) = read_set_of(alloc, bytes, tokens)?;
        return Ok((VariableType::SetOf(element), rest));
    }
    let (element, rest) = read_element(alloc, bytes, tokens)?;
    Ok((VariableType::Plain(element), rest))
}

#[tactic(auto, unfolding(crate::specs::Reading::variable_type_at))]
pub(crate) fn read_variable_type<'a>(
    alloc: Global,
    bytes: &[u8],
    tokens: &'a [Token],
) -> Result<(VariableType, &'a [Token]), ParseError>
    ensures { Gives (λ x. (x.0, words bytes.now x.1.now)) result (variable_type_at (words bytes.now tokens.now)) }
{
    let rest = read_sign(Terminal::Var, bytes, tokens)?;
    let (domain, rest) = read_domain(alloc, bytes, rest)?;
    Ok((domain, rest))
}
