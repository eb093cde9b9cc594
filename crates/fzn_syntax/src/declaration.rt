//! Declarations.
ghost use Rattle.std.specs.Prelude.{◌≡◌};
ghost use Rattle.reading.specs.Gives.{Gives};
ghost use Rattle.reading.specs.Readers.{begins};
ghost use Rattle.fzn_words.specs.Words.{words};
ghost use Rattle.fzn_syntax.specs.ItemReading.{parameter_at, value_at, maybe_value_at, variable_at, index_at, variable_entries_at, entries_at, array_of, array_at, declaration_at, leads_declaration, declarations_at};

use crate::annotation::{Annotation, read_annotations};
use crate::element::{ParameterType, VariableType, read_parameter_type, read_variable_type};
use crate::expression::{Expression, read_expression};
use crate::identifier::{Identifier, read_name};
use crate::number::read_int;
use crate::sequence::Sequence;
use crate::sign::{next_is, read_sign};
use fzn_lex::Token;
use fzn_words::Terminal;
use reading::ParseError;
use std::alloc::Global;

#[derive(Drop)]
pub struct Parameter {
    pub element: ParameterType,
    pub name: Identifier,
    pub value: Expression,
}

#[derive(Drop)]
pub struct VariableDeclaration {
    pub element: VariableType,
    pub name: Identifier,
    pub annotations: Sequence<Annotation>,
    pub value: Option<Expression>,
}

/// The first and the last index of an array, as they are written.
#[derive(Clone, Copy, Debug, PartialEq, Eq, Drop)]
pub struct IndexRange {
    pub first: i64,
    pub last: i64,
}

#[derive(Drop)]
pub struct ParameterArray {
    pub index: IndexRange,
    /// What stands behind `of`.
    pub entries: Parameter,
}

#[derive(Drop)]
pub struct VariableArray {
    pub index: IndexRange,
    pub element: VariableType,
    pub name: Identifier,
    pub annotations: Sequence<Annotation>,
    pub value: Expression,
}

#[derive(Drop)]
pub enum Declaration {
    Parameter(Parameter),
    Variable(VariableDeclaration),
    ParameterArray(ParameterArray),
    VariableArray(VariableArray),
}

// What stands behind `of` in an array of variables.
#[derive(Drop)]
pub(crate) struct VariableEntries {
    pub(crate) element: VariableType,
    pub(crate) name: Identifier,
    pub(crate) annotations: Sequence<Annotation>,
    pub(crate) value: Expression,
}

// What stands behind `of`.
#[derive(Drop)]
pub(crate) enum Entries {
    Parameters(Parameter),
    Variables(VariableEntries),
}

#[tactic(auto, unfolding(crate::specs::ItemReading::parameter_at))]
fn read_parameter<'a>(
    alloc: Global,
    bytes: &[u8],
    tokens: &'a [Token],
) -> Result<(Parameter, &'a [Token]), ParseError>
    ensures { Gives (λ x. (x.0, words bytes.now x.1.now)) result (parameter_at (words bytes.now tokens.now)) }
{
    let (element, rest) = read_parameter_type(alloc, bytes, tokens)?;
    let rest = read_sign(Terminal::Colon, bytes, rest)?;
    let (name, rest) = read_name(alloc, bytes, rest)?;
    let rest = read_sign(Terminal::Equal, bytes, rest)?;
    let (value, rest) = read_expression(alloc, bytes, rest)?;
    let rest = read_sign(Terminal::Semicolon, bytes, rest)?;
    let parameter = Parameter {
        element,
        name,
        value,
    };
    Ok((parameter, rest))
}

#[tactic(auto, unfolding(crate::specs::ItemReading::value_at))]
fn read_value<'a>(
    alloc: Global,
    bytes: &[u8],
    tokens: &'a [Token],
) -> Result<(Expression, &'a [Token]), ParseError>
    ensures { Gives (λ x. (x.0, words bytes.now x.1.now)) result (value_at (words bytes.now tokens.now)) }
{
    let rest = read_sign(Terminal::Equal, bytes, tokens)?;
    let (value, rest) = read_expression(alloc, bytes, rest)?;
    Ok((value, rest))
}

#[tactic(auto, unfolding(crate::specs::ItemReading::maybe_value_at))]
fn read_maybe_value<'a>(
    alloc: Global,
    bytes: &[u8],
    tokens: &'a [Token],
) -> Result<(Option<Expression>, &'a [Token]), ParseError>
    ensures { Gives (λ x. (x.0, words bytes.now x.1.now)) result (maybe_value_at (words bytes.now tokens.now)) }
{
    if next_is(Terminal::Equal, bytes, tokens) {
        let (value, rest) = read_value(alloc, bytes, tokens)?;
        return Ok((Some(value), rest));
    }
    Ok((None, tokens))
}

#[tactic(auto, unfolding(crate::specs::ItemReading::variable_at))]
fn read_variable<'a>(
    alloc: Global,
    bytes: &[u8],
    tokens: &'a [Token],
) -> Result<(VariableDeclaration, &'a [Token]), ParseError>
    ensures { Gives (λ x. (x.0, words bytes.now x.1.now)) result (variable_at (words bytes.now tokens.now)) }
{
    let (element, rest) = read_variable_type(alloc, bytes, tokens)?;
    let rest = read_sign(Terminal::Colon, bytes, rest)?;
    let (name, rest) = read_name(alloc, bytes, rest)?;
    let (annotations, rest) = read_annotations(alloc, bytes, rest)?;
    let (value, rest) = read_maybe_value(alloc, bytes, rest)?;
    let rest = read_sign(Terminal::Semicolon, bytes, rest)?;
    let variable = VariableDeclaration {
        element,
        name,
        annotations,
        value,
    };
    Ok((variable, rest))
}

#[tactic(auto, unfolding(crate::specs::ItemReading::index_at))]
fn read_index<'a>(
    bytes: &[u8],
    tokens: &'a [Token],
) -> Result<(IndexRange, &'a [Token]), ParseError>
    ensures { Gives (λ x. (x.0, words bytes.now x.1.now)) result (index_at (words bytes.now tokens.now)) }
{
    let rest = read_sign(Terminal::Array, bytes, tokens)?;
    let rest = read_sign(Terminal::LeftBracket, bytes, rest)?;
    let (first, rest) = read_int(bytes, rest)?;
    let rest = read_sign(Terminal::DotDot, bytes, rest)?;
    let (last, rest) = read_int(bytes, rest)?;
    let rest = read_sign(Terminal::RightBracket, bytes, rest)?;
    let rest = read_sign(Terminal::Of, bytes, rest)?;
    Ok((IndexRange { first, last }, rest))
}

#[tactic(auto, unfolding(crate::specs::ItemReading::variable_entries_at))]
fn read_variable_entries<'a>(
    alloc: Global,
    bytes: &[u8],
    tokens: &'a [Token],
) -> Result<(VariableEntries, &'a [Token]), ParseError>
    ensures { Gives (λ x. (x.0, words bytes.now x.1.now)) result (variable_entries_at (words bytes.now tokens.now)) }
{
    let (element, rest) = read_variable_type(alloc, bytes, tokens)?;
    let rest = read_sign(Terminal::Colon, bytes, rest)?;
    let (name, rest) = read_name(alloc, bytes, rest)?;
    let (annotations, rest) = read_annotations(alloc, bytes, rest)?;
    let (value, rest) = read_value(alloc, bytes, rest)?;
    let rest = read_sign(Terminal::Semicolon, bytes, rest)?;
    let entries = VariableEntries {
        element,
        name,
        annotations,
        value,
    };
    Ok((entries, rest))
}

#[tactic(auto, unfolding(crate::specs::ItemReading::entries_at))]
fn read_entries<'a>(
    alloc: Global,
    bytes: &[u8],
    tokens: &'a [Token],
) -> Result<(Entries, &'a [Token]), ParseError>
    ensures { Gives (λ x. (x.0, words bytes.now x.1.now)) result (entries_at (words bytes.now tokens.now)) }
{
    if next_is(Terminal::Var, bytes, tokens) {
        let (entries, rest) = read_variable_entries(alloc, bytes, tokens)?;
        return Ok((Entries::Variables(entries), rest));
    }
    let (parameter, rest) = read_parameter(alloc, bytes, tokens)?;
    Ok((Entries::Parameters(parameter), rest))
}

fn array_of(index: IndexRange, entries: Entries) -> Declaration
    ensures { result ≡ array_of (index, entries) }
{
    match entries {
        Entries::Parameters(entries) => Declaration::ParameterArray(ParameterArray {
            index,
            entries,
        }),
        Entries::Variables(entries) => Declaration::VariableArray(VariableArray {
            index,
            element: entries.element,
            name: entries.name,
            annotations: entries.annotations,
            value: entries.value,
        }),
    }
}

#[tactic(auto, unfolding(crate::specs::ItemReading::array_at))]
fn read_array<'a>(
    alloc: Global,
    bytes: &[u8],
    tokens: &'a [Token],
) -> Result<(Declaration, &'a [Token]), ParseError>
    ensures { Gives (λ x. (x.0, words bytes.now x.1.now)) result (array_at (words bytes.now tokens.now)) }
{
    let (index, rest) = read_index(bytes, tokens)?;
    let (entries, rest) = read_entries(alloc, bytes, rest)?;
    Ok((array_of(index, entries), rest))
}

#[tactic(auto, unfolding(crate::specs::ItemReading::declaration_at))]
fn read_declaration<'a>(
    alloc: Global,
    bytes: &[u8],
    tokens: &'a [Token],
) -> Result<(Declaration, &'a [Token]), ParseError>
    ensures { Gives (λ x. (x.0, words bytes.now x.1.now)) result (declaration_at (words bytes.now tokens.now)) }
{
    if next_is(Terminal::Array, bytes, tokens) {
        return read_array(alloc, bytes, tokens);
    }
    if next_is(Terminal::Var, bytes, tokens) {
        let (variable, rest) = read_variable(alloc, bytes, tokens)?;
        return Ok((Declaration::Variable(variable), rest));
    }
    let (parameter, rest) = read_parameter(alloc, bytes, tokens)?;
    Ok((Declaration::Parameter(parameter), rest))
}

fn next_leads_declaration(bytes: &[u8], tokens: &[Token]) -> bool
    ensures { result ≡ begins leads_declaration (words bytes.now tokens.now) }
{
    next_is(Terminal::Array, bytes, tokens)
        || next_is(Terminal::Var, bytes, tokens)
        || next_is(Terminal::Bool, bytes, tokens)
        || next_is(Terminal::IntWord, bytes, tokens)
        || next_is(Terminal::FloatWord, bytes, tokens)
        || next_is(Terminal::Set, bytes, tokens)
}

pub(crate) fn read_declarations<'a>(
    alloc: Global,
    bytes: &[u8],
    tokens: &'a [Token],
) -> Result<(Sequence<Declaration>, &'a [Token]), ParseError>
    ensures { Gives (λ x. (x.0, words bytes.now x.1.now)) result (declarations_at (words bytes.now tokens.now)) }
{
    let mut declarations = Vec::new(alloc);
    let mut rest = tokens;
    'more: while next_leads_declaration(bytes, rest) {
        let (declaration, after) = read_declaration(alloc, bytes, rest)?;
        declarations.push(declaration)?;
        rest = after;
    }
    Ok((Sequence::from_vec(declarations), rest))
}
