//! The variables that declarations declare.
ghost use Rattle.std.specs.Prelude.{◌≡◌, ◌+◌, ◌<◌, ◌≤◌, ◌↔◌, length, map, All, IfOk, IsTrue, OnOk};
ghost use Rattle.std.specs.Str.{IsAscii};
ghost use Rattle.dom_core.specs.Small.{IsSmall};
ghost use Rattle.dom_model.specs.Draft.{AreSmallIntegers, empty_draft, IsSmallDeclared};
ghost use Rattle.fzn_limits.specs.Sizes.{limit, variables_in};
ghost use Rattle.fzn_arguments.specs.Numbers.{base_of};
ghost use Rattle.fzn_model.specs.Answers.{Answers};
ghost use Rattle.fzn_model.specs.Found.{count_by};
ghost use Rattle.fzn_model.specs.Variables.{AreDeclared, declared_element, declared_of, form_of, integer_of, IsAsciiNamed, IsBuiltAs, IsBuiltType, IsDeclaredNext};
ghost use Rattle.fzn_syntax.specs.declared.declaration.Declaration.TheVariants as declarations;

use crate::error::ResolveError;
use dom_core::Values;
use dom_definers::{Declared, Form};
use dom_model::ModelBuilder;
use fzn_symbols::{Base, base_of_variable};
use fzn_syntax::{Declaration, Element, Number, VariableDeclaration, VariableType};
use std::alloc::{AllocError, Global};

/// Adds the variables of all declarations, in their order.
pub(crate) fn declare_all(
    alloc: Global,
    builder: &mut ModelBuilder,
    declarations: &[Declaration],
) -> Result<(), ResolveError>
    requires ascii { All IsAsciiNamed declarations.now }
    requires few { variables_in declarations.now ≤ limit }
    requires empty { builder.old ≡ empty_draft }
    ensures { AreDeclared declarations.now builder.new result }
{
    for declaration in declarations {
        declare_one(alloc, builder, declaration)?;
    }
    Ok(())
}

// Adds the variable of a declaration that has one.
fn declare_one(
    alloc: Global,
    builder: &mut ModelBuilder,
    declaration: &Declaration,
) -> Result<(), ResolveError>
    requires ascii { IsAsciiNamed declaration.now }
    requires room { length builder.old.variables + count_by declaration.now ≤ limit }
    ensures { IsDeclaredNext builder.old declaration.now builder.new result }
{
    match declaration {
        Declaration::Parameter(_) => Ok(()),
        Declaration::Variable(variable) => declare_variable(alloc, builder, variable),
        Declaration::ParameterArray(_) => Ok(()),
        Declaration::VariableArray(_) => Ok(()),
    }
}

fn declare_variable(
    alloc: Global,
    builder: &mut ModelBuilder,
    variable: &VariableDeclaration,
) -> Result<(), ResolveError>
    requires ascii { IsAscii variable.now.name.name }
    requires room { length builder.old.variables < 100000 }
    ensures { IsDeclaredNext builder.old (declarations.Variable variable.now) builder.new result }
{
    let declared = built_as(alloc, variable)?;
    let name = text_of(variable.name.name.as_bytes());
    builder.variable(name, form_of(&variable.element), declared)?;
    Ok(())
}

fn text_of(bytes: &[u8]) -> &str
    requires { IsAscii bytes.now }
    ensures { result.now ≡ bytes.now }
{
    match str::from_utf8(bytes) {
        Ok(text) => text,
        Err(_) => unreachable!(),
    }
}

// The values that are declared of a variable which is built.
fn built_as(alloc: Global, variable: &VariableDeclaration) -> Result<Declared, ResolveError>
    ensures { Answers (IsBuiltAs variable.now) result }
{
    if !is_built_type(&variable.element) {
        return Err(ResolveError::NotBuilt);
    }
    let declared = declared_of(alloc, &variable.element)?;
    if is_small_declared(&declared) {
        Ok(declared)
    } else {
        Err(ResolveError::NotBuilt)
    }
}

/// What the values of the type stand for.
pub(crate) fn form_of(element: &VariableType) -> Form
    ensures { result ≡ form_of element.now }
{
    match element {
        VariableType::Bool => Form::Bool,
        VariableType::Plain(_) => Form::Int,
        VariableType::SetOf(_) => Form::Int,
    }
}

fn base_of(form: Form) -> Base
    ensures { result ≡ base_of form }
{
    match form {
        Form::Bool => Base::Bool,
        Form::Int => Base::Int,
    }
}

/// Whether the type is of truth values or of integers.
pub(crate) fn is_built_type(element: &VariableType) -> bool
    ensures { IsTrue result ↔ IsBuiltType element.now }
{
    base_of_variable(element) == base_of(form_of(element))
}

// The values that the type allows, as they are written.
fn declared_of(alloc: Global, element: &VariableType) -> Result<Declared, AllocError>
    ensures { IfOk result (λ d. d ≡ declared_of element.now) }
{
    match element {
        VariableType::Bool => Ok(Declared::Any),
        VariableType::Plain(element) => declared_element(alloc, element),
        VariableType::SetOf(_) => Ok(Declared::Any),
    }
}

fn declared_element(alloc: Global, element: &Element) -> Result<Declared, AllocError>
    ensures { IfOk result (λ d. d ≡ declared_element element.now) }
{
    match element {
        Element::Int => Ok(Declared::Any),
        Element::Float => Ok(Declared::Any),
        Element::Range(bounds) => Ok(Declared::Range {
            lo: integer_of(&bounds.lower),
            hi: integer_of(&bounds.upper),
        }),
        Element::Set(numbers) => Ok(Declared::Values(integers_of(alloc, numbers.as_slice())?)),
    }
}

fn integers_of(alloc: Global, numbers: &[Number]) -> Result<Values, AllocError>
    ensures { IfOk result (λ v. v ≡ map integer_of numbers.now) }
{
    let mut integers = Vec::with_capacity(alloc, numbers.len())?;
    for number in numbers {
        integers.push(integer_of(number))?;
    }
    Ok(Values::from_vec(integers))
}

fn integer_of(number: &Number) -> i64
    ensures { result ≡ integer_of number.now }
{
    match number {
        Number::Int(value) => *value,
        Number::Float(_) => 0,
    }
}

// Whether the declared integers lie within plus and minus 2^62.
fn is_small_declared(declared: &Declared) -> bool
    ensures { IsTrue result ↔ IsSmallDeclared declared.now }
{
    match declared {
        Declared::Any => true,
        Declared::Range { lo, hi } => is_small(*lo) && is_small(*hi),
        Declared::Values(values) => are_small(values.as_slice()),
    }
}

fn are_small(values: &[i64]) -> bool
    ensures { IsTrue result ↔ AreSmallIntegers values.now }
{
    are_all_small(values)
}

fn are_all_small(values: &[i64]) -> bool
    ensures { IsTrue result ↔ All IsSmall values.now }
{
    values.iter().all(|value| is_small(*value))
}

fn is_small(value: i64) -> bool
    ensures { IsTrue result ↔ IsSmall value }
{
    -(1 << 62) <= value && value <= 1 << 62
}
