//! The base types of parameters and variables.
ghost use Rattle.std.specs.Prelude.{◌≡◌};
ghost use Rattle.std.specs.List.{list_all};
ghost use Rattle.fzn_symbols.specs.Bases.{is_integer, is_integer_element, base_of_parameter, base_of_variable};

use fzn_syntax::{Element, Number, ParameterType, VariableType};

/// A type without its range. What a float or a set variable has is told from all else, since nothing
/// is built of it.
#[derive(Clone, Copy, Debug, PartialEq, Eq, Drop)]
pub enum Base {
    Bool,
    Int,
    /// A constant set of integers.
    Set,
    FloatOrSet,
}

pub(crate) fn is_integer(number: &Number) -> bool
    ensures { result ≡ is_integer number.now }
{
    match number {
        Number::Int(_) => true,
        Number::Float(_) => false,
    }
}

pub(crate) fn are_integers(numbers: &[Number]) -> bool
    ensures { result ≡ list_all is_integer numbers.now }
{
    numbers.iter().all(|number| is_integer(number))
}

fn is_integer_element(element: &Element) -> bool
    ensures { result ≡ is_integer_element element.now }
{
    match element {
        Element::Int => true,
        Element::Float => false,
        Element::Range(bounds) => is_integer(&bounds.lower) && is_integer(&bounds.upper),
        Element::Set(numbers) => are_integers(numbers.as_slice()),
    }
}

pub fn base_of_parameter(element: &ParameterType) -> Base
    ensures { result ≡ base_of_parameter element.now }
{
    match element {
        ParameterType::Bool => Base::Bool,
        ParameterType::Int => Base::Int,
        ParameterType::Float => Base::FloatOrSet,
        ParameterType::SetOf(member) => {
            if is_integer_element(member) {
                Base::Set
            } else {
                Base::FloatOrSet
            }
        }
    }
}

pub fn base_of_variable(element: &VariableType) -> Base
    ensures { result ≡ base_of_variable element.now }
{
    match element {
        VariableType::Bool => Base::Bool,
        VariableType::Plain(value) => {
            if is_integer_element(value) {
                Base::Int
            } else {
                Base::FloatOrSet
            }
        }
        VariableType::SetOf(_) => Base::FloatOrSet,
    }
}
