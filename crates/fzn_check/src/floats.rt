//! Which expressions have a float, or name a float or a set variable.
ghost use Rattle.std.specs.Prelude.{◌↔◌, IsTrue};
ghost use Rattle.std.specs.List.{Any};
ghost use Rattle.fzn_check.specs.Floats.{IsFloat, IsFloatOrSet, NamesFloatOrSet, BasicHasFloatOrSet, HasFloatOrSet};

use crate::lookup::found;
use fzn_symbols::{Base, Scope, sort_of};
use fzn_syntax::{Basic, Declaration, Expression, Number};

fn is_float(number: &Number) -> bool
    ensures { IsTrue result ↔ IsFloat number.now }
{
    match number {
        Number::Int(_) => false,
        Number::Float(_) => true,
    }
}

fn has_float(numbers: &[Number]) -> bool
    ensures { IsTrue result ↔ Any IsFloat numbers.now }
{
    numbers.iter().any(|number| is_float(number))
}

/// Whether the declaration is of a float or of a set variable, or of an array of them.
pub fn is_float_or_set(declaration: &Declaration) -> bool
    ensures { IsTrue result ↔ IsFloatOrSet declaration.now }
{
    sort_of(declaration).base == Base::FloatOrSet
}

/// Whether the name is that of a float or of a set variable, or of an array of them.
pub fn names_float_or_set(scope: &Scope<'_>, name: &[u8]) -> bool
    ensures { IsTrue result ↔ NamesFloatOrSet scope.now name.now }
{
    match found(scope, name) {
        None => false,
        Some(declaration) => is_float_or_set(declaration),
    }
}

fn basic_has_float_or_set(scope: &Scope<'_>, basic: &Basic) -> bool
    ensures { IsTrue result ↔ BasicHasFloatOrSet scope.now basic.now }
{
    match basic {
        Basic::True => false,
        Basic::False => false,
        Basic::Name(name) => names_float_or_set(scope, name.name.as_bytes()),
        Basic::Number(number) => is_float(number),
        Basic::Range(bounds) => is_float(&bounds.lower) || is_float(&bounds.upper),
        Basic::Set(numbers) => has_float(numbers.as_slice()),
    }
}

/// Whether a float number stands in the expression, or the name of a float or of a set variable.
pub fn has_float_or_set(scope: &Scope<'_>, expression: &Expression) -> bool
    ensures { IsTrue result ↔ HasFloatOrSet scope.now expression.now }
{
    match expression {
        Expression::Basic(basic) => basic_has_float_or_set(scope, basic),
        Expression::List(basics) => basics
            .as_slice()
            .iter()
            .any(|basic| basic_has_float_or_set(scope, basic)),
    }
}
