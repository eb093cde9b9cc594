//! Which expressions are of the type that an argument is to have.
ghost use Rattle.std.specs.Prelude.{◌≡◌, ◌↔◌, true, IsTrue};
ghost use Rattle.fzn_symbols.specs.Sorts.{sort};
ghost use Rattle.fzn_check.specs.Arguments.{NamesArray, IsArrayName, IsArray, IsOfType, IsArgumentAt, AreArguments};

use fzn_signatures::ArgumentType;
use fzn_symbols::{Base, Instantiation, Scope, Sort, are_all, has_sort, is_scalar};
use fzn_syntax::{Basic, Expression};

const fn array_of(base: Base, is_variable: bool) -> Sort
    ensures { result ≡ sort base is_variable true }
{
    Sort {
        base,
        is_variable,
        is_array: true,
    }
}

fn names_array(scope: &Scope<'_>, instantiation: Instantiation, base: Base, name: &[u8]) -> bool
    ensures { IsTrue result ↔ NamesArray scope.now instantiation base name.now }
{
    let parameters = has_sort(scope, name, array_of(base, false));
    match instantiation {
        Instantiation::Constant => parameters,
        Instantiation::Entry => parameters || has_sort(scope, name, array_of(base, true)),
    }
}

fn is_array_name(scope: &Scope<'_>, instantiation: Instantiation, base: Base, basic: &Basic) -> bool
    ensures { IsTrue result ↔ IsArrayName scope.now instantiation base basic.now }
{
    match basic {
        Basic::True => false,
        Basic::False => false,
        Basic::Name(name) => names_array(scope, instantiation, base, name.name.as_bytes()),
        Basic::Number(_) => false,
        Basic::Range(_) => false,
        Basic::Set(_) => false,
    }
}

fn is_array(
    scope: &Scope<'_>,
    instantiation: Instantiation,
    base: Base,
    expression: &Expression,
) -> bool
    ensures { IsTrue result ↔ IsArray scope.now instantiation base expression.now }
{
    match expression {
        Expression::Basic(basic) => is_array_name(scope, instantiation, base, basic),
        Expression::List(basics) => are_all(scope, instantiation, base, basics.as_slice()),
    }
}

/// Whether the expression is of this type.
pub fn is_of_type(scope: &Scope<'_>, wanted: ArgumentType, expression: &Expression) -> bool
    ensures { IsTrue result ↔ IsOfType scope.now wanted expression.now }
{
    match wanted {
        ArgumentType::ConstantInteger => {
            is_scalar(scope, Instantiation::Constant, Base::Int, expression)
        }
        ArgumentType::Set => is_scalar(scope, Instantiation::Constant, Base::Set, expression),
        ArgumentType::ConstantIntegerArray => {
            is_array(scope, Instantiation::Constant, Base::Int, expression)
        }
        ArgumentType::ConstantBooleanArray => {
            is_array(scope, Instantiation::Constant, Base::Bool, expression)
        }
        ArgumentType::Integer => is_scalar(scope, Instantiation::Entry, Base::Int, expression),
        ArgumentType::Boolean => is_scalar(scope, Instantiation::Entry, Base::Bool, expression),
        ArgumentType::IntegerArray => is_array(scope, Instantiation::Entry, Base::Int, expression),
        ArgumentType::BooleanArray => is_array(scope, Instantiation::Entry, Base::Bool, expression),
    }
}

// Whether the argument at this place is of its type.
fn is_argument_at(
    scope: &Scope<'_>,
    wanted: ArgumentType,
    arguments: &[Expression],
    place: usize,
) -> bool
    ensures { IsTrue result ↔ IsArgumentAt scope.now wanted arguments.now place }
{
    match arguments.get(place) {
        None => false,
        Some(argument) => is_of_type(scope, wanted, argument),
    }
}

// Whether there are as many arguments as types, and each is of its type.
pub(crate) fn are_arguments(
    scope: &Scope<'_>,
    wanted: &[ArgumentType],
    arguments: &[Expression],
) -> bool
    ensures { IsTrue result ↔ AreArguments scope.now wanted.now arguments.now }
{
    if arguments.len() != wanted.len() {
        return false;
    }
    for (place, argument_type) in wanted.iter().enumerate() {
        if !is_argument_at(scope, *argument_type, arguments, place) {
            return false;
        }
    }
    true
}
