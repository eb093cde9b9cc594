//! The lengths of arrays.
ghost use Rattle.std.specs.Prelude.{◌≡◌, ◌↔◌, ℤ, IsTrue, IfSome};
ghost use Rattle.fzn_check.specs.Finds.{GivesAny};
ghost use Rattle.fzn_check.specs.Shapes.{last_of, IsLengthOfName, IsLength, HaveOneLength, HaveOneLengthAt};

use crate::lookup::found;
use fzn_symbols::Scope;
use fzn_syntax::{Basic, Declaration, Expression};

fn last_of(declaration: &Declaration) -> Option<i64>
    ensures { result ≡ last_of declaration.now }
{
    match declaration {
        Declaration::Parameter(_) => None,
        Declaration::Variable(_) => None,
        Declaration::ParameterArray(array) => Some(array.index.last),
        Declaration::VariableArray(array) => Some(array.index.last),
    }
}

fn length_of_name(scope: &Scope<'_>, basic: &Basic) -> Option<i64>
    ensures is { GivesAny (IsLengthOfName scope.now basic.now) result }
    ensures only { IfSome result (λ z. (y : ℤ) → IsLengthOfName scope.now basic.now y → y ≡ z) }
{
    match basic {
        Basic::True => None,
        Basic::False => None,
        Basic::Name(name) => match found(scope, name.name.as_bytes()) {
            None => None,
            Some(declaration) => last_of(declaration),
        },
        Basic::Number(_) => None,
        Basic::Range(_) => None,
        Basic::Set(_) => None,
    }
}

// The length of an array, as it is written or as it is declared.
fn length_of(scope: &Scope<'_>, expression: &Expression) -> Option<i128>
    ensures is { GivesAny (IsLength scope.now expression.now) result }
    ensures only { IfSome result (λ z. (y : ℤ) → IsLength scope.now expression.now y → y ≡ z) }
{
    match expression {
        Expression::Basic(basic) => match length_of_name(scope, basic) {
            None => None,
            Some(last) => Some(i128::from(last)),
        },
        Expression::List(basics) => Some(basics.len() as i128),
    }
}

fn have_one_length(scope: &Scope<'_>, first: &Expression, second: &Expression) -> bool
    ensures { IsTrue result ↔ HaveOneLength scope.now first.now second.now }
{
    match length_of(scope, first) {
        None => false,
        Some(length) => match length_of(scope, second) {
            None => false,
            Some(other) => length == other,
        },
    }
}

// Whether the arguments at these places have one length.
pub(crate) fn have_one_length_at(
    scope: &Scope<'_>,
    arguments: &[Expression],
    first: usize,
    second: usize,
) -> bool
    ensures { IsTrue result ↔ HaveOneLengthAt scope.now arguments.now first second }
{
    match arguments.get(first) {
        None => false,
        Some(one) => match arguments.get(second) {
            None => false,
            Some(other) => have_one_length(scope, one, other),
        },
    }
}
