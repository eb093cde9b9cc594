//! The values of declarations.
ghost use Rattle.std.specs.Prelude.{◌≡◌, None, Some, MatchOption};
ghost use Rattle.fzn_check.specs.Values.{value_of};

use fzn_syntax::{Declaration, Expression};

/// What stands behind the equals sign.
pub(crate) fn value_of(declaration: &Declaration) -> Option<&Expression>
    ensures { MatchOption result (value_of declaration.now ≡ None)
        (λ e. value_of declaration.now ≡ Some e.now) }
{
    match declaration {
        Declaration::Parameter(parameter) => Some(&parameter.value),
        Declaration::Variable(variable) => variable.value.as_ref(),
        Declaration::ParameterArray(array) => Some(&array.entries.value),
        Declaration::VariableArray(array) => Some(&array.value),
    }
}
