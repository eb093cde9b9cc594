//! What a declared name is.
ghost use Rattle.std.specs.Prelude.{◌≡◌};
ghost use Rattle.fzn_symbols.specs.Sorts.{sort_of};

use crate::base::{Base, base_of_parameter, base_of_variable};
use fzn_syntax::Declaration;

/// What a declared name is.
#[derive(Clone, Copy, Debug, PartialEq, Eq, Drop)]
pub struct Sort {
    pub base: Base,
    pub is_variable: bool,
    pub is_array: bool,
}

pub fn sort_of(declaration: &Declaration) -> Sort
    ensures { result ≡ sort_of declaration.now }
{
    match declaration {
        Declaration::Parameter(parameter) => Sort {
            base: base_of_parameter(&parameter.element),
            is_variable: false,
            is_array: false,
        },
        Declaration::Variable(variable) => Sort {
            base: base_of_variable(&variable.element),
            is_variable: true,
            is_array: false,
        },
        Declaration::ParameterArray(array) => Sort {
            base: base_of_parameter(&array.entries.element),
            is_variable: false,
            is_array: true,
        },
        Declaration::VariableArray(array) => Sort {
            base: base_of_variable(&array.element),
            is_variable: true,
            is_array: true,
        },
    }
}
