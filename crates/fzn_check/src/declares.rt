//! Which declarations have a float or a set variable.
ghost use Rattle.std.specs.Prelude.{◌↔◌, IsTrue, MatchOption};
ghost use Rattle.fzn_check.specs.Values.{value_of};
ghost use Rattle.fzn_check.specs.Floats.{HasFloatOrSet};
ghost use Rattle.fzn_check.specs.Declares.{DeclaresFloatOrSet};

use crate::floats::{has_float_or_set, is_float_or_set};
use crate::value::value_of;
use fzn_symbols::Scope;
use fzn_syntax::Declaration;

fn value_has_float_or_set(scope: &Scope<'_>, declaration: &Declaration) -> bool
    ensures { IsTrue result ↔ MatchOption (value_of declaration.now) ⊥ (HasFloatOrSet scope.now) }
{
    match value_of(declaration) {
        None => false,
        Some(value) => has_float_or_set(scope, value),
    }
}

/// Whether the declaration is of a float or of a set variable, or its value has one.
pub fn declares_float_or_set(scope: &Scope<'_>, declaration: &Declaration) -> bool
    ensures { IsTrue result ↔ DeclaresFloatOrSet scope.now declaration.now }
{
    is_float_or_set(declaration) || value_has_float_or_set(scope, declaration)
}
