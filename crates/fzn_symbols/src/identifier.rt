//! The name that a declaration declares.
ghost use Rattle.std.specs.Prelude.{◌≡◌};
ghost use Rattle.fzn_symbols.specs.Named.{identifier_of};

use fzn_syntax::{Declaration, Identifier};

/// The declared name.
pub fn identifier_of(declaration: &Declaration) -> &Identifier
    ensures { result.now ≡ identifier_of declaration.now }
{
    match declaration {
        Declaration::Parameter(parameter) => &parameter.name,
        Declaration::Variable(variable) => &variable.name,
        Declaration::ParameterArray(array) => &array.entries.name,
        Declaration::VariableArray(array) => &array.name,
    }
}
