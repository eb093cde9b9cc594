//! The first list of items that is too long.
ghost use Rattle.std.specs.Prelude.{◌≡◌};
ghost use Rattle.std.specs.List.{flat_map};
ghost use Rattle.fzn_limits.specs.Sizes.{lengths_of_expression, lengths_of_value, lengths_of_declaration, lengths_of_constraint, lengths_of, first_above};

use crate::sizes::LIMIT;
use fzn_syntax::{Constraint, Declaration, Expression, Items};

// The length of the list that is written here, where it is too long.
fn long_list(expression: &Expression) -> Option<u64>
    ensures { result ≡ first_above (lengths_of_expression expression.now) }
{
    match expression {
        Expression::Basic(_) => None,
        Expression::List(basics) => {
            let length = basics.len() as u64;
            if LIMIT < length { Some(length) } else { None }
        }
    }
}

fn long_value(value: &Option<Expression>) -> Option<u64>
    ensures { result ≡ first_above (lengths_of_value value.now) }
{
    match value {
        None => None,
        Some(expression) => long_list(expression),
    }
}

fn long_declaration(declaration: &Declaration) -> Option<u64>
    ensures { result ≡ first_above (lengths_of_declaration declaration.now) }
{
    match declaration {
        Declaration::Parameter(parameter) => long_list(&parameter.value),
        Declaration::Variable(variable) => long_value(&variable.value),
        Declaration::ParameterArray(array) => long_list(&array.entries.value),
        Declaration::VariableArray(array) => long_list(&array.value),
    }
}

fn first_long_declaration(declarations: &[Declaration]) -> Option<u64>
    ensures { result ≡ first_above (flat_map lengths_of_declaration declarations.now) }
{
    for declaration in declarations {
        if let Some(length) = long_declaration(declaration) {
            return Some(length);
        }
    }
    None
}

fn first_long_argument(arguments: &[Expression]) -> Option<u64>
    ensures { result ≡ first_above (flat_map lengths_of_expression arguments.now) }
{
    for argument in arguments {
        if let Some(length) = long_list(argument) {
            return Some(length);
        }
    }
    None
}

fn first_long_constraint(constraints: &[Constraint]) -> Option<u64>
    ensures { result ≡ first_above (flat_map lengths_of_constraint constraints.now) }
{
    for constraint in constraints {
        if let Some(length) = first_long_argument(constraint.arguments.as_slice()) {
            return Some(length);
        }
    }
    None
}

// The length of the first list that is too long.
pub(crate) fn first_long_list(items: &Items) -> Option<u64>
    ensures { result ≡ first_above (lengths_of items.now) }
{
    match first_long_declaration(items.declarations.as_slice()) {
        Some(length) => Some(length),
        None => first_long_constraint(items.constraints.as_slice()),
    }
}
