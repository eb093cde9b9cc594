//! The entries of the arrays that constraints take.
ghost use Rattle.std.specs.Prelude.{◌≡◌, ◌-◌, ◌^◌, length, min};
ghost use Rattle.fzn_limits.specs.Entries.{natural, declared_entries, named_entries, basic_entries, expression_entries, constraint_entries, entries_of, BoundsArguments, BoundsConstraints};

use fzn_symbols::Scope;
use fzn_syntax::{Basic, Constraint, Declaration, Expression};

fn natural(value: i64) -> u64
    ensures { result ≡ natural value }
{
    if value < 0 { 0 } else { value as u64 }
}

fn declared_entries(declaration: &Declaration) -> u64
    ensures { result ≡ declared_entries declaration.now }
{
    match declaration {
        Declaration::Parameter(_) => 0,
        Declaration::Variable(_) => 0,
        Declaration::ParameterArray(array) => natural(array.index.last),
        Declaration::VariableArray(array) => natural(array.index.last),
    }
}

fn named_entries(scope: &Scope<'_>, name: &[u8]) -> u64
    ensures { result ≡ named_entries scope.now name.now }
{
    // A name is that of one declaration.
    let _ = scope.declarations();
    match scope.declaration(name) {
        None => 0,
        Some(declaration) => declared_entries(declaration),
    }
}

fn basic_entries(scope: &Scope<'_>, basic: &Basic) -> u64
    ensures { result ≡ basic_entries scope.now basic.now }
{
    match basic {
        Basic::True => 0,
        Basic::False => 0,
        Basic::Name(name) => named_entries(scope, name.name.as_bytes()),
        Basic::Number(_) => 0,
        Basic::Range(_) => 0,
        Basic::Set(_) => 0,
    }
}

fn expression_entries(scope: &Scope<'_>, expression: &Expression) -> u64
    ensures { result ≡ expression_entries scope.now expression.now }
{
    match expression {
        Expression::Basic(basic) => basic_entries(scope, basic),
        Expression::List(basics) => basics.len() as u64,
    }
}

fn constraint_entries(scope: &Scope<'_>, constraint: &Constraint) -> u64
    ensures { result ≡ min (constraint_entries scope.now constraint.now) (2 ^ 64 - 1) }
{
    let mut count: u64 = 0;
    for argument in constraint.arguments.as_slice() {
        count = count.saturating_add(expression_entries(scope, argument));
    }
    count
}

/// The entries of all arrays that constraints take, as far as 64 bits hold their number. A list has
/// those that it has, and a name those of the array that is declared by it.
pub fn argument_entries(scope: &Scope<'_>, constraints: &[Constraint]) -> u64
    ensures { result ≡ min (entries_of scope.now constraints.now) (2 ^ 64 - 1) }
{
    let mut count: u64 = 0;
    for constraint in constraints {
        count = count.saturating_add(constraint_entries(scope, constraint));
    }
    count
}

/// Where no argument has more than so many entries, or no constraint has, all of them have no more
/// than as many times that. The call does nothing.
pub fn entries_are_bounded()
    ensures arguments { BoundsArguments }
    ensures constraints { BoundsConstraints }
{}
