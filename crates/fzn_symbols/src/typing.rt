//! Which expressions are constants, or variables, of a base type.
ghost use Rattle.std.specs.Prelude.{◌≡◌, ◌↔◌, IsTrue};
ghost use Rattle.fzn_symbols.specs.Sorts.{sort_of, Names};
ghost use Rattle.fzn_symbols.specs.Typing.{NamesScalar, Fits, IsScalar, AllFit};

use crate::base::{Base, are_integers, is_integer};
use crate::scope::Scope;
use crate::sort::{Sort, sort_of};
use fzn_syntax::{Basic, Declaration, Expression};

/// What may stand at a place.
#[derive(Clone, Copy, Debug, PartialEq, Eq, Drop)]
pub enum Instantiation {
    /// Literals and parameters.
    Constant,
    /// Variables too.
    Entry,
}

fn is_sort(declaration: &Declaration, sort: Sort) -> bool
    ensures { IsTrue result ↔ (sort_of declaration.now ≡ sort) }
{
    sort_of(declaration) == sort
}

/// Whether the name is declared and is of this sort.
pub fn has_sort(scope: &Scope<'_>, name: &[u8], sort: Sort) -> bool
    ensures { IsTrue result ↔ Names scope.now name.now sort }
{
    // A name is that of one declaration.
    let _ = scope.declarations();
    match scope.declaration(name) {
        None => false,
        Some(declaration) => is_sort(declaration, sort),
    }
}

fn names_scalar(scope: &Scope<'_>, instantiation: Instantiation, base: Base, name: &[u8]) -> bool
    ensures { IsTrue result ↔ NamesScalar scope.now instantiation base name.now }
{
    let parameter = has_sort(
        scope,
        name,
        Sort {
            base,
            is_variable: false,
            is_array: false,
        },
    );
    match instantiation {
        Instantiation::Constant => parameter,
        Instantiation::Entry => {
            parameter
                || has_sort(
                    scope,
                    name,
                    Sort {
                        base,
                        is_variable: true,
                        is_array: false,
                    },
                )
        }
    }
}

/// Whether the expression is a literal of this base type, or names a scalar that may stand here.
pub fn fits(scope: &Scope<'_>, instantiation: Instantiation, base: Base, basic: &Basic) -> bool
    ensures { IsTrue result ↔ Fits scope.now instantiation base basic.now }
{
    match basic {
        Basic::True => base == Base::Bool,
        Basic::False => base == Base::Bool,
        Basic::Name(name) => names_scalar(scope, instantiation, base, name.name.as_bytes()),
        Basic::Number(number) => base == Base::Int && is_integer(number),
        Basic::Range(bounds) => {
            base == Base::Set && is_integer(&bounds.lower) && is_integer(&bounds.upper)
        }
        Basic::Set(numbers) => base == Base::Set && are_integers(numbers.as_slice()),
    }
}

/// Whether the expression is one such literal or name, and no list.
pub fn is_scalar(
    scope: &Scope<'_>,
    instantiation: Instantiation,
    base: Base,
    expression: &Expression,
) -> bool
    ensures { IsTrue result ↔ IsScalar scope.now instantiation base expression.now }
{
    match expression {
        Expression::Basic(basic) => fits(scope, instantiation, base, basic),
        Expression::List(_) => false,
    }
}

/// Whether each of them does.
pub fn are_all(
    scope: &Scope<'_>,
    instantiation: Instantiation,
    base: Base,
    basics: &[Basic],
) -> bool
    ensures { IsTrue result ↔ AllFit scope.now instantiation base basics.now }
{
    basics
        .iter()
        .all(|basic| fits(scope, instantiation, base, basic))
}
