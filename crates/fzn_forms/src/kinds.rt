//! The kinds of constraint items.
ghost use Rattle.fzn_arguments.specs.Numbers.{AreNumbers};
ghost use Rattle.fzn_forms.specs.Answers.{Answers};
ghost use Rattle.fzn_forms.specs.Kinds.{IsKindOf, HasOneKind};

use crate::error::FormError;
use crate::making::make;
use crate::typed::read_all;
use any_kind::AnyKind;
use fzn_arguments::one_argument;
use fzn_signatures::{one_row, row_of};
use fzn_syntax::Constraint;
use fzn_values::{Constants, one_integer, one_list};
use std::alloc::Global;

/// Where names are different, a constraint has one kind at most. The call does nothing.
pub fn one_kind()
    ensures { HasOneKind }
{
    one_row();
    one_argument();
    one_integer();
    one_list();
}

/// The kind of a constraint by the table of names, where it is built.
pub fn kind_of(
    alloc: Global,
    values: &Constants<'_>,
    numbers: &[u32],
    constraint: &Constraint,
) -> Result<AnyKind, FormError>
    requires { AreNumbers values.now numbers.now }
    ensures { Answers (IsKindOf values.now constraint.now) result }
{
    one_row();
    one_argument();
    one_integer();
    one_list();
    let _names_are_different = values.scope().declarations();
    match row_of(constraint.name.name.as_bytes()) {
        None => Err(FormError::NotBuilt),
        Some(row) => {
            let expressions = constraint.arguments.as_slice();
            match read_all(alloc, values, numbers, row.arguments, expressions)? {
                None => Err(FormError::NotBuilt),
                Some(arguments) => make(alloc, row.shape, arguments.as_slice()),
            }
        }
    }
}
