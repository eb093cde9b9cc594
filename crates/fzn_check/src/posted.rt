//! Which constraints are posted right.
ghost use Rattle.std.specs.Prelude.{◌↔◌, IsTrue, IfOk};
ghost use Rattle.fzn_signatures.specs.Rows.{entry_of};
ghost use Rattle.fzn_check.specs.Shapes.{MeetsShape};
ghost use Rattle.fzn_check.specs.Posted.{FitsEntry, IsPosted};

use crate::argument::are_arguments;
use crate::distinct::Distinct;
use crate::length::have_one_length_at;
use fzn_signatures::{Row, Shape, one_row, row_of};
use fzn_syntax::{Constraint, Expression};
use fzn_values::Constants;
use std::alloc::{AllocError, Global};

fn meets_shape(
    alloc: Global,
    distinct: &Distinct<'_>,
    shape: Shape,
    arguments: &[Expression],
) -> Result<bool, AllocError>
    ensures { IfOk result (λ b. IsTrue b ↔ MeetsShape distinct.now shape arguments.now) }
{
    let scope = distinct.values().scope();
    match shape {
        Shape::Linear(_) => Ok(have_one_length_at(scope, arguments, 0, 1)),
        Shape::LinearReified(_) => Ok(have_one_length_at(scope, arguments, 0, 1)),
        Shape::Cardinality => {
            if have_one_length_at(scope, arguments, 1, 2) {
                distinct.has_different_at(alloc, arguments, 1)
            } else {
                Ok(false)
            }
        }
        _ => Ok(true),
    }
}

// Whether the arguments are as the row says.
fn fits_row(
    alloc: Global,
    distinct: &Distinct<'_>,
    row: &Row,
    arguments: &[Expression],
) -> Result<bool, AllocError>
    ensures { IfOk result (λ b. IsTrue b ↔ FitsEntry distinct.now (entry_of row.now) arguments.now) }
{
    if are_arguments(distinct.values().scope(), row.arguments, arguments) {
        meets_shape(alloc, distinct, row.shape, arguments)
    } else {
        Ok(false)
    }
}

// Whether the constraint is posted right, by what is known of all lists.
pub(crate) fn fits_row_of_name(
    alloc: Global,
    distinct: &Distinct<'_>,
    constraint: &Constraint,
) -> Result<bool, AllocError>
    ensures { IfOk result (λ b. IsTrue b ↔ IsPosted distinct.now constraint.now) }
{
    one_row();
    match row_of(constraint.name.name.as_bytes()) {
        None => Ok(false),
        Some(row) => fits_row(alloc, distinct, row, constraint.arguments.as_slice()),
    }
}

/// Whether the constraint's name stands in the table, and its arguments are as the table says.
/// All lists of the text are looked at; many constraints are judged by `first_fault`.
pub fn is_posted(
    alloc: Global,
    values: &Constants<'_>,
    constraint: &Constraint,
) -> Result<bool, AllocError>
    ensures { IfOk result (λ b. IsTrue b ↔ IsPosted values.now constraint.now) }
{
    let distinct = Distinct::new(alloc, values)?;
    fits_row_of_name(alloc, &distinct, constraint)
}
