//! The first constraint at fault.
ghost use Rattle.std.specs.Prelude.{◌↔◌, IsTrue, IfOk};
ghost use Rattle.fzn_check.specs.Finds.{GivesAny};
ghost use Rattle.fzn_check.specs.ConstraintFaults.{PostsFloatOrSet, IsFaultOf, FindsFirstFault, HaveOneFirst};

use crate::distinct::Distinct;
use crate::fault::Fault;
use crate::floats::has_float_or_set;
use crate::posted::fits_row_of_name;
use fzn_symbols::Scope;
use fzn_syntax::Constraint;
use fzn_values::Constants;
use std::alloc::{AllocError, Global};

/// The constraints of a text have one first fault at most. The call does nothing.
pub fn constraints_have_one_first_fault()
    ensures { HaveOneFirst }
{}

fn posts_float_or_set(scope: &Scope<'_>, constraint: &Constraint) -> bool
    ensures { IsTrue result ↔ PostsFloatOrSet scope.now constraint.now }
{
    constraint
        .arguments
        .as_slice()
        .iter()
        .any(|argument| has_float_or_set(scope, argument))
}

fn fault_of(
    alloc: Global,
    distinct: &Distinct<'_>,
    constraint: &Constraint,
) -> Result<Option<Fault>, AllocError>
    ensures { IfOk result (GivesAny (IsFaultOf distinct.now constraint.now)) }
{
    let at = constraint.name.at;
    if posts_float_or_set(distinct.values().scope(), constraint) {
        return Ok(Some(Fault::FloatOrSet { at }));
    }
    if fits_row_of_name(alloc, distinct, constraint)? {
        return Ok(None);
    }
    Ok(Some(Fault::IllTyped { at }))
}

fn first_among(
    alloc: Global,
    distinct: &Distinct<'_>,
    constraints: &[Constraint],
) -> Result<Option<Fault>, AllocError>
    ensures { IfOk result (FindsFirstFault distinct.now constraints.now) }
{
    for constraint in constraints {
        if let Some(fault) = fault_of(alloc, distinct, constraint)? {
            return Ok(Some(fault));
        }
    }
    Ok(None)
}

/// What the first constraint at fault has, at its name.
pub fn first_constraint_fault(
    alloc: Global,
    values: &Constants<'_>,
    constraints: &[Constraint],
) -> Result<Option<Fault>, AllocError>
    ensures { IfOk result (FindsFirstFault values.now constraints.now) }
{
    let distinct = Distinct::new(alloc, values)?;
    first_among(alloc, &distinct, constraints)
}
