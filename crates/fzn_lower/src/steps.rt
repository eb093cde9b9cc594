//! The steps that look for faults.
ghost use Rattle.std.specs.Prelude.{◌≡◌, ◌<◌, ◌^◌, None};
ghost use Rattle.fzn_limits.specs.Entries.{entries_of};
ghost use Rattle.fzn_lower.specs.Finding.{Finds, ◌⟫◌};
ghost use Rattle.fzn_lower.specs.Steps.{FindsSize, FindsName, FindsUnknown, FindsDeclaration, FindsConstraint, FindsSolve, FindsEntries, FindsConstraintOn};

use crate::error::ModelError;
use dom_limits::Counted;
use fzn_check::{Fault, first_constraint_fault, first_declaration_fault, solve_fault};
use fzn_limits::{argument_entries, count_items, first_unknown_constraint};
use fzn_symbols::Scope;
use fzn_syntax::Items;
use fzn_values::Constants;
use std::alloc::Global;

/// The most entries of all arrays that constraints take.
const ENTRIES: u64 = 2_000_000;

pub(crate) fn check_sizes(items: &Items) -> Result<(), ModelError>
    ensures { Finds (FindsSize items.now) result }
{
    match count_items(items) {
        Ok(()) => Ok(()),
        Err(found) => Err(ModelError::TooMany {
            what: found.what,
            count: found.count,
        }),
    }
}

pub(crate) fn check_names(items: &Items) -> Result<(), ModelError>
    ensures { Finds (FindsUnknown items.now) result }
{
    match first_unknown_constraint(items.constraints.as_slice()) {
        None => Ok(()),
        Some(at) => Err(ModelError::UnknownConstraint { at }),
    }
}

pub(crate) fn check_declarations(
    alloc: Global,
    scope: &Scope<'_>,
    items: &Items,
) -> Result<(), ModelError>
    requires { scope.now ≡ items.now.declarations }
    ensures { Finds (FindsDeclaration items.now) result }
{
    match first_declaration_fault(alloc, scope)? {
        None => Ok(()),
        Some(Fault::IllTyped { at }) => Err(ModelError::WrongArguments { at }),
        Some(Fault::FloatOrSet { at }) => Err(ModelError::FloatOrSet { at }),
    }
}

/// What is looked for once the declarations are well-typed.
pub(crate) fn check_valued(
    alloc: Global,
    values: &Constants<'_>,
    items: &Items,
) -> Result<(), ModelError>
    requires same { values.now ≡ items.now.declarations }
    requires sized { FindsSize items.now None }
    requires named { FindsName items.now None }
    requires typed { FindsDeclaration items.now None }
    ensures { Finds (FindsConstraintOn items.now) result }
{
    check_constraints(alloc, values, items)?;
    check_last(values.scope(), items)
}

fn check_constraints(alloc: Global, values: &Constants<'_>, items: &Items) -> Result<(), ModelError>
    requires { values.now ≡ items.now.declarations }
    ensures { Finds (FindsConstraint items.now) result }
{
    match first_constraint_fault(alloc, values, items.constraints.as_slice())? {
        None => Ok(()),
        Some(Fault::IllTyped { at }) => Err(ModelError::WrongArguments { at }),
        Some(Fault::FloatOrSet { at }) => Err(ModelError::FloatOrSet { at }),
    }
}

fn check_last(scope: &Scope<'_>, items: &Items) -> Result<(), ModelError>
    requires same { scope.now ≡ items.now.declarations }
    requires few { entries_of items.now.declarations items.now.constraints < 2 ^ 64 }
    ensures { let t = items.now in Finds (FindsSolve t ⟫ FindsEntries t) result }
{
    check_solve(scope, items)?;
    check_entries(scope, items)
}

fn check_solve(scope: &Scope<'_>, items: &Items) -> Result<(), ModelError>
    requires { scope.now ≡ items.now.declarations }
    ensures { Finds (FindsSolve items.now) result }
{
    match solve_fault(scope, &items.solve) {
        None => Ok(()),
        Some(Fault::IllTyped { at }) => Err(ModelError::WrongArguments { at }),
        Some(Fault::FloatOrSet { at }) => Err(ModelError::FloatOrSet { at }),
    }
}

fn check_entries(scope: &Scope<'_>, items: &Items) -> Result<(), ModelError>
    requires same { scope.now ≡ items.now.declarations }
    requires few { entries_of items.now.declarations items.now.constraints < 2 ^ 64 }
    ensures { Finds (FindsEntries items.now) result }
{
    let count = argument_entries(scope, items.constraints.as_slice());
    if ENTRIES < count {
        return Err(ModelError::TooMany {
            what: Counted::ArgumentEntries,
            count,
        });
    }
    Ok(())
}
