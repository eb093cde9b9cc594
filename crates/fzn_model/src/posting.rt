//! The written constraints, and which variables they define.
ghost use Rattle.std.specs.Prelude.{◌≡◌, ◌+◌, ◌<◌, ◌≤◌, length, Ok, OnOk};
ghost use Rattle.fzn_arguments.specs.Numbers.{AreNumbers};
ghost use Rattle.fzn_forms.specs.Kinds.{IsKindOf};
ghost use Rattle.fzn_limits.specs.Sizes.{variables_in};
ghost use Rattle.fzn_model.specs.Steps.{AreWritten, IsPostedNext};

use crate::defining::{define, defines};
use crate::error::ResolveError;
use crate::initial::initialised;
use any_kind::AnyKind;
use dom_core::NoMemory;
use dom_model::ModelBuilder;
use fzn_forms::{FormError, kind_of};
use fzn_syntax::Constraint;
use fzn_values::Constants;
use std::alloc::Global;

/// Posts the constraints, in their order. Variables with an initialiser are defined before them.
pub(crate) fn post_written(
    alloc: Global,
    values: &Constants<'_>,
    numbers: &[u32],
    builder: &mut ModelBuilder,
    constraints: &[Constraint],
) -> Result<(), ResolveError>
    requires numbers { AreNumbers values.now numbers.now }
    requires count { length builder.old.variables ≡ variables_in values.now }
    requires few { length builder.old.constraints + length constraints.now ≤ 2147483648 }
    ensures { AreWritten values.now constraints.now builder.old builder.new result }
{
    let mut defined = initialised(alloc, values.scope().declarations())?;
    for constraint in constraints {
        post_one(alloc, values, numbers, &mut defined, builder, constraint)?;
    }
    Ok(())
}

fn post_one(
    alloc: Global,
    values: &Constants<'_>,
    numbers: &[u32],
    defined: &mut Vec<bool>,
    builder: &mut ModelBuilder,
    constraint: &Constraint,
) -> Result<(), ResolveError>
    requires numbers { AreNumbers values.now numbers.now }
    requires whole { length defined.old.items ≡ variables_in values.now }
    requires count { length builder.old.variables ≡ variables_in values.now }
    requires few { length builder.old.constraints < 2147483648 }
    ensures { IsPostedNext values.now defined.old.items builder.old constraint.now defined.new.items builder.new result }
{
    match kind_of(alloc, values, numbers, constraint) {
        Ok(kind) => {
            post_kind(values, numbers, defined, builder, constraint, kind)?;
            Ok(())
        }
        Err(FormError::NotBuilt) => Err(ResolveError::NotBuilt),
        Err(FormError::Memory) => Err(ResolveError::Memory),
    }
}

// Posts the constraint as this kind, with the variable that it defines.
fn post_kind(
    values: &Constants<'_>,
    numbers: &[u32],
    defined: &mut Vec<bool>,
    builder: &mut ModelBuilder,
    constraint: &Constraint,
    kind: AnyKind,
) -> Result<(), NoMemory>
    requires numbers { AreNumbers values.now numbers.now }
    requires whole { length defined.old.items ≡ variables_in values.now }
    requires count { length builder.old.variables ≡ variables_in values.now }
    requires few { length builder.old.constraints < 2147483648 }
    requires kind { IsKindOf values.now constraint.now kind }
    ensures { OnOk result (IsPostedNext values.now defined.old.items builder.old constraint.now defined.new.items builder.new (Ok tt)) }
{
    let name = constraint.name.name.as_bytes();
    let annotations = constraint.annotations.as_slice();
    let scope = values.scope();
    let defines = defines(scope, numbers, defined.as_slice(), name, &kind, annotations);
    builder.constraint(kind, defines)?;
    define(defined, defines);
    Ok(())
}
