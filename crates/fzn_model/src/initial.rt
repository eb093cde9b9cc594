//! Initialisers: which variables have one, and the equations that these stand for.
ghost use Rattle.std.specs.Prelude.{◌≡◌, ◌+◌, ◌<◌, ◌≤◌, ◌++◌, length, IfOk, OnOk};
ghost use Rattle.fzn_arguments.specs.Numbers.{AreNumbers};
ghost use Rattle.fzn_limits.specs.Sizes.{variables_in};
ghost use Rattle.fzn_model.specs.Found.{count_by};
ghost use Rattle.fzn_model.specs.Posting.{equation, initialised, initialised_by};
ghost use Rattle.fzn_model.specs.Steps.{AreEquated, IsInitialNext};
ghost use Rattle.fzn_syntax.specs.declared.declaration.Declaration.TheVariants as declarations;

use crate::error::ResolveError;
use crate::variables::form_of;
use any_kind::AnyKind;
use dom_core::{Arg, NoMemory, Relation, VarId};
use dom_model::ModelBuilder;
use fzn_arguments::scalar_arg;
use fzn_syntax::{Declaration, VariableDeclaration};
use fzn_values::Constants;
use kind_linear::Linear;
use std::alloc::{AllocError, Global};

/// For each variable whether it has an initialiser.
pub(crate) fn initialised(
    alloc: Global,
    declarations: &[Declaration],
) -> Result<Vec<bool>, AllocError>
    ensures { IfOk result (λ v. v.items ≡ initialised declarations.now) }
{
    let mut flags = Vec::new(alloc);
    for declaration in declarations {
        push_flag(&mut flags, declaration)?;
    }
    Ok(flags)
}

fn push_flag(flags: &mut Vec<bool>, declaration: &Declaration) -> Result<(), AllocError>
    ensures { OnOk result (flags.new.items ≡ flags.old.items ++ initialised_by declaration.now) }
{
    match declaration {
        Declaration::Parameter(_) => Ok(()),
        Declaration::Variable(variable) => {
            flags.push(variable.value.is_some())?;
            Ok(())
        }
        Declaration::ParameterArray(_) => Ok(()),
        Declaration::VariableArray(_) => Ok(()),
    }
}

/// Posts the equations of all initialisers, in order of the variables.
pub(crate) fn post_initial(
    alloc: Global,
    values: &Constants<'_>,
    numbers: &[u32],
    builder: &mut ModelBuilder,
    declarations: &[Declaration],
) -> Result<(), ResolveError>
    requires same { values.now ≡ declarations.now }
    requires numbers { AreNumbers declarations.now numbers.now }
    requires count { length builder.old.variables ≡ variables_in declarations.now }
    requires few { length builder.old.constraints + variables_in declarations.now ≤ 2147483648 }
    ensures { AreEquated declarations.now builder.old builder.new result }
{
    for place in 0..declarations.len() {
        let number = numbers[place];
        post_at(
            alloc,
            values,
            numbers,
            builder,
            number,
            &declarations[place],
        )?;
    }
    Ok(())
}

// Posts the equation of one declaration, before which so many variables are declared.
fn post_at(
    alloc: Global,
    values: &Constants<'_>,
    numbers: &[u32],
    builder: &mut ModelBuilder,
    number: u32,
    declaration: &Declaration,
) -> Result<(), ResolveError>
    requires numbers { AreNumbers values.now numbers.now }
    requires count { length builder.old.variables ≡ variables_in values.now }
    requires few { length builder.old.constraints + count_by declaration.now ≤ 2147483648 }
    requires within { number + count_by declaration.now ≤ variables_in values.now }
    ensures { IsInitialNext values.now number declaration.now builder.old builder.new result }
{
    match declaration {
        Declaration::Parameter(_) => Ok(()),
        Declaration::Variable(variable) => {
            post_equation(alloc, values, numbers, builder, VarId(number), variable)
        }
        Declaration::ParameterArray(_) => Ok(()),
        Declaration::VariableArray(_) => Ok(()),
    }
}

fn post_equation(
    alloc: Global,
    values: &Constants<'_>,
    numbers: &[u32],
    builder: &mut ModelBuilder,
    var: VarId,
    variable: &VariableDeclaration,
) -> Result<(), ResolveError>
    requires numbers { AreNumbers values.now numbers.now }
    requires count { length builder.old.variables ≡ variables_in values.now }
    requires few { length builder.old.constraints < 2147483648 }
    requires below { var.0 < variables_in values.now }
    ensures { IsInitialNext values.now var.0 (declarations.Variable variable.now) builder.old builder.new result }
{
    match &variable.value {
        None => Ok(()),
        Some(expression) => {
            match scalar_arg(values, numbers, form_of(&variable.element), expression) {
                None => Err(ResolveError::NotBuilt),
                Some(arg) => {
                    let kind = equation(alloc, var, arg)?;
                    builder.constraint(kind, Some(var))?;
                    Ok(())
                }
            }
        }
    }
}

// The variable less the argument is 0.
fn equation(alloc: Global, var: VarId, arg: Arg) -> Result<AnyKind, NoMemory>
    ensures { IfOk result (λ k. k ≡ equation var arg) }
{
    let linear = Linear::new(alloc, &[1, -1], &[Arg::Var(var), arg], Relation::Equal, 0)?;
    Ok(AnyKind::Linear(linear))
}
