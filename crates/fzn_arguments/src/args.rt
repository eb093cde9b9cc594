//! The constants and variables that arguments stand for.
ghost use Rattle.std.specs.Prelude.{◌≡◌, ℤ, List, IfOk, IfSome, MatchOption};
ghost use Rattle.dom_core.specs.declared.arg.Arg.{Arg};
ghost use Rattle.dom_core.specs.declared.var_id.VarId.{VarId};
ghost use Rattle.fzn_arguments.specs.Arguments.{value_of, HasValue, NamesVariable, IsArg, AreArgs, AreArgsOf, IsScalarArg, HasOneArg, HasOneScalarArg, HasOneArgList};
ghost use Rattle.fzn_arguments.specs.Numbers.{AreNumbers};

use crate::numbers::variable_named;
use dom_core::{Arg, VarId};
use dom_definers::Form;
use fzn_syntax::{Basic, Expression};
use fzn_values::{Constants, one_integer, one_list, one_truth};
use std::alloc::{AllocError, Global};

/// Where names are different, what stands for an argument stands for one alone, and so do lists. The call does nothing.
pub fn one_argument()
    ensures one { HasOneArg }
    ensures scalar { HasOneScalarArg }
    ensures list { HasOneArgList }
{
    one_truth();
    one_integer();
    one_list();
}

fn value_of(truth: bool) -> i64
    ensures { result ≡ value_of truth }
{
    if truth { 1 } else { 0 }
}

fn constant_of(values: &Constants<'_>, form: Form, basic: &Basic) -> Option<i64>
    ensures { MatchOption result
        ((z : ℤ) → HasValue values.now form basic.now z → ⊥)
        (HasValue values.now form basic.now) }
{
    match form {
        Form::Bool => match values.truth_of(basic) {
            None => None,
            Some(truth) => Some(value_of(truth)),
        },
        Form::Int => values.int_of(basic),
    }
}

fn variable_of(values: &Constants<'_>, numbers: &[u32], form: Form, basic: &Basic) -> Option<VarId>
    requires { AreNumbers values.now numbers.now }
    ensures { MatchOption result
        ((x : VarId) → NamesVariable values.now form basic.now x → ⊥)
        (NamesVariable values.now form basic.now) }
{
    match basic {
        Basic::True => None,
        Basic::False => None,
        Basic::Name(name) => variable_named(values.scope(), numbers, form, name.name.as_bytes()),
        Basic::Number(_) => None,
        Basic::Range(_) => None,
        Basic::Set(_) => None,
    }
}

/// The constant or the variable that a literal or name stands for.
pub fn arg_of(values: &Constants<'_>, numbers: &[u32], form: Form, basic: &Basic) -> Option<Arg>
    requires { AreNumbers values.now numbers.now }
    ensures { MatchOption result
        ((x : Arg) → IsArg values.now form basic.now x → ⊥)
        (IsArg values.now form basic.now) }
{
    match constant_of(values, form, basic) {
        Some(value) => Some(Arg::Const(value)),
        None => match variable_of(values, numbers, form, basic) {
            None => None,
            Some(var) => Some(Arg::Var(var)),
        },
    }
}

/// What an expression without a list stands for.
pub fn scalar_arg(
    values: &Constants<'_>,
    numbers: &[u32],
    form: Form,
    expression: &Expression,
) -> Option<Arg>
    requires { AreNumbers values.now numbers.now }
    ensures { MatchOption result
        ((x : Arg) → IsScalarArg values.now form expression.now x → ⊥)
        (IsScalarArg values.now form expression.now) }
{
    match expression {
        Expression::Basic(basic) => arg_of(values, numbers, form, basic),
        Expression::List(_) => None,
    }
}

/// What literals and names stand for, one by one.
pub fn args_in(
    alloc: Global,
    values: &Constants<'_>,
    numbers: &[u32],
    form: Form,
    basics: &[Basic],
) -> Result<Option<Vec<Arg>>, AllocError>
    requires { AreNumbers values.now numbers.now }
    ensures { IfOk result (λ r. MatchOption r
        ((xs : List Arg) → AreArgs values.now form basics.now xs → ⊥)
        (λ v. AreArgs values.now form basics.now v.items)) }
{
    let mut args = Vec::new(alloc);
    for basic in basics {
        match arg_of(values, numbers, form, basic) {
            None => return Ok(None),
            Some(arg) => args.push(arg)?,
        }
    }
    Ok(Some(args))
}

/// What the entries stand for of the list that an expression stands for.
pub fn args_of(
    alloc: Global,
    values: &Constants<'_>,
    numbers: &[u32],
    form: Form,
    expression: &Expression,
) -> Result<Option<Vec<Arg>>, AllocError>
    requires { AreNumbers values.now numbers.now }
    ensures { IfOk result (λ r. MatchOption r
        ((xs : List Arg) → AreArgsOf values.now form expression.now xs → ⊥)
        (λ v. AreArgsOf values.now form expression.now v.items)) }
{
    one_list();
    let _names_are_different = values.scope().declarations();
    match values.list_of(expression) {
        None => Ok(None),
        Some(basics) => args_in(alloc, values, numbers, form, basics),
    }
}
