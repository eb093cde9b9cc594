//! What the arguments of a constraint stand for by their types.
ghost use Rattle.std.specs.Prelude.{◌≡◌, ℤ, List, length, IfOk, MatchOption};
ghost use Rattle.fzn_arguments.specs.Numbers.{AreNumbers};
ghost use Rattle.fzn_forms.specs.Reading.{IsConstant, IsInteger, AreIntegers, IsScalar, IsArray, IsReadAs, AreReadAs};
ghost use Rattle.fzn_forms.specs.declared.argument.Argument.{Argument};

use crate::argument::Argument;
use dom_core::Values;
use dom_definers::Form;
use fzn_arguments::{args_of, scalar_arg};
use fzn_signatures::ArgumentType;
use fzn_syntax::{Expression, Sequence};
use fzn_values::Constants;
use std::alloc::{AllocError, Global};

fn constant(values: &Constants<'_>, expression: &Expression) -> Option<i64>
    ensures { MatchOption result
        ((z : ℤ) → IsConstant values.now expression.now z → ⊥)
        (IsConstant values.now expression.now) }
{
    match expression {
        Expression::Basic(basic) => values.int_of(basic),
        Expression::List(_) => None,
    }
}

fn integer(values: &Constants<'_>, expression: &Expression) -> Option<Argument>
    ensures { MatchOption result
        ((a : Argument) → IsInteger values.now expression.now a → ⊥)
        (IsInteger values.now expression.now) }
{
    match constant(values, expression) {
        None => None,
        Some(value) => Some(Argument::Integer(value)),
    }
}

fn integers(
    alloc: Global,
    values: &Constants<'_>,
    expression: &Expression,
) -> Result<Option<Argument>, AllocError>
    ensures { IfOk result (λ r. MatchOption r
        ((a : Argument) → AreIntegers values.now expression.now a → ⊥)
        (AreIntegers values.now expression.now)) }
{
    match values.ints_of(alloc, expression)? {
        None => Ok(None),
        Some(integers) => Ok(Some(Argument::Integers(Values::from_vec(integers)))),
    }
}

fn scalar(
    values: &Constants<'_>,
    numbers: &[u32],
    form: Form,
    expression: &Expression,
) -> Option<Argument>
    requires { AreNumbers values.now numbers.now }
    ensures { MatchOption result
        ((a : Argument) → IsScalar values.now form expression.now a → ⊥)
        (IsScalar values.now form expression.now) }
{
    match scalar_arg(values, numbers, form, expression) {
        None => None,
        Some(arg) => Some(Argument::Scalar(arg)),
    }
}

fn array(
    alloc: Global,
    values: &Constants<'_>,
    numbers: &[u32],
    form: Form,
    expression: &Expression,
) -> Result<Option<Argument>, AllocError>
    requires { AreNumbers values.now numbers.now }
    ensures { IfOk result (λ r. MatchOption r
        ((a : Argument) → IsArray values.now form expression.now a → ⊥)
        (IsArray values.now form expression.now)) }
{
    match args_of(alloc, values, numbers, form, expression)? {
        None => Ok(None),
        Some(args) => Ok(Some(Argument::Array(Sequence::from_vec(args)))),
    }
}

// What the expression stands for as an argument of this type.
fn read(
    alloc: Global,
    values: &Constants<'_>,
    numbers: &[u32],
    wanted: ArgumentType,
    expression: &Expression,
) -> Result<Option<Argument>, AllocError>
    requires { AreNumbers values.now numbers.now }
    ensures { IfOk result (λ r. MatchOption r
        ((a : Argument) → IsReadAs values.now wanted expression.now a → ⊥)
        (IsReadAs values.now wanted expression.now)) }
{
    match wanted {
        ArgumentType::ConstantInteger => Ok(integer(values, expression)),
        ArgumentType::Set => Ok(None),
        ArgumentType::ConstantIntegerArray => integers(alloc, values, expression),
        ArgumentType::ConstantBooleanArray => Ok(None),
        ArgumentType::Integer => Ok(scalar(values, numbers, Form::Int, expression)),
        ArgumentType::Boolean => Ok(scalar(values, numbers, Form::Bool, expression)),
        ArgumentType::IntegerArray => array(alloc, values, numbers, Form::Int, expression),
        ArgumentType::BooleanArray => array(alloc, values, numbers, Form::Bool, expression),
    }
}

/// What the expressions stand for, where there are as many as types.
pub(crate) fn read_all(
    alloc: Global,
    values: &Constants<'_>,
    numbers: &[u32],
    wanted: &[ArgumentType],
    expressions: &[Expression],
) -> Result<Option<Vec<Argument>>, AllocError>
    requires { AreNumbers values.now numbers.now }
    ensures { IfOk result (λ r. MatchOption r
        ((args : List Argument) → AreReadAs values.now wanted.now expressions.now args → ⊥)
        (λ v. AreReadAs values.now wanted.now expressions.now v.items)) }
{
    if wanted.len() != expressions.len() {
        return Ok(None);
    }
    let mut arguments = Vec::new(alloc);
    for place in 0..expressions.len() {
        match read(alloc, values, numbers, wanted[place], &expressions[place])? {
            None => return Ok(None),
            Some(argument) => arguments.push(argument)?,
        }
    }
    Ok(Some(arguments))
}
