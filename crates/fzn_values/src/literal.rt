//! What a name may stand for.
ghost use Rattle.std.specs.Prelude.{◌≡◌, MatchOption, option_copied, true, false};
ghost use Rattle.fzn_syntax.specs.declared.expression.Expression.TheVariants as expressions;
ghost use Rattle.fzn_values.specs.Literals.{is_truth, is_number, is_literal, name_in, named_by, boolean_value, integer_value, value_for};
ghost use Rattle.fzn_values.specs.declared.literal.LiteralKind.TheVariants as literals;
ghost use Rattle.fzn_values.specs.Constants.{truth, number};

use fzn_syntax::{Basic, Declaration, Expression, Number, ParameterType};

/// What a name may stand for: a truth value, an integer, or the list of an array.
#[derive(Clone, Copy, Debug, PartialEq, Eq, Drop)]
pub enum LiteralKind {
    Boolean,
    Integer,
    List,
}

fn is_truth(basic: &Basic) -> bool
    ensures { result ≡ is_truth basic.now }
{
    match basic {
        Basic::True => true,
        Basic::False => true,
        Basic::Name(_) => false,
        Basic::Number(_) => false,
        Basic::Range(_) => false,
        Basic::Set(_) => false,
    }
}

fn is_number(basic: &Basic) -> bool
    ensures { result ≡ is_number basic.now }
{
    match basic {
        Basic::True => false,
        Basic::False => false,
        Basic::Name(_) => false,
        Basic::Number(Number::Int(_)) => true,
        Basic::Number(Number::Float(_)) => false,
        Basic::Range(_) => false,
        Basic::Set(_) => false,
    }
}

fn is_basic_literal(literal: LiteralKind, basic: &Basic) -> bool
    ensures { result ≡ is_literal literal (expressions.Basic basic.now) }
{
    match literal {
        LiteralKind::Boolean => is_truth(basic),
        LiteralKind::Integer => is_number(basic),
        LiteralKind::List => false,
    }
}

/// Whether the expression is such a literal itself.
pub fn is_literal(literal: LiteralKind, expression: &Expression) -> bool
    ensures { result ≡ is_literal literal expression.now }
{
    match expression {
        Expression::Basic(basic) => is_basic_literal(literal, basic),
        Expression::List(_) => literal == LiteralKind::List,
    }
}

// The name that stands alone.
pub(crate) fn name_in(basic: &Basic) -> Option<&[u8]>
    ensures { option_copied result ≡ name_in basic.now }
{
    match basic {
        Basic::True => None,
        Basic::False => None,
        Basic::Name(name) => Some(name.name.as_bytes()),
        Basic::Number(_) => None,
        Basic::Range(_) => None,
        Basic::Set(_) => None,
    }
}

pub(crate) fn named_by(expression: &Expression) -> Option<&[u8]>
    ensures { option_copied result ≡ named_by expression.now }
{
    match expression {
        Expression::Basic(basic) => name_in(basic),
        Expression::List(_) => None,
    }
}

fn boolean_value<'a>(element: &ParameterType, value: &'a Expression) -> Option<&'a Expression>
    ensures { option_copied result ≡ boolean_value element.now value.now }
{
    match element {
        ParameterType::Bool => Some(value),
        ParameterType::Int => None,
        ParameterType::Float => None,
        ParameterType::SetOf(_) => None,
    }
}

fn integer_value<'a>(element: &ParameterType, value: &'a Expression) -> Option<&'a Expression>
    ensures { option_copied result ≡ integer_value element.now value.now }
{
    match element {
        ParameterType::Bool => None,
        ParameterType::Int => Some(value),
        ParameterType::Float => None,
        ParameterType::SetOf(_) => None,
    }
}

fn boolean_value_of(declaration: &Declaration) -> Option<&Expression>
    ensures { option_copied result ≡ value_for literals.Boolean declaration.now }
{
    match declaration {
        Declaration::Parameter(parameter) => boolean_value(&parameter.element, &parameter.value),
        Declaration::Variable(_) => None,
        Declaration::ParameterArray(_) => None,
        Declaration::VariableArray(_) => None,
    }
}

fn integer_value_of(declaration: &Declaration) -> Option<&Expression>
    ensures { option_copied result ≡ value_for literals.Integer declaration.now }
{
    match declaration {
        Declaration::Parameter(parameter) => integer_value(&parameter.element, &parameter.value),
        Declaration::Variable(_) => None,
        Declaration::ParameterArray(_) => None,
        Declaration::VariableArray(_) => None,
    }
}

fn list_value_of(declaration: &Declaration) -> Option<&Expression>
    ensures { option_copied result ≡ value_for literals.List declaration.now }
{
    match declaration {
        Declaration::Parameter(_) => None,
        Declaration::Variable(_) => None,
        Declaration::ParameterArray(array) => Some(&array.entries.value),
        Declaration::VariableArray(array) => Some(&array.value),
    }
}

/// The value of a declaration whose name may stand for such a literal.
pub fn value_for(literal: LiteralKind, declaration: &Declaration) -> Option<&Expression>
    ensures { option_copied result ≡ value_for literal declaration.now }
{
    match literal {
        LiteralKind::Boolean => boolean_value_of(declaration),
        LiteralKind::Integer => integer_value_of(declaration),
        LiteralKind::List => list_value_of(declaration),
    }
}

// The truth value that is written there.
pub(crate) fn truth_in(basic: &Basic) -> Option<bool>
    ensures { MatchOption result (is_truth basic.now ≡ false) (λ t. basic.now ≡ truth t) }
{
    match basic {
        Basic::True => Some(true),
        Basic::False => Some(false),
        Basic::Name(_) => None,
        Basic::Number(_) => None,
        Basic::Range(_) => None,
        Basic::Set(_) => None,
    }
}

pub(crate) fn truth_of(expression: &Expression) -> Option<bool>
    ensures { MatchOption result (is_literal literals.Boolean expression.now ≡ false) (λ t. expression.now ≡ expressions.Basic (truth t)) }
{
    match expression {
        Expression::Basic(basic) => truth_in(basic),
        Expression::List(_) => None,
    }
}

// The integer that is written there.
pub(crate) fn integer_in(basic: &Basic) -> Option<i64>
    ensures { MatchOption result (is_number basic.now ≡ false) (λ z. basic.now ≡ number z) }
{
    match basic {
        Basic::True => None,
        Basic::False => None,
        Basic::Name(_) => None,
        Basic::Number(Number::Int(value)) => Some(*value),
        Basic::Number(Number::Float(_)) => None,
        Basic::Range(_) => None,
        Basic::Set(_) => None,
    }
}

pub(crate) fn integer_of(expression: &Expression) -> Option<i64>
    ensures { MatchOption result (is_literal literals.Integer expression.now ≡ false) (λ z. expression.now ≡ expressions.Basic (number z)) }
{
    match expression {
        Expression::Basic(basic) => integer_in(basic),
        Expression::List(_) => None,
    }
}

// The list that is written there.
pub(crate) fn list_in(expression: &Expression) -> Option<&[Basic]>
    ensures { MatchOption result (is_literal literals.List expression.now ≡ false) (λ bs. expression.now ≡ expressions.List bs.now) }
{
    match expression {
        Expression::Basic(_) => None,
        Expression::List(basics) => Some(basics.as_slice()),
    }
}
