//! The kinds that constraints make of their arguments.
ghost use Rattle.std.specs.Prelude.{◌≡◌};
ghost use Rattle.fzn_forms.specs.Answers.{Answers};
ghost use Rattle.fzn_forms.specs.Made.{IsMade, relation_of, bound_of};
ghost use Rattle.fzn_signatures.specs.declared.shape.Shape.TheVariants as shapes;

use crate::argument::Argument;
use crate::error::FormError;
use crate::parts::{list_giving, lists, lists_giving, three, two, weighted, weighted_giving};
use any_kind::AnyKind;
use dom_core::Relation;
use fzn_signatures::{Comparison, Shape};
use kind_bool::{And, BoolClause, BoolClauseReified, Or, Xor};
use kind_linear::Linear;
use kind_reified::LinearReified;
use std::alloc::Global;

/// The kind of this shape over these arguments.
pub(crate) fn make(
    alloc: Global,
    shape: Shape,
    arguments: &[Argument],
) -> Result<AnyKind, FormError>
    ensures { Answers (IsMade shape arguments.now) result }
{
    match shape {
        Shape::Linear(relation) => linear(alloc, relation, arguments),
        Shape::LinearReified(relation) => linear_reified(alloc, relation, arguments),
        Shape::Compared(comparison) => compared(alloc, comparison, arguments),
        Shape::ComparedReified(comparison) => compared_reified(alloc, comparison, arguments),
        Shape::Negation => negation(alloc, arguments),
        Shape::Conversion => conversion(alloc, arguments),
        Shape::Sum => sum(alloc, arguments),
        Shape::Clause => clause(alloc, arguments),
        Shape::ClauseReified => clause_reified(alloc, arguments),
        Shape::Conjunction => conjunction(alloc, arguments),
        Shape::Disjunction => disjunction(alloc, arguments),
        Shape::And => and(alloc, arguments),
        Shape::Or => or(alloc, arguments),
        Shape::Xor => xor(alloc, arguments),
        _ => Err(FormError::NotBuilt),
    }
}

fn linear(alloc: Global, relation: Relation, arguments: &[Argument]) -> Result<AnyKind, FormError>
    ensures { Answers (IsMade (shapes.Linear relation) arguments.now) result }
{
    match weighted(arguments) {
        None => Err(FormError::NotBuilt),
        Some((coefs, args, bound)) => {
            Ok(AnyKind::Linear(Linear::new(alloc, coefs, args, relation, bound)?))
        }
    }
}

fn linear_reified(
    alloc: Global,
    relation: Relation,
    arguments: &[Argument],
) -> Result<AnyKind, FormError>
    ensures { Answers (IsMade (shapes.LinearReified relation) arguments.now) result }
{
    match weighted_giving(arguments) {
        None => Err(FormError::NotBuilt),
        Some((coefs, args, bound, output)) => {
            Ok(AnyKind::LinearReified(LinearReified::new(
                alloc, coefs, args, relation, bound, output,
            )?))
        }
    }
}

fn relation_of(comparison: Comparison) -> Relation
    ensures { result ≡ relation_of comparison }
{
    match comparison {
        Comparison::Equal => Relation::Equal,
        Comparison::Differ => Relation::Differ,
        Comparison::AtMost => Relation::AtMost,
        Comparison::Below => Relation::AtMost,
    }
}

fn bound_of(comparison: Comparison) -> i64
    ensures { result ≡ bound_of comparison }
{
    match comparison {
        Comparison::Equal => 0,
        Comparison::Differ => 0,
        Comparison::AtMost => 0,
        Comparison::Below => -1,
    }
}

fn compared(
    alloc: Global,
    comparison: Comparison,
    arguments: &[Argument],
) -> Result<AnyKind, FormError>
    ensures { Answers (IsMade (shapes.Compared comparison) arguments.now) result }
{
    match two(arguments) {
        None => Err(FormError::NotBuilt),
        Some((x, y)) => {
            let relation = relation_of(comparison);
            let bound = bound_of(comparison);
            let difference = Linear::new(alloc, &[1, -1], &[x, y], relation, bound)?;
            Ok(AnyKind::Linear(difference))
        }
    }
}

fn compared_reified(
    alloc: Global,
    comparison: Comparison,
    arguments: &[Argument],
) -> Result<AnyKind, FormError>
    ensures { Answers (IsMade (shapes.ComparedReified comparison) arguments.now) result }
{
    match three(arguments) {
        None => Err(FormError::NotBuilt),
        Some((x, y, output)) => {
            let relation = relation_of(comparison);
            let bound = bound_of(comparison);
            let truth = LinearReified::new(alloc, &[1, -1], &[x, y], relation, bound, output)?;
            Ok(AnyKind::LinearReified(truth))
        }
    }
}

fn negation(alloc: Global, arguments: &[Argument]) -> Result<AnyKind, FormError>
    ensures { Answers (IsMade shapes.Negation arguments.now) result }
{
    match two(arguments) {
        None => Err(FormError::NotBuilt),
        Some((a, b)) => {
            let opposites = Linear::new(alloc, &[1, 1], &[a, b], Relation::Equal, 1)?;
            Ok(AnyKind::Linear(opposites))
        }
    }
}

fn conversion(alloc: Global, arguments: &[Argument]) -> Result<AnyKind, FormError>
    ensures { Answers (IsMade shapes.Conversion arguments.now) result }
{
    match two(arguments) {
        None => Err(FormError::NotBuilt),
        Some((truth, number)) => {
            let same = Linear::new(alloc, &[1, -1], &[truth, number], Relation::Equal, 0)?;
            Ok(AnyKind::Linear(same))
        }
    }
}

fn sum(alloc: Global, arguments: &[Argument]) -> Result<AnyKind, FormError>
    ensures { Answers (IsMade shapes.Sum arguments.now) result }
{
    match three(arguments) {
        None => Err(FormError::NotBuilt),
        Some((x, y, z)) => {
            let addition = Linear::new(alloc, &[1, 1, -1], &[x, y, z], Relation::Equal, 0)?;
            Ok(AnyKind::Linear(addition))
        }
    }
}

fn clause(alloc: Global, arguments: &[Argument]) -> Result<AnyKind, FormError>
    ensures { Answers (IsMade shapes.Clause arguments.now) result }
{
    match lists(arguments) {
        None => Err(FormError::NotBuilt),
        Some((ps, ns)) => Ok(AnyKind::BoolClause(BoolClause::new(alloc, ps, ns)?)),
    }
}

fn clause_reified(alloc: Global, arguments: &[Argument]) -> Result<AnyKind, FormError>
    ensures { Answers (IsMade shapes.ClauseReified arguments.now) result }
{
    match lists_giving(arguments) {
        None => Err(FormError::NotBuilt),
        Some((ps, ns, output)) => {
            let truth = BoolClauseReified::new(alloc, ps, ns, output)?;
            Ok(AnyKind::BoolClauseReified(truth))
        }
    }
}

fn conjunction(alloc: Global, arguments: &[Argument]) -> Result<AnyKind, FormError>
    ensures { Answers (IsMade shapes.Conjunction arguments.now) result }
{
    match list_giving(arguments) {
        None => Err(FormError::NotBuilt),
        Some((ps, output)) => Ok(AnyKind::And(And::new(alloc, ps, output)?)),
    }
}

fn disjunction(alloc: Global, arguments: &[Argument]) -> Result<AnyKind, FormError>
    ensures { Answers (IsMade shapes.Disjunction arguments.now) result }
{
    match list_giving(arguments) {
        None => Err(FormError::NotBuilt),
        Some((ps, output)) => Ok(AnyKind::Or(Or::new(alloc, ps, output)?)),
    }
}

fn and(alloc: Global, arguments: &[Argument]) -> Result<AnyKind, FormError>
    ensures { Answers (IsMade shapes.And arguments.now) result }
{
    match three(arguments) {
        None => Err(FormError::NotBuilt),
        Some((a, b, output)) => Ok(AnyKind::And(And::new(alloc, &[a, b], output)?)),
    }
}

fn or(alloc: Global, arguments: &[Argument]) -> Result<AnyKind, FormError>
    ensures { Answers (IsMade shapes.Or arguments.now) result }
{
    match three(arguments) {
        None => Err(FormError::NotBuilt),
        Some((a, b, output)) => Ok(AnyKind::Or(Or::new(alloc, &[a, b], output)?)),
    }
}

fn xor(alloc: Global, arguments: &[Argument]) -> Result<AnyKind, FormError>
    ensures { Answers (IsMade shapes.Xor arguments.now) result }
{
    match three(arguments) {
        None => Err(FormError::NotBuilt),
        Some((a, b, output)) => Ok(AnyKind::Xor(Xor::new(alloc, a, b, output)?)),
    }
}
