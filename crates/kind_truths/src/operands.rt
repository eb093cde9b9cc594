//! What is asked of the operands of a disjunction in one pass over them.
ghost use Rattle.std.specs.Prelude.{◌≡◌, ◌<◌, ◌≤◌, true, false, length, IfOk};
ghost use Rattle.std.specs.List.{list_any, list_all};
ghost use Rattle.kind_law.specs.Argument.{ArgHas, arg_change};
ghost use Rattle.kind_law.specs.Laws.{Each, AllBelow, changes};
ghost use Rattle.kind_parts.specs.Vars.{gathered, variables_of};
ghost use Rattle.kind_truths.specs.Operand.{may_fall, operand_certain, operand_refuted, operand_moves, operand_vars, turned, arguments_of};
ghost use Rattle.kind_truths.specs.Plan.{IsFirstLeft, IsFirstCertain, HasLeft};

use crate::operand::{Operand, is_certain, may_fall, turned};
use dom_core::{Changes, Intervals, View};
use kind_law::{Reading, span};
use kind_parts::DistinctVars;
use std::alloc::{AllocError, Global};

/// The variables of the operands, each once, in the order in which they come first.
pub fn vars_of(alloc: Global, operands: &[Operand]) -> Result<DistinctVars, AllocError>
    ensures { IfOk result (λ d. d ≡ gathered (variables_of (arguments_of operands.now))) }
{
    let mut vars = DistinctVars::new(alloc);
    for operand in operands {
        vars.add(operand.arg)?;
    }
    Ok(vars)
}

/// The first place, from this one on, of an operand that is not refuted, or the length where there is none.
pub(crate) fn first_left<I: Intervals>(operands: &[Operand], from: usize, intervals: &I) -> usize
    requires from { from ≤ length operands.now }
    requires below { Each (λ u. u.0 < I.width intervals.now) (operand_vars operands.now) }
    requires ready { Each (λ u. I.ready intervals.now u.0) (operand_vars operands.now) }
    ensures { IsFirstLeft (I.spans intervals.now) operands.now from result }
{
    for at in from..operands.len() {
        if !is_refuted_over(operands[at], intervals) {
            return at;
        }
    }
    operands.len()
}

/// Whether each operand is refuted.
pub fn all_refuted<I: Intervals>(operands: &[Operand], intervals: &I) -> bool
    requires below { Each (λ u. u.0 < I.width intervals.now) (operand_vars operands.now) }
    requires ready { Each (λ u. I.ready intervals.now u.0) (operand_vars operands.now) }
    ensures { result ≡ list_all (operand_refuted (I.spans intervals.now)) operands.now }
{
    first_left(operands, 0, intervals) == operands.len()
}

/// The first place of an operand that is certain.
pub(crate) fn first_certain<I: Intervals>(operands: &[Operand], intervals: &I) -> Option<usize>
    requires below { Each (λ u. u.0 < I.width intervals.now) (operand_vars operands.now) }
    requires ready { Each (λ u. I.ready intervals.now u.0) (operand_vars operands.now) }
    ensures { IsFirstCertain (I.spans intervals.now) operands.now result }
{
    for at in 0..operands.len() {
        if is_certain_over(operands[at], intervals) {
            return Some(at);
        }
    }
    None
}

/// Whether some operand is certain.
pub fn some_certain<I: Intervals>(operands: &[Operand], intervals: &I) -> bool
    requires below { Each (λ u. u.0 < I.width intervals.now) (operand_vars operands.now) }
    requires ready { Each (λ u. I.ready intervals.now u.0) (operand_vars operands.now) }
    ensures some { result ≡ list_any (operand_certain (I.spans intervals.now)) operands.now }
    ensures stands { result ≡ true → HasLeft (I.spans intervals.now) operands.now }
{
    first_certain(operands, intervals).is_some()
}

/// Whether some operand may fall, or, where it is flipped, may rise.
pub fn some_moves(operands: &[Operand], view: &View, flipped: bool) -> bool
    requires { AllBelow (length view.now) (operand_vars operands.now) }
    ensures { result ≡ list_any (operand_moves flipped view.now) operands.now }
{
    for at in 0..operands.len() {
        if is_moving(operands[at], view, flipped) {
            return true;
        }
    }
    false
}

/// Whether the operand is true at every value within the intervals.
fn is_certain_over<I: Intervals>(operand: Operand, intervals: &I) -> bool
    requires below { ArgHas (λ u. u.0 < I.width intervals.now) operand.arg }
    requires ready { ArgHas (λ u. I.ready intervals.now u.0) operand.arg }
    ensures certain { result ≡ operand_certain (I.spans intervals.now) operand }
    ensures stands { result ≡ true → operand_refuted (I.spans intervals.now) operand ≡ false }
{
    is_certain(
        operand.negated,
        span(operand.arg, Reading::Values, intervals),
    )
}

/// Whether the operand is false at every value within the intervals.
fn is_refuted_over<I: Intervals>(operand: Operand, intervals: &I) -> bool
    requires below { ArgHas (λ u. u.0 < I.width intervals.now) operand.arg }
    requires ready { ArgHas (λ u. I.ready intervals.now u.0) operand.arg }
    ensures { result ≡ operand_refuted (I.spans intervals.now) operand }
{
    is_certain(
        !operand.negated,
        span(operand.arg, Reading::Values, intervals),
    )
}

/// Whether the operand may fall under the view, or, where it is flipped, may rise.
fn is_moving(operand: Operand, view: &View, flipped: bool) -> bool
    requires { ArgHas (λ u. u.0 < length view.now) operand.arg }
    ensures { result ≡ operand_moves flipped view.now operand }
{
    let change = span(operand.arg, Reading::Changes, &Changes(view));
    may_fall(turned(flipped, operand.negated), change)
}
