//! Linear equations that are solved for the variable which they are to define.
ghost use Rattle.std.specs.Prelude.{◌≡◌, IfOk};
ghost use Rattle.dom_model.specs.Solved.{is_arg_of, place_from, solved, solved_at};

use any_kind::AnyKind;
use dom_core::{Arg, NoMemory, VarId};
use kind_linear::{Linear, LinearOutput};
use kind_sum::Term;
use std::alloc::Global;

/// The kind, solved for the variable that it is to define where it is a linear equation that can be.
pub(crate) fn solved(
    alloc: Global,
    kind: AnyKind,
    defines: Option<VarId>,
) -> Result<AnyKind, NoMemory>
    ensures { IfOk result (λ k. k ≡ solved kind defines) }
{
    match (kind, defines) {
        (AnyKind::Linear(linear), Some(var)) => solved_for(alloc, linear, var),
        (kind, _) => Ok(kind),
    }
}

fn solved_for(alloc: Global, linear: Linear, var: VarId) -> Result<AnyKind, NoMemory>
    ensures { IfOk result (λ k. k ≡ solved_at linear (place_from 0 var linear.terms)) }
{
    match place_of(linear.terms(), var) {
        None => Ok(AnyKind::Linear(linear)),
        Some(place) => solved_at(alloc, linear, place),
    }
}

fn solved_at(alloc: Global, linear: Linear, place: usize) -> Result<AnyKind, NoMemory>
    ensures { IfOk result (λ k. k ≡ solved_at linear (Some place)) }
{
    if !linear.can_define(place) {
        return Ok(AnyKind::Linear(linear));
    }
    Ok(AnyKind::LinearOutput(LinearOutput::new(alloc, linear, place)?))
}

/// The place of the first term of the variable.
pub fn place_of(terms: &[Term], var: VarId) -> Option<usize>
    ensures { result ≡ place_from 0 var terms.now }
{
    for (place, term) in terms.iter().enumerate() {
        if is_arg_of(var, term.arg) {
            return Some(place);
        }
    }
    None
}

fn is_arg_of(var: VarId, arg: Arg) -> bool
    ensures { result ≡ is_arg_of var arg }
{
    match arg {
        Arg::Var(other) => var == other,
        Arg::Const(_) => false,
    }
}
