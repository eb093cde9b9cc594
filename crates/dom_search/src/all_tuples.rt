//! The search itself.
ghost use Rattle.std.specs.Prelude.{◌≡◌, ◌≤◌, length, replicate, pos, IfOk, IsTrue};
ghost use Rattle.dom_model.specs.Least.{width_of};
ghost use Rattle.dom_network.specs.Completion.{AreInHulls};
ghost use Rattle.dom_search.specs.Outcome.{IsOutcome};
ghost use Rattle.dom_search.specs.Progress.{Improves};

use crate::count::tuple_count;
use crate::outcome::Outcome;
use crate::tuple::set_tuple;
use dom_core::{Assignment, NoMemory};
use dom_model::Model;
use std::alloc::Global;

/// The least feasible assignment of a narrow model, or that there is none. Each tuple of values of the free
/// variables counts as one node.
pub fn search(alloc: Global, model: &Model) -> Result<Outcome, NoMemory>
    requires { width_of model.now ≤ 1000000 }
    ensures { IfOk result (IsOutcome model.now) }
{
    model.one_completion();
    model.feasible_is_completed();
    let count = tuple_count(model);
    let mut values = zeros(alloc, model.free().len())?;
    let mut candidate = Assignment::zeros(alloc, model.vars())?;
    let mut best = Assignment::zeros(alloc, model.vars())?;
    let mut found = false;
    for number in 0..count {
        set_tuple(model, count, number, &mut values);
        model.complete(&values, &mut candidate);
        found = improve(model, &candidate, found, &mut best);
    }
    if found {
        Ok(Outcome::Best { best, nodes: count })
    } else {
        Ok(Outcome::None { nodes: count })
    }
}

fn zeros(alloc: Global, count: usize) -> Result<Vec<i64>, NoMemory>
    ensures { IfOk result (λ values. values.items ≡ replicate count (pos 0)) }
{
    Ok(vec![in alloc; 0; count]?)
}

/// Puts the candidate into the place of the best assignment found so far, where it is feasible and better.
fn improve(model: &Model, candidate: &Assignment, found: bool, best: &mut Assignment) -> bool
    requires candidate { AreInHulls model.now.network.hulls candidate.now }
    requires best { IsTrue found → AreInHulls model.now.network.hulls best.old }
    requires whole { length best.old ≡ length candidate.now }
    ensures best { Improves model.now candidate.now found best.old result best.new }
    ensures hulls { IsTrue result → AreInHulls model.now.network.hulls best.new }
    ensures whole { length best.new ≡ length best.old }
{
    if !model.feasible(candidate) {
        return found;
    }
    if found && !model.better(candidate, best) {
        return found;
    }
    best.copy_from(candidate);
    true
}
