//! The fault of a solve item.
ghost use Rattle.std.specs.Prelude.{◌≡◌, ◌↔◌, IsTrue, MatchOption, true, false};
ghost use Rattle.fzn_symbols.specs.declared.base.Base.TheVariants as bases;
ghost use Rattle.fzn_symbols.specs.Sorts.{sort, Names};
ghost use Rattle.fzn_check.specs.Goals.{AimsAtFloatOrSet, IsWellTypedGoal, IsSolveFault, IsSolveFine};

use crate::fault::Fault;
use crate::floats::names_float_or_set;
use fzn_symbols::{Base, Scope, Sort, has_sort};
use fzn_syntax::{Solve, SolveGoal};

fn aims_at_float_or_set(scope: &Scope<'_>, goal: &SolveGoal) -> bool
    ensures { IsTrue result ↔ AimsAtFloatOrSet scope.now goal.now }
{
    match goal {
        SolveGoal::Satisfy => false,
        SolveGoal::Minimize(name) => names_float_or_set(scope, name.name.as_bytes()),
        SolveGoal::Maximize(name) => names_float_or_set(scope, name.name.as_bytes()),
    }
}

fn names_integer(scope: &Scope<'_>, name: &[u8]) -> bool
    ensures { IsTrue result ↔ Names scope.now name.now (sort bases.Int true false) }
{
    let variable = Sort {
        base: Base::Int,
        is_variable: true,
        is_array: false,
    };
    has_sort(scope, name, variable)
}

fn is_well_typed_goal(scope: &Scope<'_>, goal: &SolveGoal) -> bool
    ensures { IsTrue result ↔ IsWellTypedGoal scope.now goal.now }
{
    match goal {
        SolveGoal::Satisfy => true,
        SolveGoal::Minimize(name) => names_integer(scope, name.name.as_bytes()),
        SolveGoal::Maximize(name) => names_integer(scope, name.name.as_bytes()),
    }
}

/// What is wrong with the goal, at the word `solve`.
pub fn solve_fault(scope: &Scope<'_>, solve: &Solve) -> Option<Fault>
    ensures { MatchOption result (IsSolveFine scope.now solve.now) (IsSolveFault scope.now solve.now) }
{
    if aims_at_float_or_set(scope, &solve.goal) {
        return Some(Fault::FloatOrSet { at: solve.at });
    }
    if !is_well_typed_goal(scope, &solve.goal) {
        return Some(Fault::IllTyped { at: solve.at });
    }
    None
}
