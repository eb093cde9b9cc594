//! What is asked of the assignments.
ghost use Rattle.std.specs.Prelude.{◌≡◌};
ghost use Rattle.fzn_arguments.specs.Numbers.{AreNumbers};
ghost use Rattle.fzn_model.specs.Answers.{Answers};
ghost use Rattle.fzn_model.specs.Goals.{IsAsked};

use crate::error::ResolveError;
use dom_definers::Form;
use dom_model::Goal;
use fzn_arguments::variable_named;
use fzn_symbols::Scope;
use fzn_syntax::SolveGoal;

/// The goal of this item.
pub(crate) fn goal_of(
    scope: &Scope<'_>,
    numbers: &[u32],
    asked: &SolveGoal,
) -> Result<Goal, ResolveError>
    requires { AreNumbers scope.now numbers.now }
    ensures { Answers (IsAsked scope.now asked.now) result }
{
    match asked {
        SolveGoal::Satisfy => Ok(Goal::Satisfy),
        SolveGoal::Minimize(name) => {
            match variable_named(scope, numbers, Form::Int, name.name.as_bytes()) {
                None => Err(ResolveError::NotBuilt),
                Some(var) => Ok(Goal::Minimize(var)),
            }
        }
        SolveGoal::Maximize(name) => {
            match variable_named(scope, numbers, Form::Int, name.name.as_bytes()) {
                None => Err(ResolveError::NotBuilt),
                Some(var) => Ok(Goal::Maximize(var)),
            }
        }
    }
}
