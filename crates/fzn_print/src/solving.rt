//! The solve item.

ghost use Rattle.std.specs.Prelude.{◌≡◌, ◌++◌, OnOk};
ghost use Rattle.fzn_print.specs.Marks.{text_of};
ghost use Rattle.fzn_print.specs.Canonical.{objective_marks, goal_marks, solve_marks};

use crate::annotations::write_annotations;
use crate::marks::{write_end, write_name, write_space};
use fzn_syntax::{Identifier, Solve, SolveGoal};
use std::alloc::AllocError;

#[tactic(auto, using(crate::proofs::Texts::marked))]
fn write_objective(out: &mut Vec<u8>, word: &[u8], name: &Identifier) -> Result<(), AllocError>
    ensures { OnOk result (out.new.items ≡ out.old.items ++ text_of (objective_marks word.now name.now)) }
{
    write_name(out, word)?;
    write_space(out)?;
    write_name(out, name.name.as_bytes())
}

#[tactic(auto, using(crate::proofs::Texts::marked))]
fn write_goal(out: &mut Vec<u8>, goal: &SolveGoal) -> Result<(), AllocError>
    ensures { OnOk result (out.new.items ≡ out.old.items ++ text_of (goal_marks goal.now)) }
{
    match goal {
        SolveGoal::Satisfy => write_name(out, b"satisfy"),
        SolveGoal::Minimize(name) => write_objective(out, b"minimize", name),
        SolveGoal::Maximize(name) => write_objective(out, b"maximize", name),
    }
}

#[tactic(auto, using(crate::proofs::Texts::marked))]
pub(crate) fn write_solve(out: &mut Vec<u8>, solve: &Solve) -> Result<(), AllocError>
    ensures { OnOk result (out.new.items ≡ out.old.items ++ text_of (solve_marks solve.now)) }
{
    write_name(out, b"solve")?;
    write_annotations(out, solve.annotations.as_slice())?;
    write_space(out)?;
    write_goal(out, &solve.goal)?;
    write_end(out)
}
