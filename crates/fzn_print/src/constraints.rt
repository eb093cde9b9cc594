//! Constraints.

ghost use Rattle.std.specs.Prelude.{◌≡◌, ◌++◌, OnOk};
ghost use Rattle.fzn_print.specs.Marks.{text_of, others, listed, each};
ghost use Rattle.fzn_print.specs.Canonical.{expression_marks, constraint_marks};

use crate::annotations::write_annotations;
use crate::expressions::write_expression;
use crate::marks::{write_end, write_name, write_space, write_symbol};
use fzn_lex::What;
use fzn_syntax::{Constraint, Expression};
use std::alloc::AllocError;

fn write_other_expressions(out: &mut Vec<u8>, expressions: &[Expression]) -> Result<(), AllocError>
    ensures { OnOk result (out.new.items ≡ out.old.items ++ text_of (others expression_marks expressions.now)) }
{
    for expression in expressions {
        write_symbol(out, What::Comma)?;
        write_expression(out, expression)?;
    }
    Ok(())
}

#[tactic(auto, using(crate::proofs::Texts::marked))]
fn write_expressions(out: &mut Vec<u8>, expressions: &[Expression]) -> Result<(), AllocError>
    ensures { OnOk result (out.new.items ≡ out.old.items ++ text_of (listed expression_marks expressions.now)) }
{
    match expressions {
        [] => Ok(()),
        [first, rest @ ..] => {
            write_expression(out, first)?;
            write_other_expressions(out, rest)
        }
    }
}

#[tactic(auto, using(crate::proofs::Texts::marked))]
fn write_constraint(out: &mut Vec<u8>, constraint: &Constraint) -> Result<(), AllocError>
    ensures { OnOk result (out.new.items ≡ out.old.items ++ text_of (constraint_marks constraint.now)) }
{
    write_name(out, b"constraint")?;
    write_space(out)?;
    write_name(out, constraint.name.name.as_bytes())?;
    write_symbol(out, What::LeftParen)?;
    write_expressions(out, constraint.arguments.as_slice())?;
    write_symbol(out, What::RightParen)?;
    write_annotations(out, constraint.annotations.as_slice())?;
    write_end(out)
}

pub(crate) fn write_constraints(
    out: &mut Vec<u8>,
    constraints: &[Constraint],
) -> Result<(), AllocError>
    ensures { OnOk result (out.new.items ≡ out.old.items ++ text_of (each constraint_marks constraints.now)) }
{
    for constraint in constraints {
        write_constraint(out, constraint)?;
    }
    Ok(())
}
