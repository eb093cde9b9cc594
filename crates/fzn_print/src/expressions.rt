//! Expressions.

ghost use Rattle.std.specs.Prelude.{◌≡◌, ◌++◌, OnOk};
ghost use Rattle.fzn_print.specs.Marks.{text_of, others, listed};
ghost use Rattle.fzn_print.specs.Canonical.{basic_marks, expression_marks};

use crate::marks::{write_name, write_symbol};
use crate::numbers::{write_bounds, write_number, write_set};
use fzn_lex::What;
use fzn_syntax::{Basic, Expression};
use std::alloc::AllocError;

#[tactic(auto, using(crate::proofs::Texts::marked))]
fn write_basic(out: &mut Vec<u8>, basic: &Basic) -> Result<(), AllocError>
    ensures { OnOk result (out.new.items ≡ out.old.items ++ text_of (basic_marks basic.now)) }
{
    match basic {
        Basic::True => write_name(out, b"true"),
        Basic::False => write_name(out, b"false"),
        Basic::Name(name) => write_name(out, name.name.as_bytes()),
        Basic::Number(number) => write_number(out, number),
        Basic::Range(bounds) => write_bounds(out, bounds),
        Basic::Set(numbers) => write_set(out, numbers),
    }
}

fn write_other_basics(out: &mut Vec<u8>, basics: &[Basic]) -> Result<(), AllocError>
    ensures { OnOk result (out.new.items ≡ out.old.items ++ text_of (others basic_marks basics.now)) }
{
    for basic in basics {
        write_symbol(out, What::Comma)?;
        write_basic(out, basic)?;
    }
    Ok(())
}

#[tactic(auto, using(crate::proofs::Texts::marked))]
fn write_basics(out: &mut Vec<u8>, basics: &[Basic]) -> Result<(), AllocError>
    ensures { OnOk result (out.new.items ≡ out.old.items ++ text_of (listed basic_marks basics.now)) }
{
    match basics {
        [] => Ok(()),
        [first, rest @ ..] => {
            write_basic(out, first)?;
            write_other_basics(out, rest)
        }
    }
}

#[tactic(auto, using(crate::proofs::Texts::marked))]
pub(crate) fn write_expression(out: &mut Vec<u8>, expression: &Expression) -> Result<(), AllocError>
    ensures { OnOk result (out.new.items ≡ out.old.items ++ text_of (expression_marks expression.now)) }
{
    match expression {
        Expression::Basic(basic) => write_basic(out, basic),
        Expression::List(basics) => {
            write_symbol(out, What::LeftBracket)?;
            write_basics(out, basics.as_slice())?;
            write_symbol(out, What::RightBracket)
        }
    }
}
