//! Numbers, ranges and sets of them.

ghost use Rattle.std.specs.Prelude.{◌≡◌, ◌++◌, OnOk};
ghost use Rattle.fzn_print.specs.Marks.{text_of, others, listed};
ghost use Rattle.fzn_print.specs.Canonical.{number_marks, bounds_marks, set_marks};

use crate::marks::write_symbol;
use crate::tokens::write_token;
use fzn_lex::What;
use fzn_syntax::{Bounds, Number, Sequence};
use std::alloc::AllocError;

#[tactic(auto, using(crate::proofs::Texts::marked))]
pub(crate) fn write_number(out: &mut Vec<u8>, number: &Number) -> Result<(), AllocError>
    ensures { OnOk result (out.new.items ≡ out.old.items ++ text_of (number_marks number.now)) }
{
    match number {
        Number::Int(value) => write_token(out, What::Int(*value), b""),
        Number::Float(text) => write_token(out, What::Float, text.as_bytes()),
    }
}

#[tactic(auto, using(crate::proofs::Texts::marked))]
pub(crate) fn write_bounds(out: &mut Vec<u8>, bounds: &Bounds) -> Result<(), AllocError>
    ensures { OnOk result (out.new.items ≡ out.old.items ++ text_of (bounds_marks bounds.now)) }
{
    write_number(out, &bounds.lower)?;
    write_symbol(out, What::DotDot)?;
    write_number(out, &bounds.upper)
}

fn write_other_numbers(out: &mut Vec<u8>, numbers: &[Number]) -> Result<(), AllocError>
    ensures { OnOk result (out.new.items ≡ out.old.items ++ text_of (others number_marks numbers.now)) }
{
    for number in numbers {
        write_symbol(out, What::Comma)?;
        write_number(out, number)?;
    }
    Ok(())
}

#[tactic(auto, using(crate::proofs::Texts::marked))]
fn write_numbers(out: &mut Vec<u8>, numbers: &[Number]) -> Result<(), AllocError>
    ensures { OnOk result (out.new.items ≡ out.old.items ++ text_of (listed number_marks numbers.now)) }
{
    match numbers {
        [] => Ok(()),
        [first, rest @ ..] => {
            write_number(out, first)?;
            write_other_numbers(out, rest)
        }
    }
}

#[tactic(auto, using(crate::proofs::Texts::marked))]
pub(crate) fn write_set(out: &mut Vec<u8>, numbers: &Sequence<Number>) -> Result<(), AllocError>
    ensures { OnOk result (out.new.items ≡ out.old.items ++ text_of (set_marks numbers.now)) }
{
    write_symbol(out, What::LeftBrace)?;
    write_numbers(out, numbers.as_slice())?;
    write_symbol(out, What::RightBrace)
}
