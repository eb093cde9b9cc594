//! Predicates.

ghost use Rattle.std.specs.Prelude.{◌≡◌, ◌++◌, OnOk};
ghost use Rattle.fzn_print.specs.Marks.{text_of, each};
ghost use Rattle.fzn_print.specs.Canonical.{predicate_marks};

use crate::marks::{write_end, write_name, write_space};
use crate::words::write_body;
use fzn_syntax::Predicate;
use std::alloc::AllocError;

#[tactic(auto, using(crate::proofs::Texts::marked))]
fn write_predicate(out: &mut Vec<u8>, predicate: &Predicate) -> Result<(), AllocError>
    ensures { OnOk result (out.new.items ≡ out.old.items ++ text_of (predicate_marks predicate.now)) }
{
    write_name(out, b"predicate")?;
    write_space(out)?;
    write_name(out, predicate.name.name.as_bytes())?;
    write_body(out, predicate.body.as_slice())?;
    write_end(out)
}

pub(crate) fn write_predicates(
    out: &mut Vec<u8>,
    predicates: &[Predicate],
) -> Result<(), AllocError>
    ensures { OnOk result (out.new.items ≡ out.old.items ++ text_of (each predicate_marks predicates.now)) }
{
    for predicate in predicates {
        write_predicate(out, predicate)?;
    }
    Ok(())
}
