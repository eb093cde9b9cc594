//! All items.

ghost use Rattle.std.specs.Prelude.{◌≡◌, ◌++◌, OnOk, IfOk};
ghost use Rattle.fzn_print.specs.Marks.{text_of};
ghost use Rattle.fzn_print.specs.Canonical.{items_marks};
ghost use Rattle.fzn_print.specs.ReadBack.{ReadsBack};

use crate::constraints::write_constraints;
use crate::declarations::write_declarations;
use crate::predicates::write_predicates;
use crate::solving::write_solve;
use fzn_syntax::Items;
use std::alloc::{AllocError, Global};

#[tactic(auto, using(crate::proofs::Texts::marked))]
fn write_items(out: &mut Vec<u8>, items: &Items) -> Result<(), AllocError>
    ensures { OnOk result (out.new.items ≡ out.old.items ++ text_of (items_marks items.now)) }
{
    write_predicates(out, items.predicates.as_slice())?;
    write_declarations(out, items.declarations.as_slice())?;
    write_constraints(out, items.constraints.as_slice())?;
    write_solve(out, &items.solve)
}

/// The canonical text of the items: one item a line.
pub fn print(alloc: Global, items: &Items) -> Result<Vec<u8>, AllocError>
    ensures text { IfOk result (λ v. v.items ≡ text_of (items_marks items.now)) }
    ensures reads_back { IfOk result (λ v. ReadsBack items.now v.items) }
{
    let mut out = Vec::new(alloc);
    write_items(&mut out, items)?;
    Ok(out)
}
