//! The constraint that defines each variable.
ghost use Rattle.std.specs.Prelude.{◌≡◌, ◌<◌, length, IfOk};
ghost use Rattle.dom_definers.specs.Definers.{AreDefiners, DefineBelow, IsBelowSome, with_definer};

use crate::posted::Posted;
use dom_core::VarId;
use std::alloc::{AllocError, Global};

/// For each of so many variables the place of the first constraint that is to define it.
pub fn definers_of(
    alloc: Global,
    count: usize,
    constraints: &[Posted],
) -> Result<Vec<Option<usize>>, AllocError>
    requires { DefineBelow count constraints.now }
    ensures { IfOk result (λ d. AreDefiners constraints.now count d.items) }
{
    let mut definers = vec![in alloc; None; count]?;
    let mut place = constraints.len();
    while 0 < place {
        place -= 1;
        put(&mut definers, constraints[place].defines, place);
    }
    Ok(definers)
}

fn put(definers: &mut Vec<Option<usize>>, defines: Option<VarId>, place: usize)
    requires { IsBelowSome (length definers.old.items) defines }
    ensures { definers.new.items ≡ with_definer definers.old.items defines place }
{
    match defines {
        None => {}
        Some(var) => definers[var.0 as usize] = Some(place),
    }
}
