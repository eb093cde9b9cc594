//! Which variables nothing defines, and where each stands among them.
ghost use Rattle.std.specs.Prelude.{◌≡◌, ◌≤◌, ◌<◌, ◌^◌, ◌++◌, length, IfOk};
ghost use Rattle.dom_network.specs.Free.{free_of};
ghost use Rattle.dom_network.specs.Place.{free_here, place_behind, places_of};

use dom_core::VarId;
use std::alloc::{AllocError, Global};

/// The variables without a definer in order, and for each variable its place among them.
pub(crate) fn free_and_places(
    alloc: Global,
    definers: &[Option<usize>],
) -> Result<(Vec<VarId>, Vec<Option<usize>>), AllocError>
    requires { length definers.now ≤ 100000 }
    ensures free { IfOk result (λ r. r.0.items ≡ free_of definers.now) }
    ensures places { IfOk result (λ r. r.1.items ≡ places_of definers.now) }
{
    let mut free = Vec::new(alloc);
    let mut places = Vec::new(alloc);
    for (var, definer) in definers.iter().enumerate() {
        places.push(place_behind(free.len(), *definer))?;
        push_free(&mut free, var, *definer)?;
    }
    Ok((free, places))
}

/// The place of a variable with this definer, where so many free ones stand before it.
fn place_behind(count: usize, definer: Option<usize>) -> Option<usize>
    ensures { result ≡ place_behind count definer }
{
    match definer {
        None => Some(count),
        Some(_) => None,
    }
}

/// Adds the variable where it has no definer.
fn push_free(free: &mut Vec<VarId>, var: usize, definer: Option<usize>) -> Result<(), AllocError>
    requires { var < 2 ^ 32 }
    ensures { IfOk result (λ _. free.new.items ≡ free.old.items ++ free_here var definer) }
{
    if definer.is_none() {
        free.push(VarId(var as u32))?;
    }
    Ok(())
}
