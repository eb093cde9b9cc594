//! The definers that stay.
ghost use Rattle.std.specs.Prelude.{◌≡◌, length, map, IfOk};
ghost use Rattle.dom_definers.specs.Hulls.{AreFitDefiners, IsFitDefiner, kept_definer};

use crate::hulls::Hulls;
use crate::posted::Posted;
use kind_law::Define;
use std::alloc::{AllocError, Global};

/// For each variable its definer, unless that has no value somewhere over its inputs' hulls.
pub fn kept_definers(
    alloc: Global,
    constraints: &[Posted],
    definers: &[Option<usize>],
    hulls: &Hulls,
) -> Result<Vec<Option<usize>>, AllocError>
    requires { AreFitDefiners (length hulls.now) constraints.now definers.now }
    ensures { IfOk result (λ d. d.items ≡ map (kept_definer constraints.now hulls.now) definers.now) }
{
    let mut kept = Vec::new(alloc);
    for definer in definers {
        kept.push(kept_definer(constraints, *definer, hulls))?;
    }
    Ok(kept)
}

fn kept_definer(constraints: &[Posted], definer: Option<usize>, hulls: &Hulls) -> Option<usize>
    requires { IsFitDefiner (length hulls.now) constraints.now definer }
    ensures { result ≡ kept_definer constraints.now hulls.now definer }
{
    let place = definer?;
    let posted = constraints.get(place)?;
    if posted.kind.is_defined_over(hulls) {
        Some(place)
    } else {
        None
    }
}
