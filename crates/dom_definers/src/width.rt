//! Constraints that are too wide.
ghost use Rattle.std.specs.Prelude.{◌≡◌, ◌<◌, length};
ghost use Rattle.dom_definers.specs.Definers.{DefineBelow, IsBelowSome};
ghost use Rattle.dom_definers.specs.Width.{AreFitFrom, IsFitConstraint, if_defined, is_lost, is_too_wide, others_known, wide_from};
ghost use Rattle.kind_law.specs.Laws.{AllBelow};

use crate::hulls::Hulls;
use crate::posted::Posted;
use any_kind::AnyKind;
use dom_core::VarId;
use kind_law::Kind;

/// The place of the first constraint whose sum or product over hulls is above 2 ^ 100, or whose variable has no hull though all that
/// it reads have one.
pub fn first_too_wide(
    constraints: &[Posted],
    definers: &[Option<usize>],
    hulls: &Hulls,
) -> Option<usize>
    requires whole { length definers.now ≡ length hulls.now }
    requires below { DefineBelow (length hulls.now) constraints.now }
    requires fit { AreFitFrom (length hulls.now) 0 constraints.now definers.now }
    ensures { result ≡ wide_from 0 constraints.now definers.now hulls.now }
{
    for (place, posted) in constraints.iter().enumerate() {
        let defined = if_defined(definers, posted.defines, place);
        if is_too_wide(&posted.kind, defined, hulls) {
            return Some(place);
        }
    }
    None
}

/// The variable, where this place is that of its definer.
pub(crate) fn if_defined(
    definers: &[Option<usize>],
    defines: Option<VarId>,
    place: usize,
) -> Option<VarId>
    requires { IsBelowSome (length definers.now) defines }
    ensures { result ≡ if_defined definers.now defines place }
{
    let var = defines?;
    if definers[var.0 as usize]? == place {
        Some(var)
    } else {
        None
    }
}

fn is_too_wide(kind: &AnyKind, defined: Option<VarId>, hulls: &Hulls) -> bool
    requires fit { IsFitConstraint (length hulls.now) kind.now defined }
    requires below { IsBelowSome (length hulls.now) defined }
    ensures { result ≡ is_too_wide kind.now defined hulls.now }
{
    let _count = hulls.len();
    if !others_known(kind.vars(), defined, hulls) {
        return false;
    }
    if kind.is_too_wide(hulls) {
        return true;
    }
    is_lost(defined, hulls)
}

fn others_known(vars: &[VarId], defined: Option<VarId>, hulls: &Hulls) -> bool
    requires { AllBelow (length hulls.now) vars.now }
    ensures { result ≡ others_known hulls.now defined vars.now }
{
    for var in vars {
        if defined != Some(*var) && hulls.hull(*var).is_none() {
            return false;
        }
    }
    true
}

fn is_lost(defined: Option<VarId>, hulls: &Hulls) -> bool
    requires { IsBelowSome (length hulls.now) defined }
    ensures { result ≡ is_lost hulls.now defined }
{
    match defined {
        None => false,
        Some(var) => hulls.hull(var).is_none(),
    }
}
