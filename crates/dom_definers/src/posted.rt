//! Constraints as they are posted.
use any_kind::AnyKind;
use dom_core::VarId;

/// A constraint, and the variable that it is to define, where it defines one.
#[derive(Drop)]
pub struct Posted {
    pub kind: AnyKind,
    pub defines: Option<VarId>,
}
