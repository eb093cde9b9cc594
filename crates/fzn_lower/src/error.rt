//! The first fault of items.
use dom_core::VarId;
use dom_limits::Counted;
use dom_model::BuildError;
use std::alloc::{AllocError, AllocFailed};
use thiserror::Error;

/// The first fault of items, in the order in which faults are looked for.
#[derive(Clone, Copy, Debug, PartialEq, Eq, Drop, Error)]
pub enum ModelError {
    #[error("too many of something: {count}")]
    TooMany { what: Counted, count: u64 },
    #[error("name declared twice at byte {at}")]
    NameTwice { at: u64 },
    #[error("unknown name at byte {at}")]
    UnknownName { at: u64 },
    #[error("unknown constraint at byte {at}")]
    UnknownConstraint { at: u64 },
    #[error("wrong arguments at byte {at}")]
    WrongArguments { at: u64 },
    #[error("float or set variable at byte {at}")]
    FloatOrSet { at: u64 },
    /// The first variable whose definition depends on it.
    #[error("cyclic definition")]
    CyclicDefinition { var: VarId },
    /// The first variable without a domain: its declaration allows no value.
    #[error("empty domain")]
    EmptyDomain { var: VarId },
    /// Likewise: nothing defines it, and its declaration allows every integer.
    #[error("unbounded variable")]
    Unbounded { var: VarId },
    /// Likewise: nothing defines it, and it has too many values.
    #[error("domain has {count} values")]
    DomainTooLarge { var: VarId, count: u64 },
    /// The number, from 1, of the first constraint whose sum or product can be too large, or that gives its variable too large a value.
    #[error("constraint {constraint} too wide")]
    TooWide { constraint: u32 },
    /// Nothing is wrong up to where items are put together, and one of the constraints is not built yet.
    #[error("not built")]
    NotBuilt,
    #[error("out of memory")]
    Memory,
}

impl From<AllocError> for ModelError {
    ghost use Rattle.std.specs.Prelude.{◌≡◌};
    ghost use Rattle.fzn_lower.specs.declared.error.ModelError.TheVariants.{Memory};

    ghost from_gives = { λ _ e. e ≡ Memory };

    fn from(_error: AllocError) -> ModelError {
        ModelError::Memory
    }
}

impl<T: Drop> From<AllocFailed<T>> for ModelError {
    ghost use Rattle.std.specs.Prelude.{◌≡◌};
    ghost use Rattle.fzn_lower.specs.declared.error.ModelError.TheVariants.{Memory};

    ghost from_gives = { λ _ e. e ≡ Memory };

    fn from(_error: AllocFailed<T>) -> ModelError {
        ModelError::Memory
    }
}
