//! Why what was put together is no model.
use dom_core::VarId;
use dom_limits::Counted;
use std::alloc::{AllocError, AllocFailed};
use thiserror::Error;

/// The first fault of what was put together, in the order in which faults are looked for.
#[derive(Clone, Copy, Debug, PartialEq, Eq, Drop, Error)]
pub enum BuildError {
    /// The first variable whose definition depends on it.
    #[error("cyclic definition")]
    CyclicDefinition { var: VarId },
    /// The first variable without a domain: its declaration allows no value.
    #[error("empty domain")]
    EmptyDomain { var: VarId },
    /// Likewise: nothing defines it, and its declaration allows every integer.
    #[error("unbounded variable")]
    Unbounded { var: VarId },
    /// Likewise: nothing defines it, and it has too many values.
    #[error("domain has {count} values")]
    DomainTooLarge { var: VarId, count: u64 },
    /// Too many variables that nothing defines.
    #[error("too many of something: {count}")]
    TooMany { what: Counted, count: u64 },
    /// The number, from 1, of the first constraint whose sum or product can be too large, or that gives its variable too large a value.
    #[error("constraint {constraint} too wide")]
    TooWide { constraint: u32 },
    #[error("out of memory")]
    Memory,
}

impl From<AllocError> for BuildError {
    ghost use Rattle.std.specs.Prelude.{◌≡◌};
    ghost use Rattle.dom_model.specs.declared.error.BuildError.TheVariants.{Memory};

    ghost from_gives = { λ _ e. e ≡ Memory };

    fn from(_error: AllocError) -> BuildError {
        BuildError::Memory
    }
}

impl<T: Drop> From<AllocFailed<T>> for BuildError {
    ghost use Rattle.std.specs.Prelude.{◌≡◌};
    ghost use Rattle.dom_model.specs.declared.error.BuildError.TheVariants.{Memory};

    ghost from_gives = { λ _ e. e ≡ Memory };

    fn from(_error: AllocFailed<T>) -> BuildError {
        BuildError::Memory
    }
}
