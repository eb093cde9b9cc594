//! Why there is no model.
use std::alloc::{AllocError, AllocFailed};
use thiserror::Error;

/// Why there is no model.
#[derive(Clone, Copy, Debug, PartialEq, Eq, Drop, Error)]
pub enum ResolveError {
    #[error("not built")]
    NotBuilt,
    #[error("out of memory")]
    Memory,
}

impl From<AllocError> for ResolveError {
    ghost use Rattle.std.specs.Prelude.{◌≡◌};
    ghost use Rattle.fzn_model.specs.declared.error.ResolveError.TheVariants.{Memory};

    ghost from_gives = { λ _ e. e ≡ Memory };

    fn from(_error: AllocError) -> ResolveError {
        ResolveError::Memory
    }
}

impl<T: Drop> From<AllocFailed<T>> for ResolveError {
    ghost use Rattle.std.specs.Prelude.{◌≡◌};
    ghost use Rattle.fzn_model.specs.declared.error.ResolveError.TheVariants.{Memory};

    ghost from_gives = { λ _ e. e ≡ Memory };

    fn from(_error: AllocFailed<T>) -> ResolveError {
        ResolveError::Memory
    }
}
