//! What is wrong with the names of a text.
use std::alloc::{AllocError, AllocFailed};
use thiserror::Error;

/// The first fault among the names of a text.
#[derive(Clone, Copy, Debug, PartialEq, Eq, Drop, Error)]
pub enum NameError {
    #[error("name declared twice at byte {at}")]
    NameTwice { at: u64 },
    #[error("unknown name at byte {at}")]
    UnknownName { at: u64 },
    #[error("out of memory")]
    Memory,
}

impl From<AllocError> for NameError {
    ghost use Rattle.std.specs.Prelude.{◌≡◌};
    ghost use Rattle.fzn_symbols.specs.declared.error.NameError.TheVariants.{Memory};

    ghost from_gives = { λ _ e. e ≡ Memory };

    fn from(_error: AllocError) -> NameError {
        NameError::Memory
    }
}

impl<T: Drop> From<AllocFailed<T>> for NameError {
    ghost use Rattle.std.specs.Prelude.{◌≡◌};
    ghost use Rattle.fzn_symbols.specs.declared.error.NameError.TheVariants.{Memory};

    ghost from_gives = { λ _ e. e ≡ Memory };

    fn from(_error: AllocFailed<T>) -> NameError {
        NameError::Memory
    }
}
