//! Why a reader stopped.
ghost use Rattle.std.specs.Prelude.{◌≡◌};
ghost use Rattle.reading.specs.declared.error.ParseError.TheVariants.{Memory};

use std::alloc::{AllocError, AllocFailed};

/// Why a reader stopped.
#[derive(Clone, Copy, Debug, PartialEq, Eq, Drop)]
pub enum ParseError {
    /// So many symbols are left, the first that is wrong among them; none where the end is wrong.
    Stuck(usize),
    Memory,
}

impl From<AllocError> for ParseError {
    ghost from_gives = { λ _ e. e ≡ Memory };

    fn from(_e: AllocError) -> ParseError {
        ParseError::Memory
    }
}

impl<T: Drop> From<AllocFailed<T>> for ParseError {
    ghost from_gives = { λ _ e. e ≡ Memory };

    fn from(_e: AllocFailed<T>) -> ParseError {
        ParseError::from(AllocError)
    }
}
