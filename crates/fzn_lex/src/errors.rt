//! Why a text has no tokens.

ghost use Rattle.std.specs.Prelude.{◌≡◌};
ghost use Rattle.fzn_lex.specs.declared.errors.LexError.TheVariants.{Memory};

use std::alloc::{AllocError, AllocFailed};
use thiserror::Error;

#[derive(Clone, Copy, Debug, PartialEq, Eq, Drop, Error)]
pub enum LexError {
    /// The text has more than 16,777,216 bytes.
    #[error("text too long")]
    TooLong,
    /// No token begins at this byte.
    #[error("bad byte at byte {at}")]
    BadByte { at: u64 },
    /// The integer that begins at this byte is outside -2^62 to 2^62.
    #[error("bad number at byte {at}")]
    BadNumber { at: u64 },
    /// The text in quotes that begins at this byte does not end on its line.
    #[error("open string at byte {at}")]
    OpenString { at: u64 },
    #[error("no memory")]
    Memory,
}

impl From<AllocError> for LexError {
    ghost from_gives = { λ _ e. e ≡ Memory };

    fn from(_e: AllocError) -> LexError {
        LexError::Memory
    }
}

impl<T: Drop> From<AllocFailed<T>> for LexError {
    ghost from_gives = { λ _ e. e ≡ Memory };

    fn from(_e: AllocFailed<T>) -> LexError {
        LexError::Memory
    }
}
