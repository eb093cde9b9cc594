//! Why tokens are no items.
ghost use Rattle.std.specs.Prelude.{◌≡◌};

use thiserror::Error;

#[derive(Clone, Copy, Debug, PartialEq, Eq, Drop, Error)]
pub enum SyntaxError {
    /// The token at this byte, or the end of the text there.
    #[error("unexpected token at byte {at}")]
    Unexpected { at: u64 },
    #[error("no memory")]
    Memory,
}
