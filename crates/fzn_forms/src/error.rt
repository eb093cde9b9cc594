//! Why there is no kind.
use std::alloc::AllocError;
use thiserror::Error;

/// Why there is no kind.
#[derive(Clone, Copy, Debug, PartialEq, Eq, Drop, Error)]
pub enum FormError {
    #[error("not built")]
    NotBuilt,
    #[error("out of memory")]
    Memory,
}

impl From<AllocError> for FormError {
    ghost use Rattle.std.specs.Prelude.{◌≡◌};
    ghost use Rattle.fzn_forms.specs.declared.error.FormError.TheVariants.{Memory};

    ghost from_gives = { λ _ e. e ≡ Memory };

    fn from(_error: AllocError) -> FormError {
        FormError::Memory
    }
}
