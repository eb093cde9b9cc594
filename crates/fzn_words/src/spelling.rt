//! The bytes of a token.
ghost use Rattle.std.specs.Prelude.{◌≡◌, IfOk};

use std::alloc::{AllocError, Global};
use std::marker::Model;

/// The bytes of a token, as they are written.
#[derive(Debug, Drop)]
pub struct Spelling {
    bytes: Vec<u8>,
}

impl Model for Spelling {
    ghost use Rattle.std.specs.Prelude.{List, ℕ};

    ghost Value = { List ℕ };

    ghost view = { λ v. v.bytes.items };
}

impl Spelling {
    pub fn from_slice(alloc: Global, bytes: &[u8]) -> Result<Spelling, AllocError>
        ensures { IfOk result (λ v. v ≡ bytes.now) }
    {
        Ok(Spelling {
            bytes: bytes.to_vec(alloc)?,
        })
    }

    pub fn as_bytes(&self) -> &[u8]
        ensures { result.now ≡ self.now }
    {
        self.bytes.as_slice()
    }
}
