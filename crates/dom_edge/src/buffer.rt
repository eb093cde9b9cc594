ghost use Rattle.std.specs.Prelude.{◌≡◌, ◌+◌, ◌≤◌, [], ◌++◌, length, OnOk, vec_len, vec_capacity};

use std::alloc::{AllocError, Global};

/// Bytes in memory, with room that was made before.
#[derive(Drop)]
pub(crate) struct Buffer {
    pub(crate) text: Vec<u8>,
    pub(crate) spare: usize,
    ghost room: { vec_len text + spare ≤ vec_capacity text },
}

impl Buffer {
    pub(crate) fn new(alloc: Global) -> Self
        ensures text { result.text.items ≡ [] }
        ensures spare { result.spare ≡ 0 }
    {
        Buffer {
            text: Vec::new(alloc),
            spare: 0,
        }
    }

    pub(crate) fn reserve(&mut self, more: usize) -> Result<(), AllocError>
        ensures room { OnOk result (more ≤ self.new.spare) }
        ensures kept { self.old.spare ≤ self.new.spare }
        ensures text { self.new.text.items ≡ self.old.text.items }
    {
        self.text.reserve(more)?;
        self.spare = self.spare.max(more);
        Ok(())
    }

    pub(crate) fn add(&mut self, piece: &[u8])
        requires { length piece.now ≤ self.old.spare }
        ensures text { self.new.text.items ≡ self.old.text.items ++ piece.now }
        ensures spare { self.new.spare + length piece.now ≡ self.old.spare }
    {
        self.spare -= piece.len();
        self.text.extend_from_slice(piece).unwrap();
    }
}
