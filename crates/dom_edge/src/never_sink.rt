use crate::buffer::Buffer;
use crate::failed::Failed;
use crate::sink::Sink;
use std::alloc::{AllocError, Global};

/// A sink in memory, none of whose writes fails.
#[derive(Drop)]
pub struct NeverSink {
    buffer: Buffer,
}

impl NeverSink {
    ghost use Rattle.std.specs.Prelude.{◌≡◌, [], Some};

    /// A sink to which nothing was written.
    pub fn new(alloc: Global) -> Self
        ensures bytes { ⟦<NeverSink as Sink>⟧.bytes result ≡ Some [] }
        ensures spare { ⟦<NeverSink as Sink>⟧.spare result ≡ 0 }
    {
        NeverSink {
            buffer: Buffer::new(alloc),
        }
    }

    /// What was written so far.
    pub fn as_slice(&self) -> &[u8]
        ensures { ⟦<NeverSink as Sink>⟧.bytes self.now ≡ Some result.now }
    {
        self.buffer.text.as_slice()
    }
}

impl Sink for NeverSink {
    ghost use Rattle.std.specs.Prelude.{Some};

    ghost bytes = { λ s. Some s.buffer.text.items };

    ghost spare = { λ s. s.buffer.spare };

    ghost faults = { λ _. 0 };

    fn reserve(&mut self, more: usize) -> Result<(), AllocError> {
        self.buffer.reserve(more)
    }

    fn write(&mut self, piece: &[u8]) -> Result<usize, Failed> {
        self.buffer.add(piece);
        Ok(piece.len())
    }
}
