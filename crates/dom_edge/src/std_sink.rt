ghost use Rattle.std.specs.Prelude.{◌≡◌};

use crate::failed::Failed;
use crate::sink::Sink;
use std::alloc::AllocError;
use std::io::Write;

/// A standard stream.
#[derive(Drop)]
pub struct StdSink<W> {
    stream: W,
    spare: usize,
    faults: u64,
}

impl<W: Write> StdSink<W> {
    /// The sink over a stream, with no failed write yet.
    pub fn new(stream: W) -> Self
        ensures stream { result.stream ≡ stream }
        ensures spare { result.spare ≡ 0 }
        ensures faults { result.faults ≡ 0 }
    {
        StdSink {
            stream,
            spare: 0,
            faults: 0,
        }
    }
}

impl<W: Write> Sink for StdSink<W> {
    ghost use Rattle.std.specs.Prelude.{◌≡◌, ◌+◌, ◌<◌, ◌≤◌, length, None, IfOk, OnErr};
    ghost use Rattle.std.specs.Io.KnownBytes.{WriteAppends};
    ghost use Rattle.dom_edge.specs.Causes.{HasCause};

    ghost bytes = { λ _. None };

    ghost spare = { λ s. s.spare };

    ghost faults = { λ s. s.faults };

    fn reserve(&mut self, more: usize) -> Result<(), AllocError> {
        self.spare = self.spare.max(more);
        Ok(())
    }

    fn write(&mut self, piece: &[u8]) -> Result<usize, Failed>
        requires some { 0 < length piece.now }
        requires room { length piece.now ≤ self.old.spare }
        ensures some { IfOk result (λ n. 0 < n) }
        ensures within { IfOk result (λ n. n ≤ length piece.now) }
        ensures stream { WriteAppends (W.contents self.old.stream) (W.contents self.new.stream)
            result piece.now }
        ensures room { IfOk result (λ n. self.new.spare + n ≡ self.old.spare) }
        ensures left { OnErr result (self.new.spare ≡ self.old.spare) }
        ensures cause { HasCause self.old.faults self.new.faults result }
    {
        match self.stream.write(piece) {
            Ok(n) if n > 0 => {
                self.spare -= n;
                Ok(n)
            }
            _ => {
                self.faults = self.faults.saturating_add(1);
                Err(Failed)
            }
        }
    }
}
