use crate::buffer::Buffer;
use crate::call_plan::CallPlan;
use crate::failed::Failed;
use crate::sink::Sink;
use std::alloc::{AllocError, Global};

/// A sink in memory, whose writes can be made to fail by their numbers.
#[derive(Drop)]
pub struct MemSink {
    buffer: Buffer,
    writes: CallPlan,
}

impl MemSink {
    ghost use Rattle.std.specs.Prelude.{◌≡◌, ◌∷◌, ◌++◌, [], Some, OnOk, OnErr};
    ghost use Rattle.dom_edge.specs.Planned.{failing_writes};

    /// A sink to which nothing was written.
    pub fn new(alloc: Global) -> Self
        ensures bytes { ⟦<MemSink as Sink>⟧.bytes result ≡ Some [] }
        ensures spare { ⟦<MemSink as Sink>⟧.spare result ≡ 0 }
        ensures planned { failing_writes result ≡ [] }
        ensures faults { ⟦<MemSink as Sink>⟧.faults result ≡ 0 }
    {
        MemSink {
            buffer: Buffer::new(alloc),
            writes: CallPlan::new(alloc),
        }
    }

    /// What was written so far.
    pub fn as_slice(&self) -> &[u8]
        ensures { ⟦<MemSink as Sink>⟧.bytes self.now ≡ Some result.now }
    {
        self.buffer.text.as_slice()
    }

    /// Makes the write of this number fail. The first write has the number 1.
    pub fn fail_write(&mut self, call: u64) -> Result<(), AllocError>
        ensures planned { OnOk result (failing_writes self.new ≡ failing_writes self.old ++ call ∷ []) }
        ensures unplanned { OnErr result (failing_writes self.new ≡ failing_writes self.old) }
        ensures bytes { ⟦<MemSink as Sink>⟧.bytes self.new ≡ ⟦<MemSink as Sink>⟧.bytes self.old }
        ensures spare { ⟦<MemSink as Sink>⟧.spare self.new ≡ ⟦<MemSink as Sink>⟧.spare self.old }
        ensures faults { ⟦<MemSink as Sink>⟧.faults self.new
            ≡ ⟦<MemSink as Sink>⟧.faults self.old }
    {
        self.writes.fail_at(call)
    }
}

impl Sink for MemSink {
    ghost use Rattle.std.specs.Prelude.{Some};

    ghost bytes = { λ s. Some s.buffer.text.items };

    ghost spare = { λ s. s.buffer.spare };

    ghost faults = { λ s. s.writes.faults };

    fn reserve(&mut self, more: usize) -> Result<(), AllocError> {
        self.buffer.reserve(more)
    }

    fn write(&mut self, piece: &[u8]) -> Result<usize, Failed> {
        if self.writes.next_fails() {
            self.writes.count_fault();
            return Err(Failed);
        }
        self.buffer.add(piece);
        Ok(piece.len())
    }
}
