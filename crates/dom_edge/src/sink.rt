ghost use Rattle.std.specs.Prelude.{◌≡◌, ℕ, ◌+◌, ◌<◌, ◌≤◌, List, length, take, Option, IfOk, OnOk, OnErr};
ghost use Rattle.dom_edge.specs.Causes.{HasCause};
ghost use Rattle.dom_edge.specs.Text.{Gains};

use crate::failed::Failed;
use std::alloc::AllocError;

/// A place to write bytes, one after another.
pub trait Sink {
    /// The bytes so far, where they are told.
    ghost bytes: { Self → Option (List ℕ) };

    /// How many bytes may be written with no more room.
    ghost spare: { Self → ℕ };

    /// How many writes have failed, up to the end of 64 bits.
    ghost faults: { Self → ℕ };

    /// Makes room for so many bytes.
    fn reserve(&mut self, more: usize) -> Result<(), AllocError>
        ensures room { OnOk result (more ≤ spare self.new) }
        ensures kept { spare self.old ≤ spare self.new }
        ensures text { bytes self.new ≡ bytes self.old }
        ensures cause { faults self.new ≡ faults self.old };

    /// Writes the first bytes of a piece, and says how many.
    fn write(&mut self, piece: &[u8]) -> Result<usize, Failed>
        requires some { 0 < length piece.now }
        requires room { length piece.now ≤ spare self.old }
        ensures some { IfOk result (λ n. 0 < n) }
        ensures within { IfOk result (λ n. n ≤ length piece.now) }
        ensures gains { IfOk result (λ n. Gains (bytes self.old) (bytes self.new) (take n piece.now)) }
        ensures room { IfOk result (λ n. spare self.new + n ≡ spare self.old) }
        ensures failed { OnErr result (bytes self.new ≡ bytes self.old) }
        ensures left { OnErr result (spare self.new ≡ spare self.old) }
        ensures cause { HasCause (faults self.old) (faults self.new) result };
}
