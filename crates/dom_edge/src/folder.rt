ghost use Rattle.std.specs.Prelude.{◌≡◌, ℕ, ◌<◌, ◌≤◌, List, length, Option, IfOk, IsErr};
ghost use Rattle.dom_edge.specs.Causes.{HasCause};
ghost use Rattle.dom_edge.specs.File.{IsMissing, Holds, GivesPart};

use crate::failed::Failed;

/// Files by name.
pub trait Folder {
    /// What is told of each file by its name: nothing, or that it is missing, or its bytes.
    ghost bytes: { Self → List ℕ → Option (Option (List ℕ)) };

    /// How many bytes may be added to a file of each name with no more room.
    ghost spare: { Self → List ℕ → ℕ };

    /// How many reads have failed, up to the end of 64 bits.
    ghost read_faults: { Self → ℕ };

    /// How many writes have failed, up to the end of 64 bits.
    ghost write_faults: { Self → ℕ };

    /// Reads some bytes of a file from a place on, or none where nothing stands there.
    fn read_at(&mut self, name: &str, at: u64, buf: &mut [u8]) -> Result<usize, Failed>
        requires { 0 < length buf.old }
        ensures within { IfOk result (λ n. n ≤ length buf.new) }
        ensures part { IfOk result (λ n. (file : List ℕ) → Holds (bytes self.old name.now) file
            → GivesPart file at n buf.new) }
        ensures missing { IsMissing (bytes self.old name.now) → IsErr result }
        ensures cause { HasCause (read_faults self.old) (read_faults self.new) result }
        ensures files { bytes self.new ≡ bytes self.old }
        ensures room { spare self.new ≡ spare self.old }
        ensures writes { write_faults self.new ≡ write_faults self.old };
}
