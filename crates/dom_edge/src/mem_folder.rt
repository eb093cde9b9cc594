use crate::call_plan::CallPlan;
use crate::copying::copy_part;
use crate::failed::Failed;
use crate::folder::Folder;
use crate::stored_files::StoredFiles;
use std::alloc::{AllocError, Global};

/// A folder in memory, whose reads can be made to fail by their numbers.
#[derive(Drop)]
pub struct MemFolder {
    files: StoredFiles,
    reads: CallPlan,
}

impl MemFolder {
    ghost use Rattle.std.specs.Prelude.{◌≡◌, ◌≢◌, ◌∷◌, ◌++◌, [], ℕ, List, Some, None, OnOk, OnErr};
    ghost use Rattle.dom_edge.specs.File.{PutsFile};
    ghost use Rattle.dom_edge.specs.Planned.{failing_reads};

    /// A folder that has no file.
    pub fn new(alloc: Global) -> Self
        ensures files { (name : List ℕ) → ⟦<MemFolder as Folder>⟧.bytes result name ≡ Some None }
        ensures planned { failing_reads result ≡ [] }
        ensures faults { ⟦<MemFolder as Folder>⟧.read_faults result ≡ 0 }
    {
        MemFolder {
            files: StoredFiles::new(alloc),
            reads: CallPlan::new(alloc),
        }
    }

    /// Puts a file into the folder, in place of one of the same name.
    pub fn insert(&mut self, name: &str, bytes: &[u8]) -> Result<(), AllocError>
        ensures ok { OnOk result (PutsFile (⟦<MemFolder as Folder>⟧.bytes self.old)
            (⟦<MemFolder as Folder>⟧.bytes self.new) name.now bytes.now) }
        ensures err { OnErr result (⟦<MemFolder as Folder>⟧.bytes self.new
            ≡ ⟦<MemFolder as Folder>⟧.bytes self.old) }
        ensures planned { failing_reads self.new ≡ failing_reads self.old }
        ensures faults { ⟦<MemFolder as Folder>⟧.read_faults self.new
            ≡ ⟦<MemFolder as Folder>⟧.read_faults self.old }
    {
        self.files.insert(name, bytes)
    }

    /// Makes the read of this number fail. The first read of the folder has the number 1.
    pub fn fail_read(&mut self, call: u64) -> Result<(), AllocError>
        ensures planned { OnOk result (failing_reads self.new ≡ failing_reads self.old ++ call ∷ []) }
        ensures unplanned { OnErr result (failing_reads self.new ≡ failing_reads self.old) }
        ensures files { ⟦<MemFolder as Folder>⟧.bytes self.new
            ≡ ⟦<MemFolder as Folder>⟧.bytes self.old }
        ensures faults { ⟦<MemFolder as Folder>⟧.read_faults self.new
            ≡ ⟦<MemFolder as Folder>⟧.read_faults self.old }
    {
        self.reads.fail_at(call)
    }
}

impl Folder for MemFolder {
    ghost use Rattle.std.specs.Prelude.{ℕ, List, Some};
    ghost use Rattle.dom_edge.specs.Stored.{file_named};

    ghost bytes = { λ s name. Some (file_named s.files.files name) };

    ghost spare = { λ _ _. 0 };

    ghost read_faults = { λ s. s.reads.faults };

    ghost write_faults = { λ _. 0 };

    fn read_at(&mut self, name: &str, at: u64, buf: &mut [u8]) -> Result<usize, Failed> {
        if !self.reads.next_fails() {
            if let Some(file) = self.files.get(name) {
                return Ok(copy_part(file, at, buf));
            }
        }
        self.reads.count_fault();
        Err(Failed)
    }
}
