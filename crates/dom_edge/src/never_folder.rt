use crate::copying::copy_part;
use crate::failed::Failed;
use crate::folder::Folder;
use crate::stored_files::StoredFiles;
use std::alloc::{AllocError, Global};

/// A folder in memory where every name has a file, empty at first, and no read fails.
#[derive(Drop)]
pub struct NeverFolder {
    files: StoredFiles,
}

impl NeverFolder {
    ghost use Rattle.std.specs.Prelude.{◌≡◌, ℕ, List, [], Some, OnOk, OnErr};
    ghost use Rattle.dom_edge.specs.File.{PutsFile};

    /// A folder where every file is empty.
    pub fn new(alloc: Global) -> Self
        ensures { (name : List ℕ) → ⟦<NeverFolder as Folder>⟧.bytes result name ≡ Some (Some []) }
    {
        NeverFolder {
            files: StoredFiles::new(alloc),
        }
    }

    /// Gives the file of this name these bytes.
    pub fn insert(&mut self, name: &str, bytes: &[u8]) -> Result<(), AllocError>
        ensures ok { OnOk result (PutsFile (⟦<NeverFolder as Folder>⟧.bytes self.old)
            (⟦<NeverFolder as Folder>⟧.bytes self.new) name.now bytes.now) }
        ensures err { OnErr result (⟦<NeverFolder as Folder>⟧.bytes self.new
            ≡ ⟦<NeverFolder as Folder>⟧.bytes self.old) }
    {
        self.files.insert(name, bytes)
    }
}

impl Folder for NeverFolder {
    ghost use Rattle.std.specs.Prelude.{ℕ, List, Some};
    ghost use Rattle.dom_edge.specs.Stored.{file_or_empty};

    ghost bytes = { λ s name. Some (Some (file_or_empty s.files.files name)) };

    ghost spare = { λ _ _. 0 };

    ghost read_faults = { λ _. 0 };

    ghost write_faults = { λ _. 0 };

    fn read_at(&mut self, name: &str, at: u64, buf: &mut [u8]) -> Result<usize, Failed> {
        match self.files.get(name) {
            Some(file) => Ok(copy_part(file, at, buf)),
            None => Ok(0),
        }
    }
}
