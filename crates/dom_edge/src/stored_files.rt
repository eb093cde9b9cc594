ghost use Rattle.std.specs.Prelude.{◌≡◌, ◌≢◌, ℕ, List, Some, None, OnOk, OnErr};
ghost use Rattle.std.specs.Option.{option_map};
ghost use Rattle.dom_edge.specs.Stored.{file_named};

use std::alloc::{AllocError, Global};
use std::collections::BTreeMap;

/// Files in memory by name.
#[derive(Drop)]
pub(crate) struct StoredFiles {
    pub(crate) files: BTreeMap<String, Vec<u8>>,
    alloc: Global,
}

impl StoredFiles {
    pub(crate) fn new(alloc: Global) -> Self
        ensures { (name : List ℕ) → file_named result.files name ≡ None }
    {
        StoredFiles {
            files: BTreeMap::new(alloc),
            alloc,
        }
    }

    pub(crate) fn get(&self, name: &str) -> Option<&[u8]>
        ensures { option_map (λ s. s.now) result ≡ file_named self.now.files name.now }
    {
        match self.files.get(name) {
            Some(bytes) => Some(bytes.as_slice()),
            None => None,
        }
    }

    #[tactic(auto, using(std::proofs::lemmas::Map::Text::text_keys))]
    pub(crate) fn insert(&mut self, name: &str, bytes: &[u8]) -> Result<(), AllocError>
        ensures put { OnOk result (file_named self.new.files name.now ≡ Some bytes.now) }
        ensures others { OnOk result ((other : List ℕ) → other ≢ name.now
            → file_named self.new.files other ≡ file_named self.old.files other) }
        ensures err { OnErr result (file_named self.new.files ≡ file_named self.old.files) }
    {
        let key = String::from_str(self.alloc, name)?;
        let copy = Vec::from_slice(self.alloc, bytes)?;
        self.files.insert(key, copy)?;
        Ok(())
    }
}
