ghost use Rattle.std.specs.Prelude.{◌≡◌, ◌≤◌, length, IfOk};

use crate::failed::Failed;
use crate::folder::Folder;
use std::io::{Read, Seek, SeekFrom};
use std::rt::Files;
use std::{fs, io};

/// The folder in which the program runs. Names are paths.
#[derive(Drop)]
pub struct DiskFolder<'a, R> {
    rt: &'a R,
    read_faults: u64,
}

impl<'a, R: Files> DiskFolder<'a, R> {
    /// The folder of this runtime, with no failed read yet.
    pub fn new(rt: &'a R) -> Self
        ensures { result.read_faults ≡ 0 }
    {
        DiskFolder { rt, read_faults: 0 }
    }
}

fn read_file<R: Files>(rt: &R, name: &str, at: u64, buf: &mut [u8]) -> io::Result<usize>
    ensures { IfOk result (λ n. n ≤ length buf.new) }
{
    let mut file = fs::open(rt, name)?;
    file.seek(SeekFrom::Start(at))?;
    file.read(buf)
}

impl<R: Files> Folder for DiskFolder<'_, R> {
    ghost use Rattle.std.specs.Prelude.{None};

    ghost bytes = { λ _ _. None };

    ghost spare = { λ _ _. 0 };

    ghost read_faults = { λ s. s.read_faults };

    ghost write_faults = { λ _. 0 };

    fn read_at(&mut self, name: &str, at: u64, buf: &mut [u8]) -> Result<usize, Failed> {
        match read_file(self.rt, name, at, buf) {
            Ok(n) => Ok(n),
            Err(_) => {
                self.read_faults = self.read_faults.saturating_add(1);
                Err(Failed)
            }
        }
    }
}
