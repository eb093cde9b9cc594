ghost use Rattle.std.specs.Prelude.{◌≡◌, ◌↔◌, ℕ, ◌+◌, ◌<◌, ◌≤◌, List, false, length, take, IfOk, IsTrue, IsErr, IsErrOf, vec_len};
ghost use Rattle.std.specs.Io.{StartsWith};
ghost use Rattle.dom_edge.specs.Causes.{CountRose};
ghost use Rattle.dom_edge.specs.File.{IsMissing, Holds};

use crate::folder::Folder;
use crate::read_error::ReadError;
use std::alloc::Global;

const PIECE: usize = 65_536;

/// Reads a file to its end, or its first `limit` bytes where it is longer.
pub fn read_whole<F: Folder>(
    alloc: Global,
    folder: &mut F,
    name: &str,
    limit: usize,
) -> Result<Vec<u8>, ReadError>
    ensures read { IfOk result (λ text. (file : List ℕ) → Holds (F.bytes folder.old name.now) file
        → text.items ≡ take limit file) }
    ensures within { IfOk result (λ text. vec_len text ≤ limit) }
    ensures missing { IsMissing (F.bytes folder.old name.now) → 0 < limit → IsErr result }
    ensures fault { IsErrOf result ReadError.Fault
        → CountRose (F.read_faults folder.old) (F.read_faults folder.new) }
    ensures count { F.read_faults folder.old ≤ F.read_faults folder.new }
    ensures files { F.bytes folder.new ≡ F.bytes folder.old }
    ensures room { F.spare folder.new ≡ F.spare folder.old }
    ensures writes { F.write_faults folder.new ≡ F.write_faults folder.old }
{
    let mut text = Vec::new(alloc);
    let mut piece = blank_piece(alloc)?;
    while text.len() < limit {
        let wanted = (limit - text.len()).min(piece.len());
        if !read_piece(folder, name, &mut text, &mut piece[..wanted])? {
            return Ok(text);
        }
    }
    Ok(text)
}

/// Room for what one read gives.
fn blank_piece(alloc: Global) -> Result<Vec<u8>, ReadError>
    ensures some { IfOk result (λ piece. 0 < vec_len piece) }
    ensures err { IsErrOf result ReadError.Fault → ⊥ }
{
    vec![in alloc; 0u8; PIECE].map_err(|_| ReadError::Memory)
}

/// Adds what one read gives next of a file to its text so far, and says whether that was any byte.
#[tactic(auto, using(crate::proofs::Pieces::starts_with_piece))]
fn read_piece<F: Folder>(
    folder: &mut F,
    name: &str,
    text: &mut Vec<u8>,
    piece: &mut [u8],
) -> Result<bool, ReadError>
    requires { 0 < length piece.old }
    ensures within { vec_len text.new ≤ vec_len text.old + length piece.old }
    ensures more { IfOk result (λ more. IsTrue more ↔ (vec_len text.old < vec_len text.new)) }
    ensures starts { IfOk result (λ more. (file : List ℕ) → Holds (F.bytes folder.old name.now) file
        → StartsWith file text.old.items → StartsWith file text.new.items) }
    ensures ends { IfOk result (λ more. (file : List ℕ) → Holds (F.bytes folder.old name.now) file
        → more ≡ false → length file ≤ vec_len text.new) }
    ensures missing { IsMissing (F.bytes folder.old name.now) → IsErr result }
    ensures fault { IsErrOf result ReadError.Fault
        → CountRose (F.read_faults folder.old) (F.read_faults folder.new) }
    ensures count { F.read_faults folder.old ≤ F.read_faults folder.new }
    ensures files { F.bytes folder.new ≡ F.bytes folder.old }
    ensures room { F.spare folder.new ≡ F.spare folder.old }
    ensures writes { F.write_faults folder.new ≡ F.write_faults folder.old }
{
    let at = text.len() as u64;
    match folder.read_at(name, at, piece) {
        Ok(n) => match text.extend_from_slice(&piece[..n]) {
            Ok(()) => Ok(n > 0),
            Err(_) => Err(ReadError::Memory),
        },
        Err(_) => Err(ReadError::Fault),
    }
}
