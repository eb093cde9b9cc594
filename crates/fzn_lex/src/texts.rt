//! Texts in quotes.

ghost use Rattle.std.specs.Prelude.{◌≡◌, ◌^◌, ◌<◌, ◌≤◌, length, false, IfSome};
ghost use Rattle.fzn_lex.specs.Scan.{inside_len, text_piece, Answers};

use crate::pieces::{Fault, Piece, Sort};
use crate::words::What;

// The bytes up to the closing quote and with it, where it comes on this line.
fn inside(bytes: &[u8]) -> Option<usize>
    ensures value { result ≡ inside_len false bytes.now }
    ensures within { IfSome result (λ n. n ≤ length bytes.now) }
{
    let mut escaped = false;
    for (i, b) in bytes.iter().enumerate() {
        if *b == b'\n' {
            return None;
        }
        if escaped {
            escaped = false;
        } else if *b == b'"' {
            return Some(i + 1);
        } else {
            escaped = *b == b'\\';
        }
    }
    None
}

// The text whose first quote stands before these bytes.
pub(crate) fn text(bytes: &[u8]) -> Result<Piece, Fault>
    requires { length bytes.now < 2 ^ 63 }
    ensures { Answers 34 (text_piece (inside_len false bytes.now)) result }
{
    match inside(bytes) {
        Some(len) => Ok(Piece {
            sort: Sort::Word(What::Text),
            len: 1 + len,
        }),
        None => Err(Fault::OpenString),
    }
}
