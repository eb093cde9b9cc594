//! What the text is cut into.

ghost use Rattle.std.specs.Prelude.{◌≡◌, ◌<◌, length, get_or};
ghost use Rattle.fzn_lex.specs.Scan.{first_of, other_of, Answers};

use crate::classes::{begins_name, has_digit, leaves_blank, line_run, word_run};
use crate::numbers::{negative, number};
use crate::scanning::{after, byte_at};
use crate::symbols::symbol;
use crate::texts::text;
use crate::words::What;

// The kind of a piece.
#[derive(Clone, Copy, Drop)]
pub(crate) enum Sort {
    Blank,
    Comment,
    Word(What),
}

// A piece by its kind and its number of bytes.
#[derive(Clone, Copy, Drop)]
pub(crate) struct Piece {
    pub(crate) sort: Sort,
    pub(crate) len: usize,
}

// Why no piece is taken at a place.
#[derive(Clone, Copy, Drop)]
pub(crate) enum Fault {
    BadByte,
    BadNumber,
    OpenString,
}

// The piece at the head of the bytes, or why none is taken.
#[tactic(auto, unfolding(crate::specs::Scan::first_of))]
pub(crate) fn first_piece(bytes: &[u8]) -> Result<Piece, Fault>
    requires { 0 < length bytes.now }
    ensures { Answers (get_or bytes.now 0 0) (first_of bytes.now) result }
{
    let first = bytes[0];
    if begins_name(first) {
        return Ok(Piece {
            sort: Sort::Word(What::Name),
            len: 1 + word_run(after(bytes, 1)),
        });
    }
    if has_digit(10, first) {
        return number(false, bytes);
    }
    other(first, after(bytes, 1))
}

// The piece that this byte begins, which is no letter and no digit.
#[tactic(auto, unfolding(crate::specs::Scan::other_of))]
fn other(first: u8, rest: &[u8]) -> Result<Piece, Fault>
    ensures { Answers first (other_of first rest.now) result }
{
    if first == b'-' {
        return negative(rest);
    }
    if first == b'"' {
        return text(rest);
    }
    if first == b'%' {
        return Ok(Piece {
            sort: Sort::Comment,
            len: 1 + line_run(rest),
        });
    }
    if leaves_blank(first) {
        return Ok(Piece {
            sort: Sort::Blank,
            len: 1,
        });
    }
    match symbol(first, byte_at(rest, 0)) {
        Some(piece) => Ok(piece),
        None => Err(Fault::BadByte),
    }
}
