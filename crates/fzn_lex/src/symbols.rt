//! Symbols of one byte and of two.

ghost use Rattle.std.specs.Prelude.{◌≡◌, Some, IfSome};
ghost use Rattle.fzn_lex.specs.declared.pieces.Sort.TheVariants.{Word};
ghost use Rattle.fzn_lex.specs.Cutting.{IsFine};
ghost use Rattle.fzn_lex.specs.Scan.{piece, single_of, symbol_of};

use crate::pieces::{Piece, Sort};
use crate::words::What;

fn found(what: What, len: usize) -> Option<Piece>
    requires { IsFine (Word what) }
    ensures value { result ≡ Some (piece (Word what) len) }
    ensures fine { IfSome result (λ p. IsFine p.sort) }
{
    Some(Piece {
        sort: Sort::Word(what),
        len,
    })
}

#[tactic(auto, unfolding(crate::specs::Scan::single_of))]
fn single(byte: u8) -> Option<Piece>
    ensures value { result ≡ single_of byte }
    ensures fine { IfSome result (λ p. IsFine p.sort) }
{
    match byte {
        b'(' => found(What::LeftParen, 1),
        b')' => found(What::RightParen, 1),
        b'[' => found(What::LeftBracket, 1),
        b']' => found(What::RightBracket, 1),
        b'{' => found(What::LeftBrace, 1),
        b'}' => found(What::RightBrace, 1),
        b',' => found(What::Comma, 1),
        b';' => found(What::Semicolon, 1),
        b'=' => found(What::Equal, 1),
        _ => None,
    }
}

// The symbol at these two bytes.
#[tactic(auto, unfolding(crate::specs::Scan::symbol_of))]
pub(crate) fn symbol(first: u8, second: u8) -> Option<Piece>
    ensures value { result ≡ symbol_of first second }
    ensures fine { IfSome result (λ p. IsFine p.sort) }
{
    if first == b':' {
        if second == b':' {
            return found(What::DoubleColon, 2);
        }
        return found(What::Colon, 1);
    }
    if first == b'.' {
        if second == b'.' {
            return found(What::DotDot, 2);
        }
        return None;
    }
    single(first)
}
