//! Integers and floats.

ghost use Rattle.std.specs.Prelude.{◌≡◌, ◌+◌, ◌^◌, ◌≤◌, ◌<◌, Bool, true, false, length, take, drop, nat_le, if◌then◌else◌, List, [], ◌∷◌, get_or, Some, None};
ghost use Rattle.fzn_lex.specs.Classes.{is_digit, value_after};
ghost use Rattle.fzn_lex.specs.Tokens.{signed};
ghost use Rattle.fzn_lex.specs.Scan.{has_prefix, fraction_len, sign_len, exponent_len, tail_len, integer_of, prefixed_of, decimal_of, numeral_of, number_piece, negative_of, Judges, Answers};

use crate::classes::{digit, digit_run, has_digit};
use crate::pieces::{Fault, Piece, Sort};
use crate::scanning::{after, before, byte_at};
use crate::words::What;

// The greatest size of an integer.
const GREATEST: u128 = 1 << 62;

// The number that the digits write, if it is at most 2^62.
fn value(base: u8, digits: &[u8]) -> Option<u64>
    requires base { base ≤ 16 }
    requires positive { 0 < base }
    ensures { result ≡ (let n = value_after base 0 digits.now in if nat_le n (2 ^ 62) then Some n else None) }
{
    let mut total = 0u128;
    for b in digits {
        total = base as u128 * total + digit(*b) as u128;
        if total > GREATEST {
            return None;
        }
    }
    Some(total as u64)
}

// The number with its sign.
fn with_sign(negative: bool, size: u64) -> i64
    requires { size ≤ 2 ^ 62 }
    ensures { result ≡ signed negative size }
{
    if negative {
        -(size as i64)
    } else {
        size as i64
    }
}

// An integer of these digits, whose piece has this length beside the sign.
fn integer(negative: bool, base: u8, digits: &[u8], len: usize) -> Result<Piece, Fault>
    requires base { base ≤ 16 }
    requires positive { 0 < base }
    requires short { len < 2 ^ 63 }
    ensures { Judges (number_piece negative (integer_of base digits.now len)) result }
{
    match value(base, digits) {
        Some(size) => Ok(Piece {
            sort: Sort::Word(What::Int(with_sign(negative, size))),
            len: negative as usize + len,
        }),
        None => Err(Fault::BadNumber),
    }
}

#[tactic(auto, unfolding(crate::specs::Scan::has_prefix))]
fn begins_prefixed(letter: u8, base: u8, bytes: &[u8]) -> bool
    ensures { result ≡ has_prefix letter base bytes.now }
{
    byte_at(bytes, 0) == b'0' && byte_at(bytes, 1) == letter && has_digit(base, byte_at(bytes, 2))
}

#[tactic(auto, unfolding(crate::specs::Scan::fraction_len))]
fn fraction(bytes: &[u8]) -> usize
    ensures value { result ≡ fraction_len bytes.now }
    ensures within { result ≤ length bytes.now }
{
    if byte_at(bytes, 0) == b'.' && has_digit(10, byte_at(bytes, 1)) {
        return 1 + digit_run(10, after(bytes, 1));
    }
    0
}

#[tactic(auto, unfolding(crate::specs::Scan::sign_len))]
fn sign(bytes: &[u8]) -> usize
    ensures value { result ≡ sign_len bytes.now }
    ensures within { result ≤ length bytes.now }
{
    if byte_at(bytes, 0) == b'+' || byte_at(bytes, 0) == b'-' {
        return 1;
    }
    0
}

#[tactic(auto, unfolding(crate::specs::Scan::exponent_len))]
fn exponent(bytes: &[u8]) -> usize
    ensures value { result ≡ exponent_len bytes.now }
    ensures within { result ≤ length bytes.now }
{
    if byte_at(bytes, 0) == b'e' || byte_at(bytes, 0) == b'E' {
        let behind = 1 + sign(after(bytes, 1));
        if has_digit(10, byte_at(bytes, behind)) {
            return behind + digit_run(10, after(bytes, behind));
        }
    }
    0
}

#[tactic(auto, unfolding(crate::specs::Scan::tail_len))]
fn tail(bytes: &[u8]) -> usize
    ensures value { result ≡ tail_len bytes.now }
    ensures within { result ≤ length bytes.now }
{
    let len = fraction(bytes);
    len + exponent(after(bytes, len))
}

#[tactic(auto, unfolding(crate::specs::Scan::prefixed_of))]
fn prefixed(negative: bool, base: u8, bytes: &[u8]) -> Result<Piece, Fault>
    requires base { base ≤ 16 }
    requires positive { 0 < base }
    ensures { Judges (number_piece negative (prefixed_of base bytes.now)) result }
{
    let digits = after(bytes, 2);
    let len = digit_run(base, digits);
    integer(negative, base, before(digits, len), 2 + len)
}

#[tactic(auto, unfolding(crate::specs::Scan::decimal_of))]
fn decimal(negative: bool, bytes: &[u8]) -> Result<Piece, Fault>
    ensures { Judges (number_piece negative (decimal_of bytes.now)) result }
{
    let len = digit_run(10, bytes);
    let extra = tail(after(bytes, len));
    if extra == 0 {
        return integer(negative, 10, before(bytes, len), len);
    }
    Ok(Piece {
        sort: Sort::Word(What::Float),
        len: negative as usize + (len + extra),
    })
}

#[tactic(auto, unfolding(crate::specs::Scan::numeral_of))]
pub(crate) fn number(negative: bool, bytes: &[u8]) -> Result<Piece, Fault>
    ensures { Judges (number_piece negative (numeral_of bytes.now)) result }
{
    if begins_prefixed(b'x', 16, bytes) {
        return prefixed(negative, 16, bytes);
    }
    if begins_prefixed(b'o', 8, bytes) {
        return prefixed(negative, 8, bytes);
    }
    decimal(negative, bytes)
}

// The number behind a minus.
#[tactic(auto, unfolding(crate::specs::Scan::negative_of))]
pub(crate) fn negative(bytes: &[u8]) -> Result<Piece, Fault>
    ensures { Answers 45 (negative_of bytes.now) result }
{
    if has_digit(10, byte_at(bytes, 0)) {
        return number(true, bytes);
    }
    Err(Fault::BadByte)
}
