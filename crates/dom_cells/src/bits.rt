//! The bits of one word.
ghost use Rattle.std.specs.Prelude.{◌≡◌, ◌≢◌, ◌≤◌, ◌<◌, ◌==◌, ℕ};
ghost use Rattle.std.specs.Int.{bit_at};
ghost use Rattle.dom_cells.specs.Bits.{IsFirstBit, IsLastBit};

/// Whether the bit at this place is set.
pub(crate) fn has_bit(word: u64, at: usize) -> bool
    requires { at < 64 }
    ensures { result ≡ (bit_at word at == 1) }
{
    (word >> at) & 1 == 1
}

/// The word with the bit at this place set or cleared.
pub(crate) fn with_bit(word: u64, at: usize, up: bool) -> u64
    requires { at < 64 }
    ensures here { (bit_at result at == 1) ≡ up }
    ensures others { (i : ℕ) → i < 64 → i ≢ at → bit_at result i ≡ bit_at word i }
{
    let bit = 1 << at;
    if up { word | bit } else { word & !bit }
}

/// The first place from `from` on whose bit is set, or `limit`.
pub(crate) fn first_bit(word: u64, from: usize, limit: usize) -> usize
    requires from { from < limit }
    requires limit { limit ≤ 64 }
    ensures { IsFirstBit word from limit result }
{
    let rest = word >> from;
    if rest == 0 {
        return limit;
    }
    (from + rest.trailing_zeros() as usize).min(limit)
}

/// The place after the last bit that is set before `below`, or 0.
pub(crate) fn last_bit(word: u64, below: usize) -> usize
    requires some { 0 < below }
    requires below { below ≤ 64 }
    ensures { IsLastBit word below result }
{
    let rest = word & (u64::MAX >> (64 - below));
    if rest == 0 {
        return 0;
    }
    rest.ilog2() as usize + 1
}
