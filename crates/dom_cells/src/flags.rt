//! A list of truth values.
ghost use Rattle.std.specs.Prelude.{◌≡◌, ◌≤◌, ◌<◌, ◌*◌, length, IfOk, true, false, replicate, slice_index_or, slice_set};
ghost use Rattle.dom_cells.specs.Bits.{flags_of};
ghost use Rattle.dom_cells.specs.Flagged.{IsLastUp, IsFirstUp};

use crate::bits::{first_bit, has_bit, last_bit, with_bit};
use std::alloc::{AllocError, Global};
use std::marker::Model;

/// A list of truth values of fixed length, a bit for each.
#[derive(Debug, Drop)]
pub(crate) struct Flags {
    words: Vec<u64>,
    count: usize,
}

impl Model for Flags {
    ghost use Rattle.std.specs.Prelude.{List, Bool, length, ◌≤◌, ◌*◌};
    ghost use Rattle.dom_cells.specs.Bits.{flags_of};

    ghost Value = { List Bool };

    ghost view = { λ f. flags_of f.words.items f.count };

    ghost invariant = { λ f. f.count ≤ 64 * length f.words.items };
}

impl Flags {
    /// So many flags, all of them up.
    pub(crate) fn all_up(alloc: Global, count: usize) -> Result<Flags, AllocError>
        ensures { IfOk result (λ f. f ≡ replicate count true) }
    {
        Ok(Flags {
            words: vec![in alloc; u64::MAX; count.div_ceil(64)]?,
            count,
        })
    }

    pub(crate) fn len(&self) -> usize
        ensures { result ≡ length self.now }
    {
        self.count
    }

    pub(crate) fn is_up(&self, at: usize) -> bool
        requires { at < length self.now }
        ensures { result ≡ slice_index_or self.now at false }
    {
        has_bit(self.words[at / 64], at % 64)
    }

    /// Writes one flag, where there is one at this place.
    pub(crate) fn put(&mut self, at: usize, up: bool)
        ensures { self.new ≡ slice_set self.old at up }
    {
        if at < self.count {
            let word = self.words[at / 64];
            self.words[at / 64] = with_bit(word, at % 64, up);
        }
    }

    /// The place after the last flag that is up before `below`, or 0.
    pub(crate) fn last_up(&self, below: usize) -> usize
        requires { below ≤ length self.now }
        ensures { IsLastUp self.now below result }
    {
        last_set(&self.words, self.count, below)
    }

    /// The first place from `from` on whose flag is up, or the end.
    pub(crate) fn first_up(&self, from: usize) -> usize
        requires { from ≤ length self.now }
        ensures { IsFirstUp self.now from result }
    {
        first_set(&self.words, self.count, from)
    }
}

/// The place after the last bit that is set before `below`, or 0. A word with no such bit is passed at once.
fn last_set(words: &[u64], count: usize, below: usize) -> usize
    requires count { count ≤ 64 * length words.now }
    requires below { below ≤ count }
    ensures { IsLastUp (flags_of words.now count) below result }
{
    let mut after = below;
    while after > 0 {
        let word = (after - 1) / 64;
        let bit = last_bit(words[word], after - 64 * word);
        if bit > 0 {
            return 64 * word + bit;
        }
        after = 64 * word;
    }
    0
}

/// The first place from `from` on whose bit is set, or `count`. A word with no such bit is passed at once.
fn first_set(words: &[u64], count: usize, from: usize) -> usize
    requires count { count ≤ 64 * length words.now }
    requires from { from ≤ count }
    ensures { IsFirstUp (flags_of words.now count) from result }
{
    let mut at = from;
    while at < count {
        let start = at - at % 64;
        let limit = (count - start).min(64);
        let bit = first_bit(words[at / 64], at % 64, limit);
        if bit < limit {
            return start + bit;
        }
        at = start + limit;
    }
    count
}
