//! Domains: sorted lists of distinct integers.
ghost use Rattle.std.specs.Prelude.{◌≡◌, ◌<◌, ◌^◌, length, slice_get, Some, ◌≤ℤ◌, IfOk};
ghost use Rattle.dom_core.specs.Domain.{kept_values};
ghost use Rattle.dom_core.specs.Small.{IsSmall};
ghost use Rattle.dom_core.specs.Rises.{Rises, is_among, first_of, last_of, count_of};

use crate::ranks::{rank_between, rank_in};
use crate::sorts::sorted_of;
use std::alloc::{AllocError, Global};
use std::marker::Model;
use thiserror::Error;

/// The most values that a domain has.
pub const DOMAIN_LIMIT: u64 = 4096;

/// Why there is no such domain.
#[derive(Clone, Copy, Debug, PartialEq, Eq, Drop, Error)]
pub enum DomainError {
    #[error("empty domain")]
    Empty,
    #[error("domain has {count} values")]
    TooLarge { count: u64 },
    #[error("out of memory")]
    Memory,
}

impl From<AllocError> for DomainError {
    ghost use Rattle.dom_core.specs.declared.domain.DomainError.TheVariants.{Memory};

    ghost from_gives = { λ _ e. e ≡ Memory };

    fn from(_e: AllocError) -> DomainError {
        DomainError::Memory
    }
}

/// A sorted list of distinct integers, 1 to 4096 of them.
#[derive(Drop)]
pub struct Domain {
    kept: Kept,
}

/// A domain without gaps is kept as its two ends, any other as its list.
#[derive(Drop)]
enum Kept {
    Range(i64, i64),
    Listed(Vec<i64>),
}

impl Model for Domain {
    ghost use Rattle.std.specs.Prelude.{List, ℤ};

    ghost Value = { List ℤ };

    ghost use Rattle.dom_core.specs.Domain.{IsDomain, kept_values};

    ghost view = { λ d. kept_values d.kept };

    ghost invariant = { λ d. IsDomain (kept_values d.kept) };
}

impl Domain {
    ghost use Rattle.dom_core.specs.Domain.{IsDomain, IsRange, IsOfValues};
    ghost use Rattle.dom_core.specs.Rises.{IsRank};

    /// The integers from `lo` to `hi`, both among them.
    pub fn from_range(lo: i64, hi: i64) -> Result<Domain, DomainError>
        requires low { IsSmall lo }
        requires high { IsSmall hi }
        ensures { IsRange lo hi result }
    {
        if hi < lo {
            return Err(DomainError::Empty);
        }
        let count = count_between(lo, hi);
        if count > DOMAIN_LIMIT {
            return Err(DomainError::TooLarge { count });
        }
        Ok(Domain {
            kept: Kept::Range(lo, hi),
        })
    }

    /// The values of a list, which may stand in any order and be repeated.
    pub fn from_values(alloc: Global, values: &[i64]) -> Result<Domain, DomainError>
        ensures { IsOfValues values.now result }
    {
        let sorted = sorted_of(alloc, values)?;
        Domain::from_sorted(sorted)
    }

    fn from_sorted(values: Vec<i64>) -> Result<Domain, DomainError>
        requires { Rises values.items }
        ensures { IsOfValues values.items result }
    {
        let count = values.len() as u64;
        if count == 0 {
            return Err(DomainError::Empty);
        }
        if DOMAIN_LIMIT < count {
            return Err(DomainError::TooLarge { count });
        }
        Ok(Domain {
            kept: kept_of(values),
        })
    }

    pub fn contains(&self, value: i64) -> bool
        ensures { result ≡ is_among value self.now }
    {
        match &self.kept {
            Kept::Range(lo, hi) => *lo <= value && value <= *hi,
            Kept::Listed(values) => is_listed(values.as_slice(), value),
        }
    }

    pub fn size(&self) -> usize
        ensures size { result ≡ length self.now }
        ensures sound { IsDomain self.now }
    {
        match &self.kept {
            Kept::Range(lo, hi) => count_between(*lo, *hi) as usize,
            Kept::Listed(values) => values.len(),
        }
    }

    pub fn min(&self) -> i64
        ensures min { result ≡ first_of self.now }
        ensures sound { IsDomain self.now }
    {
        match &self.kept {
            Kept::Range(lo, _) => *lo,
            Kept::Listed(values) => values[0],
        }
    }

    pub fn max(&self) -> i64
        ensures max { result ≡ last_of self.now }
        ensures sound { IsDomain self.now }
    {
        match &self.kept {
            Kept::Range(_, hi) => *hi,
            Kept::Listed(values) => values[values.len() - 1],
        }
    }

    /// The value at this place of the sorted list.
    pub fn value_at(&self, index: usize) -> i64
        requires { index < length self.now }
        ensures { slice_get self.now index ≡ Some result }
    {
        match &self.kept {
            Kept::Range(lo, hi) => {
                let _end = *hi;
                *lo + index as i64
            }
            Kept::Listed(values) => values[index],
        }
    }

    /// How many values of the domain are less.
    pub fn rank(&self, value: i64) -> usize
        ensures rank { IsRank self.now value result }
        ensures sound { IsDomain self.now }
    {
        match &self.kept {
            Kept::Range(lo, hi) => rank_between(*lo, *hi, value),
            Kept::Listed(values) => rank_in(values.as_slice(), value),
        }
    }

    /// The same domain again.
    pub fn duplicate(&self, alloc: Global) -> Result<Domain, AllocError>
        ensures { IfOk result (λ d. d ≡ self.now) }
    {
        let kept = match &self.kept {
            Kept::Range(lo, hi) => Kept::Range(*lo, *hi),
            Kept::Listed(values) => Kept::Listed(values.as_slice().to_vec(alloc)?),
        };
        Ok(Domain { kept })
    }
}

/// The two ends of rising values without a gap, and else their list.
fn kept_of(values: Vec<i64>) -> Kept
    requires rises { Rises values.items }
    requires some { 0 < length values.items }
    ensures { kept_values result ≡ values.items }
{
    let lo = values[0];
    let hi = values[values.len() - 1];
    if hi as i128 - lo as i128 + 1 == values.len() as i128 {
        Kept::Range(lo, hi)
    } else {
        Kept::Listed(values)
    }
}

/// How many integers lie between the ends, both among them.
fn count_between(lo: i64, hi: i64) -> u64
    requires some { lo ≤ℤ hi }
    requires fits { count_of lo hi < 2 ^ 64 }
    ensures { result ≡ count_of lo hi }
{
    (hi as i128 - lo as i128 + 1) as u64
}

/// Whether the value stands in the rising list, by halving it.
fn is_listed(values: &[i64], value: i64) -> bool
    requires { Rises values.now }
    ensures { result ≡ is_among value values.now }
{
    let mut low = 0;
    let mut high = values.len();
    while low < high {
        let middle = low + (high - low) / 2;
        let here = values[middle];
        if here == value {
            return true;
        }
        if here < value {
            low = middle + 1;
        } else {
            high = middle;
        }
    }
    false
}
