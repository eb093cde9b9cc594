//! What a variable's cell is before it is cut.
ghost use Rattle.std.specs.Prelude.{◌≡◌, IfOk};

use dom_core::Domain;
use std::alloc::{AllocError, Global};

/// The first values of a variable: those of a domain, or all between two ends.
#[derive(Drop)]
pub enum Start {
    Values(Domain),
    Span { lo: i64, hi: i64 },
}

impl Start {
    ghost use Rattle.dom_cells.specs.Cell.{lo_of, hi_of};
    ghost use Rattle.dom_cells.specs.Flagged.{HasDomain, flag_count as flags_needed};

    /// The least value.
    pub fn lo(&self) -> i64
        ensures { result ≡ lo_of self.now }
    {
        match self {
            Start::Values(domain) => domain.min(),
            Start::Span { lo, .. } => *lo,
        }
    }

    /// The greatest value.
    pub fn hi(&self) -> i64
        ensures { result ≡ hi_of self.now }
    {
        match self {
            Start::Values(domain) => domain.max(),
            Start::Span { hi, .. } => *hi,
        }
    }

    /// How many values have a flag.
    pub(crate) fn flag_count(&self) -> usize
        ensures count { result ≡ flags_needed self.now }
        ensures domain { HasDomain self.now }
    {
        match self {
            Start::Values(domain) => domain.size(),
            Start::Span { .. } => 0,
        }
    }

    /// The same start again.
    pub fn duplicate(&self, alloc: Global) -> Result<Start, AllocError>
        ensures { IfOk result (λ s. s ≡ self.now) }
    {
        match self {
            Start::Values(domain) => Ok(Start::Values(domain.duplicate(alloc)?)),
            Start::Span { lo, hi } => Ok(Start::Span { lo: *lo, hi: *hi }),
        }
    }
}
