//! Constant sets of integers.

use crate::Values;

/// All integers between two ends, or listed ones, which rise.
#[derive(Debug, Drop)]
pub enum Set {
    Range { lo: i64, hi: i64 },
    Values(Values),
}
