//! The plain form of a set: two ends where it has a value and no gap, and else a list.
ghost use Rattle.std.specs.Prelude.{IfOk, MatchOption};
ghost use Rattle.dom_core.specs.Rises.{Rises};
ghost use Rattle.dom_core.specs.declared.set.Set.TheVariants.{Values as Listed};
ghost use Rattle.kind_parts.specs.Set.{IsSorted, IsPlainOf, IsEmptyOrGappy};

use dom_core::{Set, Values};
use std::alloc::{AllocError, Global};

/// The set with the same values in its plain form.
pub fn plain_of(alloc: Global, set: &Set) -> Result<Set, AllocError>
    requires { IsSorted set.now }
    ensures { IfOk result (IsPlainOf set.now) }
{
    match set {
        Set::Range { lo, hi } => Ok(range_of(alloc, *lo, *hi)),
        Set::Values(values) => list_of(alloc, values.as_slice()),
    }
}

/// The plain form of a range. An empty list takes no memory.
fn range_of(alloc: Global, lo: i64, hi: i64) -> Set
    ensures { IsPlainOf (Set.Range lo hi) result }
{
    if lo <= hi {
        return Set::Range { lo, hi };
    }
    Set::Values(Values::from_vec(Vec::new(alloc)))
}

/// The plain form of a list.
fn list_of(alloc: Global, values: &[i64]) -> Result<Set, AllocError>
    requires { Rises values.now }
    ensures { IfOk result (IsPlainOf (Listed values.now)) }
{
    if let Some(range) = row_of(values) {
        return Ok(range);
    }
    Ok(Set::Values(Values::from_slice(alloc, values)?))
}

/// The range of rising values, where there are some and they have no gap.
fn row_of(values: &[i64]) -> Option<Set>
    requires { Rises values.now }
    ensures { MatchOption result (IsEmptyOrGappy values.now) (IsPlainOf (Listed values.now)) }
{
    if values.is_empty() {
        return None;
    }
    let lo = values[0];
    let hi = values[values.len() - 1];
    if hi as i128 - lo as i128 + 1 == values.len() as i128 {
        return Some(Set::Range { lo, hi });
    }
    None
}
