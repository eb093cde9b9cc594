//! Lists of integers, sorted.
ghost use Rattle.std.specs.Prelude.{IfOk};
ghost use Rattle.dom_core.specs.Rises.{IsSortedOf};

use std::alloc::{AllocError, Global};

/// The distinct values in rising order.
pub(crate) fn sorted_of(alloc: Global, values: &[i64]) -> Result<Vec<i64>, AllocError>
    ensures { IfOk result (λ v. IsSortedOf values.now v.items) }
{
    let mut sorted = values.to_vec(alloc)?;
    sorted.sort_unstable();
    sorted.dedup();
    Ok(sorted)
}
