//! Numbers that are to be different.
ghost use Rattle.std.specs.Prelude.{◌≡◌, ◌↔◌, ◌<◌, length, slice_get, Some, IsTrue, IfOk};
ghost use Rattle.fzn_check.specs.Shapes.{AreDifferent, HasDifferent};

use fzn_syntax::Expression;
use fzn_values::Constants;
use std::alloc::{AllocError, Global};
use std::collections::BTreeSet;

fn int_at(ints: &[i64], place: usize) -> i64
    requires { place < length ints.now }
    ensures { slice_get ints.now place ≡ Some result }
{
    ints[place]
}

fn are_different(alloc: Global, ints: &[i64]) -> Result<bool, AllocError>
    ensures { IfOk result (λ b. IsTrue b ↔ AreDifferent ints.now) }
{
    let mut seen = BTreeSet::new(alloc);
    for place in 0..ints.len() {
        let value = int_at(ints, place);
        let added = seen.insert(value)?;
        if !added {
            return Ok(false);
        }
    }
    Ok(true)
}

// Whether the expression stands for integers that are different; the whole list is looked at.
pub(crate) fn has_different(
    alloc: Global,
    values: &Constants<'_>,
    expression: &Expression,
) -> Result<bool, AllocError>
    ensures { IfOk result (λ b. IsTrue b ↔ HasDifferent values.now expression.now) }
{
    match values.ints_of(alloc, expression)? {
        None => Ok(false),
        Some(ints) => are_different(alloc, ints.as_slice()),
    }
}
