//! Outputs that have the value of a function.
ghost use Rattle.std.specs.Prelude.{◌≡◌};
ghost use Rattle.kind_law.specs.Function.{have_none, is_one, are_one, stays_at, truth_kept, function_kept};

use dom_core::{Interval, Movement};

/// Whether the intervals have no integer in common.
pub fn are_apart(a: Interval, b: Interval) -> bool
    ensures { result ≡ have_none a b }
{
    a.hi() < b.lo() || b.hi() < a.lo()
}

/// Whether an output has the value of its function after a change, where it has it before. `two` tells that the function
/// has the values 0 and 1 alone.
pub fn is_function_kept(two: bool, function: Movement, output: Movement) -> bool
    ensures { result ≡ function_kept two function output }
{
    if are_same(function.change, output.change) {
        return true;
    }
    if are_same(function.after, output.after) {
        return true;
    }
    two && is_truth_kept(function.change, &output)
}

/// Whether a truth that doesn't fall stays at 1, or one that doesn't rise at 0.
fn is_truth_kept(change: Interval, output: &Movement) -> bool
    ensures { result ≡ truth_kept change output.now }
{
    (is_still_at(output, 1) && 0 <= change.lo()) || (is_still_at(output, 0) && change.hi() <= 0)
}

/// Whether the output is this number before and after.
fn is_still_at(output: &Movement, value: i128) -> bool
    ensures { result ≡ stays_at output.now value }
{
    is_alone(output.before, value) && is_alone(output.after, value)
}

/// Whether the number is the only one of the interval.
fn is_alone(interval: Interval, value: i128) -> bool
    ensures { result ≡ is_one interval value }
{
    interval.lo() == value && interval.hi() == value
}

/// Whether the intervals are one number, and the same.
pub fn are_same(a: Interval, b: Interval) -> bool
    ensures { result ≡ are_one a b }
{
    a.lo() == a.hi() && is_alone(b, a.lo())
}
