//! What is asked of a set: a value, an interval, a cell, a change.
ghost use Rattle.std.specs.Prelude.{◌≡◌, ◌<◌};
ghost use Rattle.dom_core.specs.Rises.{Rises};
ghost use Rattle.dom_cells.specs.Cell.{IsSane};
ghost use Rattle.std.specs.List.{list_any};
ghost use Rattle.std.specs.Ordering.{int_eq};
ghost use Rattle.kind_parts.specs.Set.{below_keeps, above_keeps, IsSorted, set_has, set_meets, set_keeps, covers, range_meets, range_keeps, list_meets, list_keeps};

use dom_cells::Region;
use dom_core::{Interval, Set, VarId};

/// Whether the value lies in the set.
pub fn set_has(set: &Set, value: i64) -> bool
    ensures { result ≡ set_has set.now value }
{
    match set {
        Set::Range { lo, hi } => *lo <= value && value <= *hi,
        Set::Values(values) => lists(values.as_slice(), value),
    }
}

/// Whether the value stands in the list.
fn lists(values: &[i64], value: i64) -> bool
    ensures { result ≡ list_any (int_eq value) values.now }
{
    values.iter().any(|v| value == *v)
}

/// Whether a value of the variable's cell lies in the set.
pub fn set_meets<R: Region>(set: &Set, cells: &R, var: VarId) -> bool
    requires below { var.0 < R.width cells.now }
    requires sane { IsSane (R.cells cells.now var.0) }
    ensures { result ≡ set_meets set.now (R.cells cells.now var.0) }
{
    match set {
        Set::Range { lo, hi } => meets_range(*lo, *hi, cells, var),
        Set::Values(values) => meets_list(values.as_slice(), cells, var),
    }
}

/// Whether a value of the variable's cell lies between the ends.
fn meets_range<R: Region>(lo: i64, hi: i64, cells: &R, var: VarId) -> bool
    requires below { var.0 < R.width cells.now }
    requires sane { IsSane (R.cells cells.now var.0) }
    ensures { result ≡ range_meets lo hi (R.cells cells.now var.0) }
{
    let least = cells.lo(var);
    if lo <= least {
        return least <= hi;
    }
    let greatest = cells.hi(var);
    if greatest < lo {
        return false;
    }
    let next = cells.ceiling(var, lo);
    next <= hi
}

/// Whether a value of the list is one of the variable's cell.
fn meets_list<R: Region>(values: &[i64], cells: &R, var: VarId) -> bool
    requires { var.0 < R.width cells.now }
    ensures { result ≡ list_meets values.now (R.cells cells.now var.0) }
{
    values.iter().any(|v| cells.has(var, *v))
}

/// Whether a value of the set that changes so and lies there afterwards stays in the set.
pub fn set_keeps(set: &Set, change: Interval, after: Interval) -> bool
    requires { IsSorted set.now }
    ensures { result ≡ set_keeps set.now change after }
{
    match set {
        Set::Range { lo, hi } => keeps_range(*lo, *hi, change, after),
        Set::Values(values) => keeps_list(values.as_slice(), change, after),
    }
}

/// Whether a value between the ends stays there.
fn keeps_range(lo: i64, hi: i64, change: Interval, after: Interval) -> bool
    ensures { result ≡ range_keeps lo hi change after }
{
    stays_below(hi, change, after) && stays_above(lo, change, after)
}

/// Whether a value that is at most the number stays so.
fn stays_below(hi: i64, change: Interval, after: Interval) -> bool
    ensures { result ≡ below_keeps hi change after }
{
    after.hi() <= hi as i128 || change.hi() <= 0
}

/// Whether a value that is at least the number stays so.
fn stays_above(lo: i64, change: Interval, after: Interval) -> bool
    ensures { result ≡ above_keeps lo change after }
{
    lo as i128 <= after.lo() || 0 <= change.lo()
}

/// Whether a value of the list stays one.
fn keeps_list(values: &[i64], change: Interval, after: Interval) -> bool
    requires { Rises values.now }
    ensures { result ≡ list_keeps values.now change after }
{
    if change.lo() == 0 && change.hi() == 0 {
        return true;
    }
    is_covered(values, after)
}

/// Whether each integer of the interval stands in the rising list, by one pass.
fn is_covered(values: &[i64], interval: Interval) -> bool
    requires { Rises values.now }
    ensures { result ≡ covers values.now interval }
{
    let last = interval.hi();
    let mut next = interval.lo();
    for value in values {
        let here = *value as i128;
        if next < here {
            return false;
        }
        if here == last {
            return true;
        }
        if here == next {
            next += 1;
        }
    }
    false
}
