//! Sets of integers that count as ranges.
ghost use Rattle.std.specs.Prelude.{◌≡◌, ◌↔◌, ◌<◌, ◌-◌, length, slice_index_or, ◌≤ℤ◌, ◌+ℤ◌, pos, IsTrue, MatchOption};
ghost use Rattle.std.specs.List.Sorted.{IsSorted};
ghost use Rattle.std.specs.Ordering.{int_cmp};
ghost use Rattle.dom_index_sets.specs.declared.index_set.IndexSet.{IndexSet as Ends};
ghost use Rattle.fzn_output_marks.specs.Sets.{IsWhole};
ghost use Rattle.fzn_output_marks.specs.Gaps.{IsGapless, IsNotWhole};

use dom_index_sets::IndexSet;

/// The ends of the values, where these are one at least and have no gap.
pub(crate) fn whole_of(mut values: Vec<i64>) -> Option<IndexSet>
    ensures { MatchOption result (IsNotWhole values.items) (IsWhole values.items) }
{
    values.sort_unstable();
    whole_of_sorted(&values)
}

fn whole_of_sorted(values: &[i64]) -> Option<IndexSet>
    requires { IsSorted int_cmp values.now }
    ensures { MatchOption result (IsNotWhole values.now) (IsWhole values.now) }
{
    if values.is_empty() {
        return None;
    }
    let ends = ends_of(values);
    if is_gapless(values) { Some(ends) } else { None }
}

// The first and the last.
fn ends_of(values: &[i64]) -> IndexSet
    requires { 0 < length values.now }
    ensures lo { slice_index_or values.now 0 (pos 0) ≡ result.lo }
    ensures hi { slice_index_or values.now (length values.now - 1) (pos 0) ≡ result.hi }
{
    IndexSet {
        lo: values[0],
        hi: values[values.len() - 1],
    }
}

fn is_gapless(values: &[i64]) -> bool
    ensures { IsTrue result ↔ IsGapless values.now }
{
    for i in 1..values.len() {
        if !follows(values[i - 1], values[i]) {
            return false;
        }
    }
    true
}

// Whether nothing stands between the two, where the second is greater.
fn follows(before: i64, value: i64) -> bool
    ensures { IsTrue result ↔ value ≤ℤ (before +ℤ pos 1) }
{
    if before < value {
        before + 1 == value
    } else {
        true
    }
}
