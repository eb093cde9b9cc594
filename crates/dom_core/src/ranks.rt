//! How many values of a rising list are less than a value.
ghost use Rattle.std.specs.Prelude.{◌≡◌, ◌≤◌, ◌<◌, ◌^◌, length, ◌≤ℤ◌};
ghost use Rattle.dom_core.specs.Rises.{Rises, range_of, count_of};
ghost use Rattle.dom_core.specs.Rises.{IsRank};

/// How many integers from `lo` to `hi` are less.
pub(crate) fn rank_between(lo: i64, hi: i64, value: i64) -> usize
    requires ends { lo ≤ℤ hi }
    requires few { count_of lo hi ≤ 4096 }
    ensures { IsRank (range_of lo hi) value result }
{
    if value <= lo {
        0
    } else if hi < value {
        (hi - lo) as usize + 1
    } else {
        (value - lo) as usize
    }
}

/// How many values of the rising list are less, by halving it.
pub(crate) fn rank_in(values: &[i64], value: i64) -> usize
    requires { Rises values.now }
    ensures { IsRank values.now value result }
{
    let mut low = 0;
    let mut high = values.len();
    while low < high {
        let middle = low + (high - low) / 2;
        if values[middle] < value {
            low = middle + 1;
        } else {
            high = middle;
        }
    }
    low
}
