//! The least and the greatest value that a set and a cell have in common.
ghost use Rattle.std.specs.Prelude.{◌<◌, length};
ghost use Rattle.dom_core.specs.Rises.{Rises};
ghost use Rattle.dom_core.specs.declared.set.Set.TheVariants.{Values as Listed};
ghost use Rattle.dom_cells.specs.Box.{cell_of};
ghost use Rattle.kind_parts.specs.Set.{IsSorted};
ghost use Rattle.kind_arith.specs.Shared.{IsLeastFound, IsGreatestFound, IsCeilingFound, IsFloorFound};

use dom_cells::Cells;
use dom_core::{Set, VarId};

/// The least value of the set that the variable has left.
pub(crate) fn least(set: &Set, cells: &Cells, var: VarId) -> Option<i64>
    requires var { var.0 < length cells.now.state.starts }
    requires sorted { IsSorted set.now }
    ensures { IsLeastFound set.now (cell_of cells.now.state var.0) result }
{
    match set {
        Set::Range { lo, hi } => least_between(*lo, *hi, cells, var),
        Set::Values(values) => first_listed(values.as_slice(), cells, var),
    }
}

/// The greatest value of the set that the variable has left.
pub(crate) fn greatest(set: &Set, cells: &Cells, var: VarId) -> Option<i64>
    requires var { var.0 < length cells.now.state.starts }
    requires sorted { IsSorted set.now }
    ensures { IsGreatestFound set.now (cell_of cells.now.state var.0) result }
{
    match set {
        Set::Range { lo, hi } => greatest_between(*lo, *hi, cells, var),
        Set::Values(values) => last_listed(values.as_slice(), cells, var),
    }
}

/// The least value between the ends that the variable has left.
#[tactic(auto, using(crate::proofs::SharedLaws::range_above))]
fn least_between(lo: i64, hi: i64, cells: &Cells, var: VarId) -> Option<i64>
    requires { var.0 < length cells.now.state.starts }
    ensures { IsLeastFound (Set.Range lo hi) (cell_of cells.now.state var.0) result }
{
    let _width = cells.width();
    let Some(least) = least_from(cells, var, lo) else {
        return None;
    };
    if hi < least {
        return None;
    }
    Some(least)
}

/// The greatest value between the ends that the variable has left.
#[tactic(auto, using(crate::proofs::SharedLaws::range_below))]
fn greatest_between(lo: i64, hi: i64, cells: &Cells, var: VarId) -> Option<i64>
    requires { var.0 < length cells.now.state.starts }
    ensures { IsGreatestFound (Set.Range lo hi) (cell_of cells.now.state var.0) result }
{
    let _width = cells.width();
    let Some(greatest) = greatest_to(cells, var, hi) else {
        return None;
    };
    if greatest < lo {
        return None;
    }
    Some(greatest)
}

/// The least value that the variable has left from the number on.
#[tactic(auto, using(crate::proofs::SharedLaws::ceiling_at_low))]
fn least_from(cells: &Cells, var: VarId, number: i64) -> Option<i64>
    requires { var.0 < length cells.now.state.starts }
    ensures { IsCeilingFound (cell_of cells.now.state var.0) number result }
{
    let lo = cells.lo(var);
    if number <= lo {
        return Some(lo);
    }
    if cells.hi(var) < number {
        return None;
    }
    Some(cells.ceiling(var, number))
}

/// The greatest value that the variable has left up to the number.
#[tactic(auto, using(crate::proofs::SharedLaws::floor_at_high))]
fn greatest_to(cells: &Cells, var: VarId, number: i64) -> Option<i64>
    requires { var.0 < length cells.now.state.starts }
    ensures { IsFloorFound (cell_of cells.now.state var.0) number result }
{
    let hi = cells.hi(var);
    if hi <= number {
        return Some(hi);
    }
    if number < cells.lo(var) {
        return None;
    }
    Some(cells.floor(var, number))
}

/// The first value of the list that the variable has left.
fn first_listed(values: &[i64], cells: &Cells, var: VarId) -> Option<i64>
    requires var { var.0 < length cells.now.state.starts }
    requires rises { Rises values.now }
    ensures { IsLeastFound (Listed values.now) (cell_of cells.now.state var.0) result }
{
    for value in values {
        if cells.has(var, *value) {
            return Some(*value);
        }
    }
    None
}

/// The last value of the list that the variable has left.
fn last_listed(values: &[i64], cells: &Cells, var: VarId) -> Option<i64>
    requires var { var.0 < length cells.now.state.starts }
    requires rises { Rises values.now }
    ensures { IsGreatestFound (Listed values.now) (cell_of cells.now.state var.0) result }
{
    let mut behind = values.len();
    while behind > 0 {
        let value = values[behind - 1];
        if cells.has(var, value) {
            return Some(value);
        }
        behind -= 1;
    }
    None
}
