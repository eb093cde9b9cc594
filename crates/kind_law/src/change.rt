//! The change of a defined variable.
ghost use Rattle.std.specs.Prelude.{◌≡◌, false, length};
ghost use Rattle.dom_core.specs.Ends.{HasBits, difference_ends};
ghost use Rattle.kind_law.specs.Laws.{AllBelow, all_still, is_still};
ghost use Rattle.kind_law.specs.DefineLaws.{changed_by};

use dom_core::{Interval, VarId, View};

/// What the row of changes and the ranges before and after both allow, or the ranges alone where that is nothing.
pub fn change_by(row: Interval, before: Interval, after: Interval) -> Interval
    requires before { HasBits 102 before }
    requires after { HasBits 102 after }
    ensures { result ≡ changed_by false row before after }
{
    let difference = difference_of(after, before);
    match row.meet(difference) {
        Some(both) => both,
        None => difference,
    }
}

/// The differences of an integer of the one and an integer of the other.
pub fn difference_of(after: Interval, before: Interval) -> Interval
    requires after { HasBits 102 after }
    requires before { HasBits 102 before }
    ensures { result ≡ difference_ends after before }
{
    Interval::new(after.lo() - before.hi(), after.hi() - before.lo())
}

/// Whether the view moves none of the variables.
pub fn are_still(vars: &[VarId], view: &View) -> bool
    requires { AllBelow (length view.now) vars.now }
    ensures { result ≡ all_still vars.now view.now }
{
    for var in vars {
        if !is_zero(view.change(*var)) {
            return false;
        }
    }
    true
}

/// Whether the interval is 0 alone.
fn is_zero(interval: Interval) -> bool
    ensures { result ≡ is_still interval }
{
    interval.lo() == 0 && interval.hi() == 0
}
