//! How far a variable's end may move before a sum is refuted.
ghost use Rattle.std.specs.Prelude.{◌≡◌, ◌≤ℤ◌, ◌-ℤ◌, ◌*◌, nat_lt, pos, false, FitsSigned};
ghost use Rattle.std.specs.Int.{w128};
ghost use Rattle.dom_core.specs.Ends.{IsOrdered};
ghost use Rattle.dom_core.specs.Ends.{HasBits};
ghost use Rattle.kind_sum.specs.Reach.{pulled_ends, is_pulled_off, room_of};
ghost use Rattle.kind_law.specs.Steps.{IsStepReach};
ghost use Rattle.kind_parts.specs.Relation.{refuted_by, is_only_value};
ghost use Rattle.dom_core.specs.declared.relation.Relation.TheVariants.{AtMost, Equal, Differ};

use dom_core::{Interval, Relation};
use kind_parts::is_only;

/// What a variable's end does to a sum: with each of its steps the least sum rises by `size`, or else the greatest falls
/// by it.
#[derive(Clone, Copy, Debug, PartialEq, Eq)]
pub(crate) struct Pull {
    pub(crate) rises: bool,
    pub(crate) size: u64,
    pub(crate) steps: u64,
}

/// How many steps the end may move, where some of its steps refute the relation.
pub(crate) fn reach(relation: Relation, total: Interval, bound: i64, pull: Pull) -> Option<u64>
    requires quiet { refuted_by relation total bound ≡ false }
    requires total { HasBits 101 total }
    requires order { IsOrdered (pulled_ends pull total pull.steps) }
    ensures { IsStepReach (is_pulled_off relation total bound pull) pull.steps result }
{
    match relation {
        Relation::AtMost => bound_reach(total, bound, pull),
        Relation::Equal => value_reach(total, bound, pull),
        Relation::Differ => gap_reach(total, bound, pull),
    }
}

/// The reach where the sum is at most the bound.
fn bound_reach(total: Interval, bound: i64, pull: Pull) -> Option<u64>
    requires quiet { refuted_by AtMost total bound ≡ false }
    requires total { HasBits 101 total }
    ensures { IsStepReach (is_pulled_off AtMost total bound pull) pull.steps result }
{
    if !pull.rises {
        return None;
    }
    steps_within(gap(total.lo(), bound as i128), pull)
}

/// The reach where the sum is equal to the bound.
fn value_reach(total: Interval, bound: i64, pull: Pull) -> Option<u64>
    requires quiet { refuted_by Equal total bound ≡ false }
    requires total { HasBits 101 total }
    ensures { IsStepReach (is_pulled_off Equal total bound pull) pull.steps result }
{
    steps_within(room(total, bound, pull.rises), pull)
}

/// The reach where the sum differs from the bound: only the last step can leave the bound alone.
fn gap_reach(total: Interval, bound: i64, pull: Pull) -> Option<u64>
    requires quiet { refuted_by Differ total bound ≡ false }
    requires total { HasBits 101 total }
    requires order { IsOrdered (pulled_ends pull total pull.steps) }
    ensures { IsStepReach (is_pulled_off Differ total bound pull) pull.steps result }
{
    if is_only(pulled(total, pull), bound as i128) {
        return Some(pull.steps - 1);
    }
    None
}

/// The interval of the sum where the end moves all its steps.
fn pulled(total: Interval, pull: Pull) -> Interval
    requires total { HasBits 101 total }
    requires order { IsOrdered (pulled_ends pull total pull.steps) }
    ensures { result ≡ pulled_ends pull total pull.steps }
{
    let way = pull.size as i128 * pull.steps as i128;
    if pull.rises {
        return Interval::new(total.lo() + way, total.hi());
    }
    Interval::new(total.lo(), total.hi() - way)
}

/// How far the least sum is below the bound, or else how far the greatest is above it.
fn room(total: Interval, bound: i64, rises: bool) -> u128
    requires quiet { refuted_by Equal total bound ≡ false }
    requires total { HasBits 101 total }
    ensures { pos result ≡ room_of rises total bound }
{
    if rises {
        return gap(total.lo(), bound as i128);
    }
    gap(bound as i128, total.hi())
}

/// How far the one number is below the other.
fn gap(from: i128, to: i128) -> u128
    requires order { from ≤ℤ to }
    requires fits { FitsSigned w128 (to -ℤ from) }
    ensures { pos result ≡ to -ℤ from }
{
    (to - from).unsigned_abs()
}

/// How many steps go into the room, where not all of them do.
fn steps_within(room: u128, pull: Pull) -> Option<u64>
    ensures { IsStepReach (λ m. nat_lt room (pull.size * m)) pull.steps result }
{
    let size = pull.size as u128;
    if size * pull.steps as u128 <= room {
        return None;
    }
    Some((room / size) as u64)
}
