//! Relations over intervals: what is certain of all numbers between two ends, and what none of them meets.
ghost use Rattle.std.specs.Prelude.{◌≡◌};
ghost use Rattle.dom_core.specs.Ends.{HasBits, IsOrdered};
ghost use Rattle.kind_parts.specs.Relation.{certain_by, is_difference, is_equality, is_only_value, is_related, kept_by, refuted_by, truth_over, bound_row};

use dom_core::{Interval, Relation};

/// Whether the number stands in the relation to the bound.
pub fn is_met(relation: Relation, number: i128, bound: i64) -> bool
    ensures { result ≡ is_related relation number bound }
{
    let bound = bound as i128;
    match relation {
        Relation::AtMost => number <= bound,
        Relation::Equal => number == bound,
        Relation::Differ => number != bound,
    }
}

/// Whether no number between the ends stands in the relation.
pub fn is_refuted(relation: Relation, interval: Interval, bound: i64) -> bool
    ensures { result ≡ refuted_by relation interval bound }
{
    let bound = bound as i128;
    match relation {
        Relation::AtMost => bound < interval.lo(),
        Relation::Equal => !interval.has(bound),
        Relation::Differ => is_only(interval, bound),
    }
}

/// Whether each number between the ends stands in the relation.
pub fn is_certain(relation: Relation, interval: Interval, bound: i64) -> bool
    ensures certain { result ≡ certain_by relation interval bound }
    ensures ordered { IsOrdered interval }
{
    let bound = bound as i128;
    let lo = interval.lo();
    let hi = interval.hi();
    match relation {
        Relation::AtMost => hi <= bound,
        Relation::Equal => lo == bound && hi == bound,
        Relation::Differ => !interval.has(bound),
    }
}

/// The truths of numbers between the ends: 1 where it is certain, 0 where it is refuted, else both.
pub fn truth_over(relation: Relation, interval: Interval, bound: i64) -> Interval
    ensures truth { result ≡ truth_over relation interval bound }
    ensures bits { HasBits 1 result }
{
    if is_certain(relation, interval, bound) {
        return Interval::new(1, 1);
    }
    if is_refuted(relation, interval, bound) {
        return Interval::new(0, 0);
    }
    Interval::new(0, 1)
}

/// Whether the relation stays where the number changes so and lies there afterwards.
pub fn is_kept(relation: Relation, change: Interval, after: Interval, bound: i64) -> bool
    ensures { result ≡ kept_by relation change after bound }
{
    let bound = bound as i128;
    match relation {
        Relation::AtMost => change.hi() <= 0 || after.hi() <= bound,
        Relation::Equal => is_only(change, 0) || is_only(after, bound),
        Relation::Differ => is_only(change, 0) || !after.has(bound),
    }
}

/// Whether the number is the only one of the interval.
pub fn is_only(interval: Interval, value: i128) -> bool
    ensures { result ≡ is_only_value interval value }
{
    interval.lo() == value && interval.hi() == value
}

/// Whether the number is to be equal.
pub fn is_equality(relation: Relation) -> bool
    ensures { result ≡ is_equality relation }
{
    match relation {
        Relation::AtMost => false,
        Relation::Equal => true,
        Relation::Differ => false,
    }
}

/// Whether the number is to differ.
pub fn is_difference(relation: Relation) -> bool
    ensures { result ≡ is_difference relation }
{
    match relation {
        Relation::AtMost => false,
        Relation::Equal => false,
        Relation::Differ => true,
    }
}

/// How the truth may change that a number is at most a bound, where the number changes so.
pub fn bound_row(change: Interval) -> Interval
    ensures { result ≡ bound_row change }
{
    let lo = if change.hi() <= 0 { 0 } else { -1 };
    let hi = if 0 <= change.lo() { 0 } else { 1 };
    Interval::new(lo, hi)
}
