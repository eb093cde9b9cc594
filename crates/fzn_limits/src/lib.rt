//! What items have too much of, and constraints that there are not.
#![tactic(auto)]

mod entries;
mod lengths;
mod sizes;
mod too_many;
mod unlisted;

pub use entries::{argument_entries, entries_are_bounded};
pub use sizes::count_items;
pub use too_many::TooMany;
pub use unlisted::first_unknown_constraint;

#[cfg(test)]
mod tests;
