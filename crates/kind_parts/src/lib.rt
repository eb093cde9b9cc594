//! What kinds are made of: lists of variables, relations over intervals and their truths, and constant sets.
#![tactic(auto)]

mod plain;
mod relation;
mod sets;
#[cfg(test)]
mod tests;
mod vars;
mod walk;

pub use plain::plain_of;
pub use relation::{
    bound_row, is_certain, is_difference, is_equality, is_kept, is_met, is_only, is_refuted,
    truth_over,
};
pub use sets::{set_has, set_keeps, set_meets};
pub use vars::{DistinctVars, arg_vars, distinct_vars, is_among, is_new, is_on, with_output};
pub use walk::{Places, first_in_turn, write_ends_in_turn};
