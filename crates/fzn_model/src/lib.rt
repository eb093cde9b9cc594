//! What the items of a text are put together as: variables, constraints and which of these define variables, a goal and outputs.
#![tactic(auto)]

mod defining;
mod drafting;
mod error;
mod goal;
mod initial;
mod marks;
mod outputs;
mod posting;
mod variables;

pub use drafting::{draft_of, one_draft};
pub use error::ResolveError;

#[cfg(test)]
mod tests;
