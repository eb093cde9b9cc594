//! Models: variables, constraints and a goal; which assignments are feasible, and which of them is the least.
#![tactic(auto)]

mod analysis;
mod builder;
mod error;
mod finishing;
mod goal;
mod model;
mod outcome;
mod output;
mod solved;
#[cfg(test)]
mod tests;

pub use any_kind::AnyKind;
pub use builder::ModelBuilder;
pub use dom_definers::{Declared, Form, Variable};
pub use error::BuildError;
pub use goal::Goal;
pub use model::Model;
pub use outcome::drafts_have_one_outcome;
pub use output::{Args, Output};
pub use solved::place_of;
