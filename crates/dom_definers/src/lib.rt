//! Which constraint gives a variable its value, and what interval it can have.
#![tactic(auto)]

mod declared;
mod definers;
mod dependence;
mod domain;
mod form;
mod hulls;
mod keeping;
mod known;
mod one;
mod posted;
mod solving;
#[cfg(test)]
mod tests;
mod variable;
mod width;

pub use declared::declared_hull;
pub use definers::definers_of;
pub use dependence::dependence_of;
pub use domain::domain_of;
pub use form::{Declared, Form};
pub use hulls::Hulls;
pub use keeping::kept_definers;
pub use known::every_hull_is_known;
pub use one::{definers_are_one, hulls_are_one};
pub use posted::Posted;
pub use solving::hulls_of;
pub use variable::Variable;
pub use width::first_too_wide;
