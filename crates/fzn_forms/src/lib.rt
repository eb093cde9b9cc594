//! The kinds of constraint items.
#![tactic(auto)]

mod argument;
mod error;
mod kinds;
mod making;
mod parts;
mod typed;

pub use argument::Argument;
pub use error::FormError;
pub use kinds::{kind_of, one_kind};

#[cfg(test)]
mod tests;
