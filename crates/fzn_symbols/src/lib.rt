//! The symbol table of a text: what its names are, and the first name that is at fault.
#![tactic(auto)]

mod base;
mod error;
mod identifier;
mod names;
mod numbering;
mod occurrence;
mod occurrences;
mod scope;
mod scoping;
mod sort;
mod typing;
mod walk;

pub use base::{Base, base_of_parameter, base_of_variable};
pub use error::NameError;
pub use identifier::identifier_of;
pub use scope::Scope;
pub use scoping::{items_have_one_scope, scope_of};
pub use sort::{Sort, sort_of};
pub use typing::{Instantiation, are_all, fits, has_sort, is_scalar};

#[cfg(test)]
mod number_tests;
#[cfg(test)]
mod scope_tests;
#[cfg(test)]
mod sort_tests;
