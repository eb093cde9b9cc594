//! The type check: which declaration or constraint of a text is the first at fault, and whether its goal is.
#![tactic(auto)]

mod argument;
mod constraints;
mod covers;
mod declarations;
mod declares;
mod distinct;
mod fault;
mod floats;
mod goal;
mod graph;
mod length;
mod list_marks;
mod lookup;
mod output_arrays;
mod posted;
mod value;
mod well_typed;

pub use argument::is_of_type;
pub use constraints::{constraints_have_one_first_fault, first_constraint_fault};
pub use declarations::{declarations_have_one_first_fault, first_declaration_fault};
pub use declares::declares_float_or_set;
pub use fault::Fault;
pub use floats::{has_float_or_set, is_float_or_set, names_float_or_set};
pub use goal::solve_fault;
pub use posted::is_posted;
pub use well_typed::is_well_typed;

#[cfg(test)]
mod constraint_tests;
#[cfg(test)]
mod declaration_tests;
#[cfg(test)]
mod float_tests;
