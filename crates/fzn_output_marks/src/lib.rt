//! What annotations at a declaration mark for printing.
#![tactic(auto)]

mod gaps;
mod literal;
mod marks;
mod sets;
mod sign;

pub use marks::{is_output_array, is_output_var};
pub use sets::{index_sets, right_sets};

#[cfg(test)]
mod tests;
