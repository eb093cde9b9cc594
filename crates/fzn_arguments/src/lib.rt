//! What the arguments of constraints stand for: constants, and variables by their numbers.
#![tactic(auto)]

mod args;
mod numbers;

pub use args::{arg_of, args_in, args_of, one_argument, scalar_arg};
pub use numbers::{numbers_of, variable_named};

#[cfg(test)]
mod tests;
