//! The text of an answer.
#![tactic(auto)]

mod array;
#[cfg(test)]
mod tests;
mod text;
mod value;

pub use text::answer_text;
