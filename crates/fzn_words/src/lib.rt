//! The words of a FlatZinc text: its tokens, with what a grammar needs of their bytes.
#![tactic(auto)]

mod spelling;
mod terminal;
mod word;

pub use spelling::Spelling;
pub use terminal::{Terminal, code};
pub use word::{Word, kept_text, split_first, terminal_of, word_of};

#[cfg(test)]
mod tests;
