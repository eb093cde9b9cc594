//! FlatZinc text cut into tokens.
#![tactic(auto)]

mod classes;
mod errors;
mod lexing;
mod numbers;
mod pieces;
mod scanning;
mod symbols;
mod texts;
mod tokens;
mod words;

pub use errors::LexError;
pub use lexing::{every_text_has_one_answer, lex};
pub use tokens::Token;
pub use words::What;

#[cfg(test)]
mod tests;
