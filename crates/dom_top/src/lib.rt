//! The program above its crates: words, answers and messages.
#![tactic(auto)]

mod answer;
mod fault;
mod message;
mod running;
mod showing;
mod solving;
#[cfg(test)]
mod tests;
mod texts;
mod words;
mod writing;

pub use answer::{Answer, Status};
pub use fault::ModelFault;
pub use message::{line_of, tell};
pub use running::run;
pub use texts::every_text_has_one_outcome;
pub use words::{Command, WordsError, read_words};
