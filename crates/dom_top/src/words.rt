ghost use Rattle.std.specs.Prelude.{◌↔◌, ◌∷◌, [], IsTrue};
ghost use Rattle.dom_top.specs.Words.{IsPlain, IsReading, bytes_of};

use thiserror::Error;

/// What the words ask for.
#[derive(Clone, Copy, Debug, PartialEq, Eq, Drop)]
pub enum Command<'a> {
    Solve { model: &'a str },
    Show { model: &'a str },
}

/// Why words were refused.
#[derive(Clone, Copy, Debug, PartialEq, Eq, Drop, Error)]
pub enum WordsError {
    #[error("words refused")]
    Refused,
}

/// Reads the words after the program's name.
pub fn read_words(words: &[String]) -> Result<Command<'_>, WordsError>
    ensures { IsReading (bytes_of words.now) result }
{
    match words {
        [command, model] if is_plain(model.as_str()) => {
            command_of(command.as_str(), model.as_str())
        }
        _ => Err(WordsError::Refused),
    }
}

// The command of this name over a model.
fn command_of<'a>(command: &str, model: &'a str) -> Result<Command<'a>, WordsError>
    requires { IsPlain model.now }
    ensures { IsReading (command.now ∷ model.now ∷ []) result }
{
    if command == "solve" {
        return Ok(Command::Solve { model });
    }
    if command == "show" {
        return Ok(Command::Show { model });
    }
    Err(WordsError::Refused)
}

// Whether a word stands for itself, and is not empty or an option.
fn is_plain(word: &str) -> bool
    ensures { IsTrue result ↔ IsPlain word.now }
{
    match word.as_bytes() {
        [] => false,
        [first, ..] => *first != b'-',
    }
}
