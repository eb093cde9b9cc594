//! Signs and integers at the front of a list of words.
ghost use Rattle.std.specs.Prelude.{◌≡◌, ◌↔◌, true, IsTrue};
ghost use Rattle.reading.specs.Gives.{Gives};
ghost use Rattle.reading.specs.Readers.{begins};
ghost use Rattle.fzn_words.specs.declared.terminal.Terminal.TheVariants as terminals;
ghost use Rattle.fzn_words.specs.Words.{is};
ghost use Rattle.fzn_syntax.specs.Reading.{sign_at, int_at};
ghost use Rattle.fzn_output_marks.specs.Signs.{terminal_of, is_sign};

use fzn_lex::What;
use fzn_words::Word;
use reading::ParseError;

fn is(sign: What, word: &Word) -> bool
    requires { is_sign sign ≡ true }
    ensures { result ≡ is (terminal_of sign) word.now }
{
    is_same(word.what, sign)
}

fn is_same(one: What, other: What) -> bool
    ensures { IsTrue result ↔ one ≡ other }
{
    one == other
}

pub(crate) fn next_is(sign: What, words: &[Word]) -> bool
    requires { is_sign sign ≡ true }
    ensures { result ≡ begins (is (terminal_of sign)) words.now }
{
    match words {
        [] => false,
        [word, ..] => is(sign, word),
    }
}

pub(crate) fn next_is_int(words: &[Word]) -> bool
    ensures { result ≡ begins (is terminals.Int) words.now }
{
    match words {
        [] => false,
        [word, ..] => is_int(word),
    }
}

fn is_int(word: &Word) -> bool
    ensures { result ≡ is terminals.Int word.now }
{
    matches!(word.what, What::Int(_))
}

#[tactic(auto, unfolding(fzn_syntax::specs::Reading::sign_at))]
pub(crate) fn read_sign(sign: What, words: &[Word]) -> Result<&[Word], ParseError>
    requires { is_sign sign ≡ true }
    ensures { Gives (λ x. (tt, x.now)) result (sign_at (terminal_of sign) words.now) }
{
    match words {
        [] => Err(ParseError::Stuck(0)),
        [word, rest @ ..] => {
            if is(sign, word) {
                Ok(rest)
            } else {
                Err(ParseError::Stuck(words.len()))
            }
        }
    }
}

#[tactic(auto, unfolding(fzn_syntax::specs::Reading::int_at))]
pub(crate) fn read_int(words: &[Word]) -> Result<(i64, &[Word]), ParseError>
    ensures { Gives (λ x. (x.0, x.1.now)) result (int_at words.now) }
{
    match words {
        [] => Err(ParseError::Stuck(0)),
        [word, rest @ ..] => match word.what {
            What::Int(value) => Ok((value, rest)),
            _ => Err(ParseError::Stuck(words.len())),
        },
    }
}
