//! Words that say no more than their kind.
ghost use Rattle.std.specs.Prelude.{◌≡◌};
ghost use Rattle.reading.specs.Gives.{Gives};
ghost use Rattle.reading.specs.Readers.{begins};
ghost use Rattle.fzn_words.specs.Words.{words, word_of, is};
ghost use Rattle.fzn_syntax.specs.Reading.{sign_at};

use fzn_lex::Token;
use fzn_words::{Terminal, code, terminal_of};
use reading::ParseError;

pub(crate) fn is(terminal: Terminal, bytes: &[u8], token: &Token) -> bool
    ensures { result ≡ is terminal (word_of bytes.now token.now) }
{
    code(terminal_of(bytes, token)) == code(terminal)
}

pub(crate) fn next_is(terminal: Terminal, bytes: &[u8], tokens: &[Token]) -> bool
    ensures { result ≡ begins (is terminal) (words bytes.now tokens.now) }
{
    match tokens {
        [] => false,
        [token, ..] => is(terminal, bytes, token),
    }
}

#[tactic(auto, unfolding(crate::specs::Reading::sign_at))]
pub(crate) fn read_sign<'a>(
    terminal: Terminal,
    bytes: &[u8],
    tokens: &'a [Token],
) -> Result<&'a [Token], ParseError>
    ensures { Gives (λ x. (tt, words bytes.now x.now)) result (sign_at terminal (words bytes.now tokens.now)) }
{
    match tokens {
        [] => Err(ParseError::Stuck(0)),
        [token, rest @ ..] => {
            if is(terminal, bytes, token) {
                Ok(rest)
            } else {
                Err(ParseError::Stuck(tokens.len()))
            }
        }
    }
}
