//! Names with their places.
ghost use Rattle.std.specs.Prelude.{◌≡◌};
ghost use Rattle.reading.specs.Gives.{Gives};
ghost use Rattle.fzn_words.specs.Words.{words};
ghost use Rattle.fzn_syntax.specs.Reading.{name_at};

use crate::sign::is;
use dom_core::Name;
use fzn_lex::Token;
use fzn_words::{Terminal, kept_text};
use reading::ParseError;
use std::alloc::Global;

/// A name, and its first byte in the text.
#[derive(Debug, Drop)]
pub struct Identifier {
    pub name: Name,
    pub at: u64,
}

#[tactic(auto, unfolding(crate::specs::Reading::name_at))]
pub(crate) fn read_name<'a>(
    alloc: Global,
    bytes: &[u8],
    tokens: &'a [Token],
) -> Result<(Identifier, &'a [Token]), ParseError>
    ensures { Gives (λ x. (x.0, words bytes.now x.1.now)) result (name_at (words bytes.now tokens.now)) }
{
    match tokens {
        [] => Err(ParseError::Stuck(0)),
        [token, rest @ ..] => {
            if !is(Terminal::Name, bytes, token) {
                return Err(ParseError::Stuck(tokens.len()));
            }
            let name = Name::from_slice(alloc, kept_text(bytes, token))?;
            let at = token.start;
            Ok((Identifier { name, at }, rest))
        }
    }
}
