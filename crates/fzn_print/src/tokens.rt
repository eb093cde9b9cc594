//! The bytes of a token.

ghost use Rattle.std.specs.Prelude.{◌≡◌, ◌++◌, List, ℕ, OnOk, OnErr};
ghost use Rattle.std.specs.Fmt.{signed_decimal};
ghost use Rattle.fzn_lex.specs.declared.words.What.{What};
ghost use Rattle.fzn_lex.specs.Tokens.{Spells};
ghost use Rattle.fzn_lex.specs.Kept.{IsKept};
ghost use Rattle.fzn_print.specs.Spelling.{spelling_of};

use crate::symbols::symbol;
use fzn_lex::What;
use itoa::Buffer;
use std::alloc::AllocError;

/// Appends the token: a name, a float and a text by these bytes, an integer in decimal, and a
/// symbol by its own.
pub fn write_token(out: &mut Vec<u8>, what: What, text: &[u8]) -> Result<(), AllocError>
    ensures ok { OnOk result (out.new.items ≡ out.old.items ++ spelling_of what text.now) }
    ensures err { OnErr result (out.new.items ≡ out.old.items) }
{
    match what {
        What::Name | What::Float | What::Text => out.extend_from_slice(text),
        What::Int(value) => write_integer(out, value),
        _ => out.extend_from_slice(symbol(what)),
    }
}

fn write_integer(out: &mut Vec<u8>, value: i64) -> Result<(), AllocError>
    ensures ok { OnOk result (out.new.items ≡ out.old.items ++ signed_decimal value) }
    ensures err { OnErr result (out.new.items ≡ out.old.items) }
{
    let mut buffer = Buffer::new();
    out.extend_from_slice(buffer.format(value).as_bytes())
}

/// What is written of a token is a spelling of it, where its bytes were one. The call does nothing.
pub fn every_token_is_spelled()
    ensures { (what : What) (text : List ℕ) → IsKept what text → Spells what (spelling_of what text) }
{}
