//! The bytes of the symbols.

ghost use Rattle.std.specs.Prelude.{◌≡◌};
ghost use Rattle.fzn_print.specs.Spelling.{symbol_of};

use fzn_lex::What;

// The bytes of a symbol, and none of a token that is no symbol.
pub(crate) fn symbol(what: What) -> &'static [u8]
    ensures { result.now ≡ symbol_of what }
{
    match what {
        What::LeftParen => b"(",
        What::RightParen => b")",
        What::LeftBracket => b"[",
        What::RightBracket => b"]",
        What::LeftBrace => b"{",
        What::RightBrace => b"}",
        What::Comma => b",",
        What::Semicolon => b";",
        What::Colon => b":",
        What::DoubleColon => b"::",
        What::Equal => b"=",
        What::DotDot => b"..",
        _ => b"",
    }
}
