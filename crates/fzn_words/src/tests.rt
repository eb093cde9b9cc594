//! The words of a short text.
use crate::{Spelling, Terminal, code, kept_text, split_first, terminal_of, word_of};
use fzn_lex::lex;
use std::test::Fail;

const TEXT: &str = "var xs = -3 1.5 \"a\" [";

const WORDS: [(Terminal, &str, u64); 7] = [
    (Terminal::Var, "var", 0),
    (Terminal::Name, "xs", 4),
    (Terminal::Equal, "", 7),
    (Terminal::Int, "", 9),
    (Terminal::Float, "1.5", 12),
    (Terminal::Text, "\"a\"", 16),
    (Terminal::LeftBracket, "", 20),
];

#[test]
fn tokens_become_words(rt: HostRuntime) -> Result<(), Fail> {
    let tokens = lex(rt.alloc(), TEXT.as_bytes())?;
    let mut rest = tokens.as_slice();
    for (terminal, text, at) in WORDS {
        let (token, after) = split_first(rest).ok_or("a token")?;
        let word = word_of(rt.alloc(), TEXT.as_bytes(), token)?;
        assert!(rt;
            code(terminal_of(TEXT.as_bytes(), token)) == code(terminal),
            "{at}"
        );
        assert!(rt;
            kept_text(TEXT.as_bytes(), token) == text.as_bytes(),
            "{at}"
        );
        assert!(rt; word.text.as_bytes() == text.as_bytes(), "{at}");
        assert_eq!(rt; word.at, at, "{at}");
        rest = after;
    }
    assert!(rt; split_first(rest).is_none(), "no token is left");
    let spelling = Spelling::from_slice(rt.alloc(), b"2.5")?;
    assert!(rt;
        spelling.as_bytes() == b"2.5".as_slice(),
        "the bytes are kept"
    );
    Ok(())
}
