use crate::{LexError, Token, What, every_text_has_one_answer, lex};
use std::alloc::Global;
use std::process::Abort;
use std::test::Fail;

fn token(start: u64, end: u64, what: What) -> Token {
    Token { start, end, what }
}

fn reads<R: Abort>(rt: &R, alloc: Global, text: &[u8], want: &[Token]) -> Result<(), Fail> {
    let tokens = lex(alloc, text)?;
    assert_eq!(rt; tokens.as_slice(), want, "the tokens");
    Ok(())
}

fn refuses<R: Abort>(rt: &R, alloc: Global, text: &[u8], want: LexError) {
    match lex(alloc, text) {
        Ok(tokens) => assert_eq!(rt; tokens.len(), 0, "tokens of a text that has none"),
        Err(error) => assert_eq!(rt; error, want, "the fault"),
    }
}

#[test]
fn integers_are_read_in_three_bases(rt: HostRuntime) -> Result<(), Fail> {
    let alloc = rt.alloc();
    reads(&rt, alloc, b"5", &[token(0, 1, What::Int(5))])?;
    reads(&rt, alloc, b"-5", &[token(0, 2, What::Int(-5))])?;
    reads(&rt, alloc, b"007", &[token(0, 3, What::Int(7))])?;
    reads(&rt, alloc, b"0x1F", &[token(0, 4, What::Int(31))])?;
    reads(&rt, alloc, b"-0xaB", &[token(0, 5, What::Int(-171))])?;
    reads(&rt, alloc, b"0o17", &[token(0, 4, What::Int(15))])?;
    reads(
        &rt,
        alloc,
        b"0o178",
        &[token(0, 4, What::Int(15)), token(4, 5, What::Int(8))],
    )?;
    reads(
        &rt,
        alloc,
        b"0x",
        &[token(0, 1, What::Int(0)), token(1, 2, What::Name)],
    )?;
    reads(
        &rt,
        alloc,
        b"0o8",
        &[token(0, 1, What::Int(0)), token(1, 3, What::Name)],
    )?;
    reads(
        &rt,
        alloc,
        b"0X1f",
        &[token(0, 1, What::Int(0)), token(1, 4, What::Name)],
    )?;
    reads(
        &rt,
        alloc,
        b"1x",
        &[token(0, 1, What::Int(1)), token(1, 2, What::Name)],
    )
}

#[test]
fn integers_reach_two_to_the_62(rt: HostRuntime) -> Result<(), Fail> {
    let alloc = rt.alloc();
    let most = 4_611_686_018_427_387_904;
    reads(
        &rt,
        alloc,
        b"4611686018427387904",
        &[token(0, 19, What::Int(most))],
    )?;
    reads(
        &rt,
        alloc,
        b"-4611686018427387904",
        &[token(0, 20, What::Int(-most))],
    )?;
    reads(
        &rt,
        alloc,
        b"0x4000000000000000",
        &[token(0, 18, What::Int(most))],
    )?;
    reads(
        &rt,
        alloc,
        b"000000000000000000000001",
        &[token(0, 24, What::Int(1))],
    )
}

#[test]
fn integers_past_two_to_the_62_are_refused(rt: HostRuntime) {
    let alloc = rt.alloc();
    refuses(
        &rt,
        alloc,
        b"4611686018427387905",
        LexError::BadNumber { at: 0 },
    );
    refuses(
        &rt,
        alloc,
        b" -4611686018427387905",
        LexError::BadNumber { at: 1 },
    );
    refuses(
        &rt,
        alloc,
        b"0x4000000000000001",
        LexError::BadNumber { at: 0 },
    );
    refuses(
        &rt,
        alloc,
        b"var 0..9223372036854775807: x;",
        LexError::BadNumber { at: 7 },
    );
    refuses(
        &rt,
        alloc,
        b"99999999999999999999999999999999999999999",
        LexError::BadNumber { at: 0 },
    );
}

#[test]
fn floats_have_a_point_or_an_exponent(rt: HostRuntime) -> Result<(), Fail> {
    let alloc = rt.alloc();
    reads(&rt, alloc, b"1.5e3", &[token(0, 5, What::Float)])?;
    reads(&rt, alloc, b"-1.5E+02", &[token(0, 8, What::Float)])?;
    reads(&rt, alloc, b"1e5", &[token(0, 3, What::Float)])?;
    reads(&rt, alloc, b"1e-5", &[token(0, 4, What::Float)])?;
    reads(
        &rt,
        alloc,
        b"99999999999999999999.5",
        &[token(0, 22, What::Float)],
    )?;
    reads(
        &rt,
        alloc,
        b"1e",
        &[token(0, 1, What::Int(1)), token(1, 2, What::Name)],
    )?;
    reads(
        &rt,
        alloc,
        b"1.5e",
        &[token(0, 3, What::Float), token(3, 4, What::Name)],
    )?;
    let range = [
        token(0, 1, What::Int(1)),
        token(1, 3, What::DotDot),
        token(3, 4, What::Int(3)),
    ];
    reads(&rt, alloc, b"1..3", &range)?;
    let floats = [
        token(0, 3, What::Float),
        token(3, 5, What::DotDot),
        token(5, 6, What::Int(2)),
    ];
    reads(&rt, alloc, b"1.5..2", &floats)?;
    refuses(&rt, alloc, b"1.", LexError::BadByte { at: 1 });
    refuses(&rt, alloc, b"1e+", LexError::BadByte { at: 2 });
    refuses(&rt, alloc, b"1e5.3", LexError::BadByte { at: 3 });
    Ok(())
}

#[test]
fn texts_end_on_their_line(rt: HostRuntime) -> Result<(), Fail> {
    let alloc = rt.alloc();
    reads(&rt, alloc, b"\"\"", &[token(0, 2, What::Text)])?;
    reads(&rt, alloc, b"\"a\\\"b\"", &[token(0, 6, What::Text)])?;
    reads(
        &rt,
        alloc,
        b"\"a\\\\\"c",
        &[token(0, 5, What::Text), token(5, 6, What::Name)],
    )?;
    refuses(
        &rt,
        alloc,
        b"var 0..3: x;\n\"abc",
        LexError::OpenString { at: 13 },
    );
    refuses(&rt, alloc, b"\"a\n\"", LexError::OpenString { at: 0 });
    refuses(&rt, alloc, b"x \"a\\\n\"", LexError::OpenString { at: 2 });
    refuses(&rt, alloc, b"\"\\\"", LexError::OpenString { at: 0 });
    refuses(&rt, alloc, b"\"\\", LexError::OpenString { at: 0 });
    Ok(())
}

#[test]
fn symbols_are_the_longest_at_their_place(rt: HostRuntime) -> Result<(), Fail> {
    let alloc = rt.alloc();
    let brackets = [
        token(0, 1, What::LeftParen),
        token(1, 2, What::RightParen),
        token(2, 3, What::LeftBracket),
        token(3, 4, What::RightBracket),
        token(4, 5, What::LeftBrace),
        token(5, 6, What::RightBrace),
    ];
    reads(&rt, alloc, b"()[]{}", &brackets)?;
    let marks = [
        token(0, 1, What::Comma),
        token(1, 2, What::Semicolon),
        token(2, 4, What::DoubleColon),
        token(4, 5, What::Colon),
        token(5, 6, What::Equal),
        token(6, 8, What::DotDot),
    ];
    reads(&rt, alloc, b",;:::=..", &marks)
}

#[test]
fn other_bytes_begin_no_token(rt: HostRuntime) {
    let alloc = rt.alloc();
    refuses(&rt, alloc, b"-", LexError::BadByte { at: 0 });
    refuses(&rt, alloc, b"--5", LexError::BadByte { at: 0 });
    refuses(&rt, alloc, b"a.b", LexError::BadByte { at: 1 });
    refuses(&rt, alloc, b"...", LexError::BadByte { at: 2 });
    refuses(&rt, alloc, b"\n\x80", LexError::BadByte { at: 1 });
    refuses(&rt, alloc, b"\x00", LexError::BadByte { at: 0 });
    refuses(&rt, alloc, b"# \"abc", LexError::BadByte { at: 0 });
}

#[test]
fn names_blanks_and_comments_are_told_apart(rt: HostRuntime) -> Result<(), Fail> {
    let alloc = rt.alloc();
    reads(&rt, alloc, b"", &[])?;
    reads(
        &rt,
        alloc,
        b"_a1 \t\r\nZz",
        &[token(0, 3, What::Name), token(7, 9, What::Name)],
    )?;
    reads(&rt, alloc, b"solve", &[token(0, 5, What::Name)])?;
    reads(&rt, alloc, b"% \x80#\"\rx\nb", &[token(8, 9, What::Name)])?;
    reads(&rt, alloc, b"a%", &[token(0, 1, What::Name)])?;
    reads(&rt, alloc, b"a%b", &[token(0, 1, What::Name)])
}

#[test]
fn faults_are_told_in_words(rt: HostRuntime) -> Result<(), Fail> {
    every_text_has_one_answer();
    let alloc = rt.alloc();
    let long = format!(in alloc; "{}", LexError::TooLong)?;
    assert_eq!(rt; long.as_str(), "text too long");
    let byte = format!(in alloc; "{}", LexError::BadByte { at: 3 })?;
    assert_eq!(rt; byte.as_str(), "bad byte at byte 3");
    let number = format!(in alloc; "{}", LexError::BadNumber { at: 0 })?;
    assert_eq!(rt; number.as_str(), "bad number at byte 0");
    let string = format!(in alloc; "{}", LexError::OpenString { at: 13 })?;
    assert_eq!(rt; string.as_str(), "open string at byte 13");
    Ok(())
}
