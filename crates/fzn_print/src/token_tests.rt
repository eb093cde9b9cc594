use crate::{every_token_is_spelled, write_token};
use fzn_lex::What;
use std::alloc::Global;
use std::process::Abort;
use std::test::Fail;

fn writes<R: Abort>(
    rt: &R,
    alloc: Global,
    what: What,
    text: &[u8],
    want: &[u8],
) -> Result<(), Fail> {
    let mut out = Vec::from_slice(alloc, b"x ")?;
    write_token(&mut out, what, text)?;
    assert_eq!(rt; &out[..2], b"x ".as_slice(), "what stood before");
    assert_eq!(rt; &out[2..], want, "the token");
    Ok(())
}

#[test]
fn tokens_are_appended(rt: HostRuntime) -> Result<(), Fail> {
    every_token_is_spelled();
    let alloc = rt.alloc();
    writes(&rt, alloc, What::Name, b"x1", b"x1")?;
    writes(&rt, alloc, What::Float, b"1.50e3", b"1.50e3")?;
    writes(&rt, alloc, What::Text, b"\"a b\"", b"\"a b\"")?;
    writes(&rt, alloc, What::Int(0), b"0x0", b"0")?;
    writes(&rt, alloc, What::Int(-17), b"", b"-17")?;
    writes(
        &rt,
        alloc,
        What::Int(4_611_686_018_427_387_904),
        b"",
        b"4611686018427387904",
    )?;
    writes(&rt, alloc, What::LeftParen, b"", b"(")?;
    writes(&rt, alloc, What::RightParen, b"", b")")?;
    writes(&rt, alloc, What::LeftBracket, b"", b"[")?;
    writes(&rt, alloc, What::RightBracket, b"", b"]")?;
    writes(&rt, alloc, What::LeftBrace, b"", b"{")?;
    writes(&rt, alloc, What::RightBrace, b"", b"}")?;
    writes(&rt, alloc, What::Comma, b"", b",")?;
    writes(&rt, alloc, What::Semicolon, b"", b";")?;
    writes(&rt, alloc, What::Colon, b"", b":")?;
    writes(&rt, alloc, What::DoubleColon, b"", b"::")?;
    writes(&rt, alloc, What::Equal, b"", b"=")?;
    writes(&rt, alloc, What::DotDot, b"", b"..")
}
