/// What a token is. Reserved words are names here: the grammar tells them apart by their text.
#[derive(Clone, Copy, Debug, PartialEq, Eq, Drop)]
pub enum What {
    Name,
    /// An integer from -2^62 to 2^62.
    Int(i64),
    Float,
    Text,
    LeftParen,
    RightParen,
    LeftBracket,
    RightBracket,
    LeftBrace,
    RightBrace,
    Comma,
    Semicolon,
    Colon,
    DoubleColon,
    Equal,
    DotDot,
}
