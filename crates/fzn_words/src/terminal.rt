//! The terminals of the grammar.
ghost use Rattle.std.specs.Prelude.{◌≡◌};
ghost use Rattle.fzn_words.specs.Words.{code, leads_reserved, item_terminal, name_terminal, terminal_by};

use fzn_lex::What;

/// What a word is to the grammar: a sign, a literal, a name or a reserved word.
#[derive(Clone, Copy, Debug, PartialEq, Eq, Drop)]
pub enum Terminal {
    Name,
    Float,
    Text,
    Int,
    LeftParen,
    RightParen,
    LeftBracket,
    RightBracket,
    LeftBrace,
    RightBrace,
    Comma,
    Semicolon,
    Colon,
    DoubleColon,
    Equal,
    DotDot,
    Array,
    Bool,
    Constraint,
    False,
    FloatWord,
    IntWord,
    Maximize,
    Minimize,
    Of,
    Predicate,
    Satisfy,
    Set,
    Solve,
    True,
    Var,
}

/// A number for each terminal.
pub fn code(terminal: Terminal) -> u8
    ensures { result ≡ code terminal }
{
    terminal as u8
}

// Most names are told from reserved words by their first byte.
fn leads_reserved(text: &[u8]) -> bool
    ensures { result ≡ leads_reserved text.now }
{
    match text {
        [] => false,
        [first, ..] => matches!(
            *first,
            b'a' | b'b' | b'c' | b'f' | b'i' | b'm' | b'o' | b'p' | b's' | b't' | b'v'
        ),
    }
}

// The words of items and goals, and names.
fn item_terminal(text: &[u8]) -> Terminal
    ensures { result ≡ item_terminal text.now }
{
    if text == b"constraint".as_slice() {
        return Terminal::Constraint;
    }
    if text == b"maximize".as_slice() {
        return Terminal::Maximize;
    }
    if text == b"minimize".as_slice() {
        return Terminal::Minimize;
    }
    if text == b"predicate".as_slice() {
        return Terminal::Predicate;
    }
    if text == b"satisfy".as_slice() {
        return Terminal::Satisfy;
    }
    if text == b"solve".as_slice() {
        return Terminal::Solve;
    }
    Terminal::Name
}

// The words of types and values, and those above.
pub(crate) fn name_terminal(text: &[u8]) -> Terminal
    ensures { result ≡ name_terminal text.now }
{
    if !leads_reserved(text) {
        return Terminal::Name;
    }
    if text == b"array".as_slice() {
        return Terminal::Array;
    }
    if text == b"bool".as_slice() {
        return Terminal::Bool;
    }
    if text == b"false".as_slice() {
        return Terminal::False;
    }
    if text == b"float".as_slice() {
        return Terminal::FloatWord;
    }
    if text == b"int".as_slice() {
        return Terminal::IntWord;
    }
    if text == b"of".as_slice() {
        return Terminal::Of;
    }
    if text == b"set".as_slice() {
        return Terminal::Set;
    }
    if text == b"true".as_slice() {
        return Terminal::True;
    }
    if text == b"var".as_slice() {
        return Terminal::Var;
    }
    item_terminal(text)
}

#[tactic(auto, unfolding(crate::specs::Words::terminal_by))]
pub(crate) fn terminal_by(what: What, text: &[u8]) -> Terminal
    ensures { result ≡ terminal_by what text.now }
{
    match what {
        What::Name => name_terminal(text),
        What::Int(_) => Terminal::Int,
        What::Float => Terminal::Float,
        What::Text => Terminal::Text,
        What::LeftParen => Terminal::LeftParen,
        What::RightParen => Terminal::RightParen,
        What::LeftBracket => Terminal::LeftBracket,
        What::RightBracket => Terminal::RightBracket,
        What::LeftBrace => Terminal::LeftBrace,
        What::RightBrace => Terminal::RightBrace,
        What::Comma => Terminal::Comma,
        What::Semicolon => Terminal::Semicolon,
        What::Colon => Terminal::Colon,
        What::DoubleColon => Terminal::DoubleColon,
        What::Equal => Terminal::Equal,
        What::DotDot => Terminal::DotDot,
    }
}
