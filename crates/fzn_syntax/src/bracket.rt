//! Brackets that must match.
ghost use Rattle.std.specs.Prelude.{◌≡◌};
ghost use Rattle.fzn_words.specs.Words.{code};
ghost use Rattle.fzn_syntax.specs.Balance.{closing, is_inert};

use fzn_words::Terminal;

#[derive(Clone, Copy, Debug, PartialEq, Eq, Drop)]
pub enum Bracket {
    Paren,
    Square,
    Brace,
}

pub(crate) fn closing(bracket: Bracket) -> Terminal
    ensures { result ≡ closing bracket }
{
    match bracket {
        Bracket::Paren => Terminal::RightParen,
        Bracket::Square => Terminal::RightBracket,
        Bracket::Brace => Terminal::RightBrace,
    }
}

pub(crate) fn is_inert(terminal: Terminal) -> bool
    ensures { result ≡ is_inert (code terminal) }
{
    match terminal {
        Terminal::LeftParen
        | Terminal::RightParen
        | Terminal::LeftBracket
        | Terminal::RightBracket
        | Terminal::LeftBrace
        | Terminal::RightBrace
        | Terminal::Semicolon => false,
        Terminal::Name
        | Terminal::Float
        | Terminal::Text
        | Terminal::Int
        | Terminal::Comma
        | Terminal::Colon
        | Terminal::DoubleColon
        | Terminal::Equal
        | Terminal::DotDot
        | Terminal::Array
        | Terminal::Bool
        | Terminal::Constraint
        | Terminal::False
        | Terminal::FloatWord
        | Terminal::IntWord
        | Terminal::Maximize
        | Terminal::Minimize
        | Terminal::Of
        | Terminal::Predicate
        | Terminal::Satisfy
        | Terminal::Set
        | Terminal::Solve
        | Terminal::True
        | Terminal::Var => true,
    }
}
