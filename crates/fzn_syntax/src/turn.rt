//! How arguments are followed word by word.
ghost use Rattle.std.specs.Prelude.{◌≡◌};
ghost use Rattle.fzn_words.specs.Words.{code};
ghost use Rattle.fzn_syntax.specs.declared.turn.Place.TheVariants as places;
ghost use Rattle.fzn_syntax.specs.Turns.{start, closer, finish, member, turn};

use fzn_words::{Terminal, code};

/// What may stand next.
#[derive(Clone, Copy, Debug, PartialEq, Eq, Drop)]
pub enum Place {
    /// An argument or the closing bracket.
    First,
    /// An argument.
    Want,
    /// A comma or the closing bracket.
    After,
    /// The same, or a parenthesis behind the name.
    Named,
    /// The same, or `..` behind the number.
    Number,
    /// The upper number.
    Dots,
    /// A number or the closing brace.
    SetFirst,
    /// A number.
    SetWant,
    /// A comma or the closing brace.
    SetAfter,
}

/// What a word does.
#[derive(Clone, Copy, Debug, PartialEq, Eq, Drop)]
pub enum Turn {
    /// It is wrong.
    Stop,
    /// It closes the innermost bracket.
    Pop,
    Stay(Place),
    /// It opens a parenthesis, or a bracket.
    Push(bool),
}

/// What became of a position with a word.
#[derive(Clone, Copy, Debug, PartialEq, Eq, Drop)]
pub enum Moved {
    /// The word is wrong.
    Stop,
    /// It closes the outermost bracket.
    Done,
    On,
}

fn start(terminal: Terminal) -> Turn
    ensures { result ≡ start (code terminal) }
{
    match terminal {
        Terminal::True | Terminal::False | Terminal::Text => Turn::Stay(Place::After),
        Terminal::Name => Turn::Stay(Place::Named),
        Terminal::Int | Terminal::Float => Turn::Stay(Place::Number),
        Terminal::LeftBrace => Turn::Stay(Place::SetFirst),
        Terminal::LeftBracket => Turn::Push(false),
        Terminal::LeftParen
        | Terminal::RightParen
        | Terminal::RightBracket
        | Terminal::RightBrace
        | Terminal::Comma
        | Terminal::Semicolon
        | Terminal::Colon
        | Terminal::DoubleColon
        | Terminal::Equal
        | Terminal::DotDot
        | Terminal::Array
        | Terminal::Bool
        | Terminal::Constraint
        | Terminal::FloatWord
        | Terminal::IntWord
        | Terminal::Maximize
        | Terminal::Minimize
        | Terminal::Of
        | Terminal::Predicate
        | Terminal::Satisfy
        | Terminal::Set
        | Terminal::Solve
        | Terminal::Var => Turn::Stop,
    }
}

fn closer(paren: bool) -> u8
    ensures { result ≡ closer paren }
{
    if paren {
        code(Terminal::RightParen)
    } else {
        code(Terminal::RightBracket)
    }
}

fn finish(paren: bool, terminal: Terminal) -> Turn
    ensures { result ≡ finish paren (code terminal) }
{
    if code(terminal) == code(Terminal::Comma) {
        return Turn::Stay(Place::Want);
    }
    if code(terminal) == closer(paren) {
        return Turn::Pop;
    }
    Turn::Stop
}

fn member(terminal: Terminal) -> Turn
    ensures { result ≡ member (code terminal) }
{
    if code(terminal) == code(Terminal::Int) || code(terminal) == code(Terminal::Float) {
        return Turn::Stay(Place::SetAfter);
    }
    Turn::Stop
}

#[tactic(auto, unfolding(crate::specs::Turns::turn))]
fn first(paren: bool, terminal: Terminal) -> Turn
    ensures { result ≡ turn places.First paren (code terminal) }
{
    if code(terminal) == closer(paren) {
        return Turn::Pop;
    }
    start(terminal)
}

#[tactic(auto, unfolding(crate::specs::Turns::turn))]
fn named(paren: bool, terminal: Terminal) -> Turn
    ensures { result ≡ turn places.Named paren (code terminal) }
{
    if code(terminal) == code(Terminal::LeftParen) {
        return Turn::Push(true);
    }
    finish(paren, terminal)
}

#[tactic(auto, unfolding(crate::specs::Turns::turn))]
fn number(paren: bool, terminal: Terminal) -> Turn
    ensures { result ≡ turn places.Number paren (code terminal) }
{
    if code(terminal) == code(Terminal::DotDot) {
        return Turn::Stay(Place::Dots);
    }
    finish(paren, terminal)
}

#[tactic(auto, unfolding(crate::specs::Turns::turn))]
fn dots(paren: bool, terminal: Terminal) -> Turn
    ensures { result ≡ turn places.Dots paren (code terminal) }
{
    if code(terminal) == code(Terminal::Int) || code(terminal) == code(Terminal::Float) {
        return Turn::Stay(Place::After);
    }
    Turn::Stop
}

#[tactic(auto, unfolding(crate::specs::Turns::turn))]
fn set_first(paren: bool, terminal: Terminal) -> Turn
    ensures { result ≡ turn places.SetFirst paren (code terminal) }
{
    if code(terminal) == code(Terminal::RightBrace) {
        return Turn::Stay(Place::After);
    }
    member(terminal)
}

#[tactic(auto, unfolding(crate::specs::Turns::turn))]
fn set_after(paren: bool, terminal: Terminal) -> Turn
    ensures { result ≡ turn places.SetAfter paren (code terminal) }
{
    if code(terminal) == code(Terminal::Comma) {
        return Turn::Stay(Place::SetWant);
    }
    if code(terminal) == code(Terminal::RightBrace) {
        return Turn::Stay(Place::After);
    }
    Turn::Stop
}

#[tactic(auto, unfolding(crate::specs::Turns::turn))]
pub(crate) fn turn_of(place: Place, paren: bool, terminal: Terminal) -> Turn
    ensures { result ≡ turn place paren (code terminal) }
{
    match place {
        Place::First => first(paren, terminal),
        Place::Want => start(terminal),
        Place::After => finish(paren, terminal),
        Place::Named => named(paren, terminal),
        Place::Number => number(paren, terminal),
        Place::Dots => dots(paren, terminal),
        Place::SetFirst => set_first(paren, terminal),
        Place::SetWant => member(terminal),
        Place::SetAfter => set_after(paren, terminal),
    }
}
