use fzn_lex::LexError;
use fzn_lower::ModelError;
use fzn_syntax::SyntaxError;

/// Why a model was refused: the first fault of its text. Want of memory is none.
#[derive(Clone, Copy, Debug, PartialEq, Eq, Drop)]
pub enum ModelFault {
    Lex(LexError),
    Syntax(SyntaxError),
    Lower(ModelError),
    /// The model has too many tuples of values to be tried.
    NotBuilt,
}
