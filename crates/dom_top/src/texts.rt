//! From the bytes of a text to its items and its model.
ghost use Rattle.std.specs.Prelude.{◌≡◌, Ok};
ghost use Rattle.fzn_lex.specs.Cutting.{IsLexed};
ghost use Rattle.dom_top.specs.Texts.{HasItems, EveryTextHasOneOutcome};
ghost use Rattle.dom_top.specs.Reading.{IsItemsOf, IsReadingOf};

use crate::fault::ModelFault;
use dom_model::Model;
use fzn_lex::{LexError, Token, lex};
use fzn_lower::{ModelError, lower};
use fzn_syntax::{Items, SyntaxError, parse};
use std::alloc::Global;

/// The most bytes of a text.
pub(crate) const TEXT_LIMIT: usize = 16_777_216;

/// The items of a text, and the model that they stand for.
#[derive(Drop)]
pub(crate) struct Reading {
    pub(crate) items: Items,
    pub(crate) model: Model,
}

/// Why a text gives no model.
#[derive(Drop)]
pub(crate) enum ReadingError {
    Fault(ModelFault),
    Memory,
}

// The items of a text and its model, or the first fault.
pub(crate) fn read_text(alloc: Global, text: &[u8]) -> Result<Reading, ReadingError>
    ensures { IsReadingOf text.now result }
{
    let items = items_of(alloc, text)?;
    match lower(alloc, &items) {
        Ok(model) => Ok(Reading { items, model }),
        Err(error) if error == ModelError::Memory => Err(ReadingError::Memory),
        Err(error) => Err(ReadingError::Fault(ModelFault::Lower(error))),
    }
}

// The items of a text, or the first fault of its bytes and tokens.
fn items_of(alloc: Global, text: &[u8]) -> Result<Items, ReadingError>
    ensures { IsItemsOf text.now result }
{
    match lex(alloc, text) {
        Ok(tokens) => items_of_tokens(alloc, text, tokens.as_slice()),
        Err(error) if error == LexError::Memory => Err(ReadingError::Memory),
        Err(error) => Err(ReadingError::Fault(ModelFault::Lex(error))),
    }
}

// The items of a text that has these tokens, or the first fault of the tokens.
fn items_of_tokens(alloc: Global, text: &[u8], tokens: &[Token]) -> Result<Items, ReadingError>
    requires { IsLexed text.now (Ok tokens.now) }
    ensures { IsItemsOf text.now result }
{
    match parse(alloc, text, tokens) {
        Ok(items) => Ok(items),
        Err(error) if error == SyntaxError::Memory => Err(ReadingError::Memory),
        Err(error) => Err(ReadingError::Fault(ModelFault::Syntax(error))),
    }
}

/// Every text has one outcome: one model, or one first fault, and not both. So a refusal comes exactly where it
/// should, and with the first fault. The call does nothing.
pub fn every_text_has_one_outcome()
    ensures { EveryTextHasOneOutcome }
{
    fzn_lex::every_text_has_one_answer();
    fzn_syntax::tokens_have_one_answer();
    fzn_lower::items_have_one_answer();
}
