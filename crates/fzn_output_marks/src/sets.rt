//! The index sets that an annotation gives.
ghost use Rattle.std.specs.Prelude.{◌≡◌, ◌↔◌, ◌≤◌, List, length, IfOk, IsTrue, MatchOption};
ghost use Rattle.fzn_output_marks.specs.Answers.{IsUnread, HasNoEnds, CountAsFew, HasNoSets, IsNotSet};
ghost use Rattle.fzn_output_marks.specs.Sets.{IsArgument, CountsAs, AreIndexSets, HasIndexSets, HasNoIndexSets, HasRightSets};

use crate::gaps::whole_of;
use crate::literal::{SetLiteral, read_argument};
use dom_index_sets::{IndexSet, IndexSets};
use fzn_syntax::{Annotation, Sequence};
use fzn_words::Word;
use reading::ParseError;
use std::alloc::{AllocError, Global};

/// The most dimensions that an array can be printed with.
const MOST: usize = 6;

/// The index sets in the annotation's argument, where that is one list of one to six ranges, or sets that count as ranges.
pub fn index_sets(alloc: Global, annotation: &Annotation) -> Result<Option<IndexSets>, AllocError>
    ensures { IfOk result (λ found. MatchOption found (HasNoIndexSets annotation.now) (HasIndexSets annotation.now)) }
{
    match &annotation.arguments {
        None => Ok(None),
        Some(words) => sets_of(alloc, words.as_slice()),
    }
}

/// Whether the annotation's argument gives the index sets of an array of this length.
pub fn right_sets(alloc: Global, annotation: &Annotation, length: u64) -> Result<bool, AllocError>
    ensures { IfOk result (λ right. IsTrue right ↔ HasRightSets annotation.now length) }
{
    match index_sets(alloc, annotation)? {
        None => Ok(false),
        Some(sets) => Ok(sets.count_is(length)),
    }
}

fn sets_of(alloc: Global, words: &[Word]) -> Result<Option<IndexSets>, AllocError>
    ensures { IfOk result (λ found. MatchOption found (HasNoSets words.now) (AreIndexSets words.now)) }
{
    match argument_of(alloc, words)? {
        None => Ok(None),
        Some(literals) => ends_of_all(alloc, literals),
    }
}

fn argument_of(alloc: Global, words: &[Word]) -> Result<Option<Sequence<SetLiteral>>, AllocError>
    ensures { IfOk result (λ found. MatchOption found (IsUnread words.now) (λ ls. IsArgument ls words.now)) }
{
    match read_argument(alloc, words) {
        Ok((literals, rest)) => {
            if rest.is_empty() {
                Ok(Some(literals))
            } else {
                Ok(None)
            }
        }
        Err(ParseError::Stuck(_)) => Ok(None),
        Err(ParseError::Memory) => Err(AllocError),
    }
}

fn ends_of_all(
    alloc: Global,
    literals: Sequence<SetLiteral>,
) -> Result<Option<IndexSets>, AllocError>
    ensures { IfOk result (λ found. MatchOption found (HasNoEnds literals) (CountAsFew literals)) }
{
    if literals.len() > MOST {
        return Ok(None);
    }
    let mut sets = Vec::new(alloc);
    for literal in literals.into_vec() {
        match ends_of(literal) {
            Some(ends) => sets.push(ends)?,
            None => return Ok(None),
        }
    }
    Ok(Some(IndexSets::from_vec(sets)))
}

fn ends_of(literal: SetLiteral) -> Option<IndexSet>
    ensures { MatchOption result (IsNotSet literal) (CountsAs literal) }
{
    match literal {
        SetLiteral::Range(ends) => Some(ends),
        SetLiteral::Set(values) => whole_of(values.into_vec()),
    }
}
