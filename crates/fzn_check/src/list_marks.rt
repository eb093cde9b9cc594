//! Marks of the lists of declarations.
ghost use Rattle.std.specs.Prelude.{◌≡◌, Some, IfOk, MatchOption};
ghost use Rattle.fzn_values.specs.declared.literal.LiteralKind.TheVariants as literals;
ghost use Rattle.fzn_values.specs.Literals.{value_for};
ghost use Rattle.fzn_check.specs.ListMarks.{HasNoList, IsMarkOf, AreMarks, mark_at};

use crate::covers::has_different;
use fzn_syntax::{Declaration, Expression};
use fzn_values::{Constants, LiteralKind, is_literal, value_for};
use std::alloc::{AllocError, Global};

fn own_list(declaration: &Declaration) -> Option<&Expression>
    ensures { MatchOption result (HasNoList declaration.now)
        (λ l. value_for literals.List declaration.now ≡ Some l.now) }
{
    match value_for(LiteralKind::List, declaration) {
        None => None,
        Some(value) => {
            if is_literal(LiteralKind::List, value) {
                Some(value)
            } else {
                None
            }
        }
    }
}

fn mark_of(
    alloc: Global,
    values: &Constants<'_>,
    declaration: &Declaration,
) -> Result<bool, AllocError>
    ensures { IfOk result (IsMarkOf values.now declaration.now) }
{
    match own_list(declaration) {
        None => Ok(false),
        Some(list) => has_different(alloc, values, list),
    }
}

// The mark of each declaration. Each list is looked at once.
pub(crate) fn marks_of(alloc: Global, values: &Constants<'_>) -> Result<Vec<bool>, AllocError>
    ensures { IfOk result (λ marks. AreMarks values.now marks.items) }
{
    let mut marks = Vec::new(alloc);
    for declaration in values.scope().declarations() {
        let mark = mark_of(alloc, values, declaration)?;
        marks.push(mark)?;
    }
    Ok(marks)
}

// The mark at this place.
pub(crate) fn mark_at(marks: &[bool], place: usize) -> bool
    ensures { result ≡ mark_at marks.now place }
{
    match marks.get(place) {
        None => false,
        Some(mark) => *mark,
    }
}
