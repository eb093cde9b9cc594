//! Which annotations are right at an array of variables.
ghost use Rattle.std.specs.Prelude.{◌≡◌, ◌↔◌, ◌<ℤ◌, pos, IsTrue, IfOk, MatchOption};
ghost use Rattle.fzn_check.specs.OutputArrays.{IndexesArray, IsOutputArrayOf, AreOutputArraysOf};

use fzn_output_marks::{is_output_array, right_sets};
use fzn_syntax::{Annotation, VariableArray};
use std::alloc::{AllocError, Global};

pub(crate) fn are_output_arrays(alloc: Global, array: &VariableArray) -> Result<bool, AllocError>
    ensures { IfOk result (λ right. IsTrue right ↔ AreOutputArraysOf array.now) }
{
    let annotations = array.annotations.as_slice();
    for annotation in annotations {
        let right = is_output_array_of(alloc, array, annotation)?;
        if !right {
            return Ok(false);
        }
    }
    Ok(true)
}

fn is_output_array_of(
    alloc: Global,
    array: &VariableArray,
    annotation: &Annotation,
) -> Result<bool, AllocError>
    ensures { IfOk result (λ right. IsTrue right ↔ IsOutputArrayOf array.now.index.last annotation.now) }
{
    if is_output_array(annotation) {
        indexes_array(alloc, array, annotation)
    } else {
        Ok(true)
    }
}

fn indexes_array(
    alloc: Global,
    array: &VariableArray,
    annotation: &Annotation,
) -> Result<bool, AllocError>
    ensures { IfOk result (λ right. IsTrue right ↔ IndexesArray array.now.index.last annotation.now) }
{
    match length_of(array) {
        None => Ok(false),
        Some(length) => right_sets(alloc, annotation, length),
    }
}

fn length_of(array: &VariableArray) -> Option<u64>
    ensures { MatchOption result (array.now.index.last <ℤ pos 0) (λ n. array.now.index.last ≡ pos n) }
{
    let last = array.index.last;
    if last < 0 {
        None
    } else {
        Some(last.unsigned_abs())
    }
}
