//! Which expressions stand for integers that are different.
ghost use Rattle.std.specs.Prelude.{◌≡◌, ◌↔◌, ℕ, Some, slice_get, IsTrue, IfOk};
ghost use Rattle.fzn_syntax.specs.declared.declaration.Declaration.{Declaration};
ghost use Rattle.fzn_check.specs.ListMarks.{IsMarkOf};
ghost use Rattle.fzn_check.specs.Shapes.{HasDifferent, HasDifferentAt};

use crate::covers::has_different;
use crate::list_marks::{mark_at, marks_of};
use fzn_syntax::Expression;
use fzn_values::Constants;
use std::alloc::{AllocError, Global};
use std::marker::Model;

// The declarations of a text with what is known of their lists.
#[derive(Drop)]
pub(crate) struct Distinct<'a> {
    values: &'a Constants<'a>,
    marks: Vec<bool>,
}

impl<'a> Model for Distinct<'a> {
    ghost use Rattle.std.specs.Prelude.{List};
    ghost use Rattle.fzn_syntax.specs.declared.declaration.Declaration.{Declaration};
    ghost use Rattle.fzn_check.specs.ListMarks.{AreMarks};

    ghost Value = { List Declaration };

    ghost view = { λ d. d.values.now };

    ghost invariant = { λ d. AreMarks d.values.now d.marks.items };
}

impl<'a> Distinct<'a> {
    // Each list of a declaration is looked at once.
    pub(crate) fn new(alloc: Global, values: &'a Constants<'a>) -> Result<Distinct<'a>, AllocError>
        ensures { IfOk result (λ d. d ≡ values.now) }
    {
        let marks = marks_of(alloc, values)?;
        Ok(Distinct { values, marks })
    }

    pub(crate) fn values(&self) -> &'a Constants<'a>
        ensures { result.now ≡ self.now }
    {
        self.values
    }

    fn mark(&self, place: usize) -> bool
        ensures { (d : Declaration) → slice_get self.now place ≡ Some d → IsMarkOf self.now d result }
    {
        mark_at(self.marks.as_slice(), place)
    }

    // Whether the expression stands for integers that are different.
    fn has_different(&self, alloc: Global, expression: &Expression) -> Result<bool, AllocError>
        ensures { IfOk result (λ b. IsTrue b ↔ HasDifferent self.now expression.now) }
    {
        let values = self.values();
        match values.place_of_list(expression) {
            None => has_different(alloc, values, expression),
            Some(place) => Ok(self.mark(place)),
        }
    }

    // Whether the argument at this place stands for integers that are different.
    pub(crate) fn has_different_at(
        &self,
        alloc: Global,
        arguments: &[Expression],
        place: usize,
    ) -> Result<bool, AllocError>
        ensures { IfOk result (λ b. IsTrue b ↔ HasDifferentAt self.now arguments.now place) }
    {
        match arguments.get(place) {
            None => Ok(false),
            Some(argument) => self.has_different(alloc, argument),
        }
    }
}
