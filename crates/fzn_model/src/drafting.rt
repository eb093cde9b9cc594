//! From items to what they are put together as.
ghost use Rattle.std.specs.Prelude.{◌≡◌, All, Ok};
ghost use Rattle.fzn_arguments.specs.Numbers.{AreNumbers};
ghost use Rattle.fzn_model.specs.Answers.{Answers};
ghost use Rattle.fzn_model.specs.Drafts.{AreFew, Drafts, DraftsOne, IsDrafted};
ghost use Rattle.fzn_model.specs.Variables.{AreDeclared, IsAsciiNamed};

use crate::error::ResolveError;
use crate::goal::goal_of;
use crate::initial::post_initial;
use crate::outputs::mark_all;
use crate::posting::post_written;
use crate::variables::declare_all;
use dom_model::ModelBuilder;
use fzn_arguments::{numbers_of, one_argument};
use fzn_forms::one_kind;
use fzn_syntax::Items;
use fzn_values::Constants;
use std::alloc::Global;

/// Items whose names are different are put together in one way at most. The call does nothing.
pub fn one_draft()
    ensures { DraftsOne }
{
    one_kind();
    one_argument();
}

/// What items, whose declarations have these values, are put together as. Nothing is built of floats and set variables, of a
/// constraint whose kind isn't, or of a marked array whose index sets or entries stand for nothing.
pub fn draft_of(
    alloc: Global,
    values: &Constants<'_>,
    items: &Items,
) -> Result<ModelBuilder, ResolveError>
    requires same { values.now ≡ items.now.declarations }
    requires ascii { All IsAsciiNamed items.now.declarations }
    requires few { AreFew items.now }
    ensures { Answers (Drafts items.now) result }
{
    let declarations = items.declarations.as_slice();
    let mut builder = ModelBuilder::new(alloc);
    declare_all(alloc, &mut builder, declarations)?;
    let numbers = numbers_of(alloc, declarations)?;
    fill(alloc, values, numbers.as_slice(), &mut builder, items)?;
    Ok(builder)
}

// Adds to the variables all else that the items have.
fn fill(
    alloc: Global,
    values: &Constants<'_>,
    numbers: &[u32],
    builder: &mut ModelBuilder,
    items: &Items,
) -> Result<(), ResolveError>
    requires same { values.now ≡ items.now.declarations }
    requires numbers { AreNumbers items.now.declarations numbers.now }
    requires few { AreFew items.now }
    requires declared { AreDeclared items.now.declarations builder.old (Ok tt) }
    ensures { IsDrafted items.now builder.new result }
{
    let declarations = items.declarations.as_slice();
    let constraints = items.constraints.as_slice();
    post_written(alloc, values, numbers, builder, constraints)?;
    post_initial(alloc, values, numbers, builder, declarations)?;
    builder.goal(goal_of(values.scope(), numbers, &items.solve.goal)?);
    mark_all(alloc, values, numbers, builder, declarations)
}
