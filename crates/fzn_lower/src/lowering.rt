//! From items to their model.
ghost use Rattle.std.specs.Prelude.{◌≡◌, None};
ghost use Rattle.fzn_lower.specs.Lowered.{Ends, HasOneAnswer, IsLowered, Lowers, told};
ghost use Rattle.fzn_syntax.specs.Texts.{AreOfText};
ghost use Rattle.fzn_lower.specs.Steps.{FindsSize, FindsName, FindsUnknown, FindsDeclaration, FindsNameOn, FindsUnknownOn, FindsDeclarationOn, FindsConstraintOn};

use crate::error::ModelError;
use crate::steps::{check_declarations, check_names, check_sizes, check_valued};
use dom_model::{BuildError, Model, ModelBuilder, drafts_have_one_outcome};
use fzn_check::{constraints_have_one_first_fault, declarations_have_one_first_fault};
use fzn_model::{ResolveError, draft_of, one_draft};
use fzn_symbols::{NameError, Scope, items_have_one_scope, scope_of};
use fzn_syntax::Items;
use fzn_totality::unbuilt_is_undrafted;
use fzn_values::Constants;
use std::alloc::Global;

/// Items have one answer, want of memory aside: so each fault comes exactly where it should, and is
/// the first. The call does nothing.
pub fn items_have_one_answer()
    ensures { HasOneAnswer }
{
    items_have_one_scope();
    declarations_have_one_first_fault();
    constraints_have_one_first_fault();
    one_draft();
    unbuilt_is_undrafted();
    drafts_have_one_outcome();
}

/// The model of the items of some text, or their first fault.
pub fn lower(alloc: Global, items: &Items) -> Result<Model, ModelError>
    requires { AreOfText items.now }
    ensures { IsLowered items.now result }
{
    check_sizes(items)?;
    lower_sized(alloc, items)
}

fn lower_sized(alloc: Global, items: &Items) -> Result<Model, ModelError>
    requires text { AreOfText items.now }
    requires sized { FindsSize items.now None }
    ensures { Lowers (FindsNameOn items.now) items.now result }
{
    match scope_of(alloc, items) {
        Ok(scope) => lower_scoped(alloc, &scope, items),
        Err(NameError::NameTwice { at }) => Err(ModelError::NameTwice { at }),
        Err(NameError::UnknownName { at }) => Err(ModelError::UnknownName { at }),
        Err(NameError::Memory) => Err(ModelError::Memory),
    }
}

fn lower_scoped(alloc: Global, scope: &Scope<'_>, items: &Items) -> Result<Model, ModelError>
    requires same { scope.now ≡ items.now.declarations }
    requires text { AreOfText items.now }
    requires sized { FindsSize items.now None }
    requires named { FindsName items.now None }
    ensures { Lowers (FindsUnknownOn items.now) items.now result }
{
    check_names(items)?;
    lower_named(alloc, scope, items)
}

fn lower_named(alloc: Global, scope: &Scope<'_>, items: &Items) -> Result<Model, ModelError>
    requires same { scope.now ≡ items.now.declarations }
    requires text { AreOfText items.now }
    requires sized { FindsSize items.now None }
    requires named { FindsName items.now None }
    requires known { FindsUnknown items.now None }
    ensures { Lowers (FindsDeclarationOn items.now) items.now result }
{
    check_declarations(alloc, scope, items)?;
    lower_typed(alloc, scope, items)
}

fn lower_typed(alloc: Global, scope: &Scope<'_>, items: &Items) -> Result<Model, ModelError>
    requires same { scope.now ≡ items.now.declarations }
    requires text { AreOfText items.now }
    requires sized { FindsSize items.now None }
    requires named { FindsName items.now None }
    requires known { FindsUnknown items.now None }
    requires typed { FindsDeclaration items.now None }
    ensures { Lowers (FindsConstraintOn items.now) items.now result }
{
    let values = Constants::new(alloc, scope)?;
    check_valued(alloc, &values, items)?;
    lower_fine(alloc, &values, items)
}

// The model of items in which no step finds a fault.
fn lower_fine(alloc: Global, values: &Constants<'_>, items: &Items) -> Result<Model, ModelError>
    requires same { values.now ≡ items.now.declarations }
    requires text { AreOfText items.now }
    requires sized { FindsSize items.now None }
    requires named { FindsName items.now None }
    requires known { FindsUnknown items.now None }
    requires typed { FindsDeclaration items.now None }
    requires fine { FindsConstraintOn items.now None }
    ensures { Lowers (FindsConstraintOn items.now) items.now result }
{
    unbuilt_is_undrafted();
    match draft_of(alloc, values, items) {
        Ok(draft) => finish(draft),
        Err(ResolveError::NotBuilt) => Err(ModelError::NotBuilt),
        Err(ResolveError::Memory) => Err(ModelError::Memory),
    }
}

fn finish(draft: ModelBuilder) -> Result<Model, ModelError>
    ensures { Ends draft result }
{
    match draft.finish() {
        Ok(model) => Ok(model),
        Err(error) => Err(told(error)),
    }
}

// The fault of items that are put together so.
fn told(error: BuildError) -> ModelError
    ensures { result ≡ told error }
{
    match error {
        BuildError::CyclicDefinition { var } => ModelError::CyclicDefinition { var },
        BuildError::EmptyDomain { var } => ModelError::EmptyDomain { var },
        BuildError::Unbounded { var } => ModelError::Unbounded { var },
        BuildError::DomainTooLarge { var, count } => ModelError::DomainTooLarge { var, count },
        BuildError::TooMany { what, count } => ModelError::TooMany { what, count },
        BuildError::TooWide { constraint } => ModelError::TooWide { constraint },
        BuildError::Memory => ModelError::Memory,
    }
}
