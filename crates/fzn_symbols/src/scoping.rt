//! What the declared names of items stand for.
ghost use Rattle.std.specs.Prelude.{◌≡◌, List, Result, Err};
ghost use Rattle.fzn_symbols.specs.declared.error.NameError.{NameError};
ghost use Rattle.fzn_symbols.specs.declared.error.NameError.TheVariants.{Memory};
ghost use Rattle.fzn_symbols.specs.Numbered.{IsNumbered};
ghost use Rattle.fzn_symbols.specs.Occurrences.{marks_of};
ghost use Rattle.fzn_symbols.specs.Scoped.{IsScoped};
ghost use Rattle.fzn_syntax.specs.declared.declaration.Declaration.{Declaration};
ghost use Rattle.fzn_syntax.specs.declared.items.Items.{Items};

use crate::error::NameError;
use crate::names::Names;
use crate::numbering::{names_have_one_answer, number_names};
use crate::scope::Scope;
use crate::walk::occurrences_of;
use fzn_syntax::Items;
use std::alloc::Global;

/// Items have one answer, but for want of memory.
pub fn items_have_one_scope()
    ensures { (items : Items) (r s : Result (List Declaration) NameError) → IsScoped items r → IsScoped items s → (r ≡ Err Memory → ⊥) → (s ≡ Err Memory → ⊥) → r ≡ s }
{
    names_have_one_answer();
}

// The declared names of items in order, or the first fault among the names.
fn names_of<'a>(alloc: Global, items: &'a Items) -> Result<Names<'a>, NameError>
    ensures { IsNumbered (marks_of items.now) result }
{
    let occurrences = occurrences_of(alloc, items)?;
    number_names(alloc, occurrences.as_slice())
}

/// The declarations of items, found by their names, or the first name that is declared twice or
/// nowhere. Names in annotations and predicates are passed over, and so are those of predicates and
/// of constraints.
pub fn scope_of<'a>(alloc: Global, items: &'a Items) -> Result<Scope<'a>, NameError>
    ensures { IsScoped items.now result }
{
    let names = names_of(alloc, items)?;
    Ok(Scope::new(items.declarations.as_slice(), names))
}
