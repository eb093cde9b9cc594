//! The first declaration at fault.
ghost use Rattle.std.specs.Prelude.{◌≡◌, ◌↔◌, IsTrue, Some, IfOk, MatchOption, map};
ghost use Rattle.fzn_check.specs.Places.{graph_of};
ghost use Rattle.fzn_check.specs.Finds.{GivesAny};
ghost use Rattle.fzn_check.specs.DeclarationFaults.{is_constant, IsFaultIf, FindsFirstCyclic, FindsFirstFault, HaveOneFirst};

use crate::declares::declares_float_or_set;
use crate::fault::Fault;
use crate::graph::graph_of;
use crate::well_typed::is_well_typed;
use fzn_symbols::{Scope, identifier_of};
use fzn_syntax::Declaration;
use std::alloc::{AllocError, Global};

/// The declarations of a text have one first fault at most. The call does nothing.
pub fn declarations_have_one_first_fault()
    ensures { HaveOneFirst }
{}

/// What the first declaration at fault has, at its name.
pub fn first_declaration_fault(
    alloc: Global,
    scope: &Scope<'_>,
) -> Result<Option<Fault>, AllocError>
    ensures { IfOk result (FindsFirstFault scope.now) }
{
    let cyclic = first_cyclic(alloc, scope)?;
    let declarations = scope.declarations();
    for (place, declaration) in declarations.iter().enumerate() {
        let fault = fault_of(alloc, scope, declaration, is_at(cyclic, place))?;
        if let Some(fault) = fault {
            return Ok(Some(fault));
        }
    }
    Ok(None)
}

// The first parameter that depends on itself.
fn first_cyclic(alloc: Global, scope: &Scope<'_>) -> Result<Option<usize>, AllocError>
    ensures { IfOk result (FindsFirstCyclic scope.now) }
{
    let graph = graph_of(alloc, scope)?;
    let constants = constants_of(alloc, scope.declarations())?;
    graph.first_on_cycle(alloc, &constants)
}

fn constants_of(alloc: Global, declarations: &[Declaration]) -> Result<Vec<bool>, AllocError>
    ensures { IfOk result (λ v. v.items ≡ map is_constant declarations.now) }
{
    let mut constants = Vec::new(alloc);
    for declaration in declarations {
        constants.push(is_constant(declaration))?;
    }
    Ok(constants)
}

fn is_constant(declaration: &Declaration) -> bool
    ensures { result ≡ is_constant declaration.now }
{
    match declaration {
        Declaration::Parameter(_) => true,
        Declaration::Variable(_) => false,
        Declaration::ParameterArray(_) => true,
        Declaration::VariableArray(_) => false,
    }
}

fn is_at(cyclic: Option<usize>, place: usize) -> bool
    ensures { IsTrue result ↔ (cyclic ≡ Some place) }
{
    match cyclic {
        None => false,
        Some(first) => first == place,
    }
}

fn fault_of(
    alloc: Global,
    scope: &Scope<'_>,
    declaration: &Declaration,
    depends: bool,
) -> Result<Option<Fault>, AllocError>
    ensures { IfOk result (GivesAny (IsFaultIf (IsTrue depends) scope.now declaration.now)) }
{
    let at = identifier_of(declaration).at;
    if declares_float_or_set(scope, declaration) {
        return Ok(Some(Fault::FloatOrSet { at }));
    }
    let well_typed = is_well_typed(alloc, scope, declaration)?;
    if depends || !well_typed {
        return Ok(Some(Fault::IllTyped { at }));
    }
    Ok(None)
}
