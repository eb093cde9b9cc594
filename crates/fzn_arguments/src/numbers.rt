//! The numbers of variables by the places of their declarations.
ghost use Rattle.std.specs.Prelude.{◌≡◌, ◌≤◌, ◌↔◌, ℕ, cond, IfOk, IsTrue, MatchOption};
ghost use Rattle.dom_core.specs.declared.var_id.VarId.{VarId};
ghost use Rattle.fzn_arguments.specs.Numbers.{base_of, AreNumbers, IsNumbered, IsOfForm};
ghost use Rattle.fzn_limits.specs.Sizes.{is_variable, variables_in, limit};

use dom_core::VarId;
use dom_definers::Form;
use fzn_symbols::{Base, Scope, base_of_variable};
use fzn_syntax::Declaration;
use std::alloc::{AllocError, Global};

// One for a variable, and none for all else.
fn variables_by(declaration: &Declaration) -> usize
    ensures one { result ≡ cond (is_variable declaration.now) 1 0 }
    ensures few { result ≤ 1 }
{
    match declaration {
        Declaration::Parameter(_) => 0,
        Declaration::Variable(_) => 1,
        Declaration::ParameterArray(_) => 0,
        Declaration::VariableArray(_) => 0,
    }
}

/// For each declaration how many variables are declared before it, arrays not counted.
pub fn numbers_of(alloc: Global, declarations: &[Declaration]) -> Result<Vec<u32>, AllocError>
    requires { variables_in declarations.now ≤ limit }
    ensures { IfOk result (λ v. AreNumbers declarations.now v.items) }
{
    let mut numbers = Vec::new(alloc);
    let mut count = 0;
    for declaration in declarations {
        numbers.push(count as u32)?;
        count += variables_by(declaration);
    }
    Ok(numbers)
}

fn base_of(form: Form) -> Base
    ensures { result ≡ base_of form }
{
    match form {
        Form::Bool => Base::Bool,
        Form::Int => Base::Int,
    }
}

// Whether a variable of this form is declared, and no array.
fn is_of_form(form: Form, declaration: &Declaration) -> bool
    ensures { IsTrue result ↔ IsOfForm form declaration.now }
{
    match declaration {
        Declaration::Parameter(_) => false,
        Declaration::Variable(variable) => base_of_variable(&variable.element) == base_of(form),
        Declaration::ParameterArray(_) => false,
        Declaration::VariableArray(_) => false,
    }
}

/// The variable of this name, where it is of this form.
pub fn variable_named(scope: &Scope<'_>, numbers: &[u32], form: Form, name: &[u8]) -> Option<VarId>
    requires { AreNumbers scope.now numbers.now }
    ensures { MatchOption result
        ((x : VarId) → IsNumbered scope.now form name.now x → ⊥)
        (IsNumbered scope.now form name.now) }
{
    // A name is that of one declaration.
    let declarations = scope.declarations();
    match scope.place(name) {
        None => None,
        Some(place) => {
            if is_of_form(form, &declarations[place]) {
                Some(VarId(numbers[place]))
            } else {
                None
            }
        }
    }
}
