//! Which declarations are right, floats and set variables aside.
ghost use Rattle.std.specs.Prelude.{◌≡◌, ◌↔◌, IsTrue, IfOk, pos};
ghost use Rattle.fzn_check.specs.WellTyped.{IsIndex, AreEntries, IsParameters, NamesParameters, IsArray, AreConstants, IsWellTypedValue, IsWellTypedArray, IsWellTyped};

use crate::lookup::found;
use crate::output_arrays::are_output_arrays;
use fzn_symbols::{
    Base, Instantiation, Scope, are_all, base_of_parameter, base_of_variable, is_scalar,
};
use fzn_syntax::{Basic, Declaration, Expression, IndexRange, VariableArray, VariableDeclaration};
use std::alloc::{AllocError, Global};

fn is_index(index: IndexRange) -> bool
    ensures { IsTrue result ↔ IsIndex index }
{
    index.first == 1 && index.last >= 0
}

fn is_count(last: i64, count: usize) -> bool
    ensures { IsTrue result ↔ (last ≡ pos count) }
{
    last >= 0 && last.unsigned_abs() == count as u64
}

fn are_entries(
    scope: &Scope<'_>,
    instantiation: Instantiation,
    base: Base,
    last: i64,
    expression: &Expression,
) -> bool
    ensures { IsTrue result ↔ AreEntries scope.now instantiation base last expression.now }
{
    match expression {
        Expression::Basic(_) => false,
        Expression::List(basics) => {
            is_count(last, basics.len()) && are_all(scope, instantiation, base, basics.as_slice())
        }
    }
}

fn is_parameters(base: Base, last: i64, declaration: &Declaration) -> bool
    ensures { IsTrue result ↔ IsParameters base last declaration.now }
{
    match declaration {
        Declaration::ParameterArray(array) => {
            base_of_parameter(&array.entries.element) == base && array.index.last == last
        }
        Declaration::Parameter(_) => false,
        Declaration::Variable(_) => false,
        Declaration::VariableArray(_) => false,
    }
}

fn names_parameters(scope: &Scope<'_>, base: Base, last: i64, name: &[u8]) -> bool
    ensures { IsTrue result ↔ NamesParameters scope.now base last name.now }
{
    match found(scope, name) {
        None => false,
        Some(declaration) => is_parameters(base, last, declaration),
    }
}

fn is_array(scope: &Scope<'_>, base: Base, last: i64, basic: &Basic) -> bool
    ensures { IsTrue result ↔ IsArray scope.now base last basic.now }
{
    match basic {
        Basic::Name(name) => names_parameters(scope, base, last, name.name.as_bytes()),
        Basic::True => false,
        Basic::False => false,
        Basic::Number(_) => false,
        Basic::Range(_) => false,
        Basic::Set(_) => false,
    }
}

fn are_constants(scope: &Scope<'_>, base: Base, last: i64, expression: &Expression) -> bool
    ensures { IsTrue result ↔ AreConstants scope.now base last expression.now }
{
    match expression {
        Expression::Basic(basic) => is_array(scope, base, last, basic),
        Expression::List(basics) => {
            is_count(last, basics.len())
                && are_all(scope, Instantiation::Constant, base, basics.as_slice())
        }
    }
}

fn is_well_typed_array(
    alloc: Global,
    scope: &Scope<'_>,
    array: &VariableArray,
) -> Result<bool, AllocError>
    ensures { IfOk result (λ right. IsTrue right ↔ IsWellTypedArray scope.now array.now) }
{
    let base = base_of_variable(&array.element);
    let last = array.index.last;
    if is_index(array.index) && are_entries(scope, Instantiation::Entry, base, last, &array.value) {
        are_output_arrays(alloc, array)
    } else {
        Ok(false)
    }
}

fn is_well_typed_value(scope: &Scope<'_>, variable: &VariableDeclaration) -> bool
    ensures { IsTrue result ↔ IsWellTypedValue scope.now variable.now }
{
    match &variable.value {
        None => true,
        Some(value) => {
            let base = base_of_variable(&variable.element);
            is_scalar(scope, Instantiation::Entry, base, value)
        }
    }
}

/// Whether the declaration is right. Floats, set variables and cycles are not looked at.
pub fn is_well_typed(
    alloc: Global,
    scope: &Scope<'_>,
    declaration: &Declaration,
) -> Result<bool, AllocError>
    ensures { IfOk result (λ right. IsTrue right ↔ IsWellTyped scope.now declaration.now) }
{
    match declaration {
        Declaration::Parameter(parameter) => {
            let base = base_of_parameter(&parameter.element);
            Ok(is_scalar(scope, Instantiation::Constant, base, &parameter.value))
        }
        Declaration::Variable(variable) => Ok(is_well_typed_value(scope, variable)),
        Declaration::ParameterArray(array) => {
            let base = base_of_parameter(&array.entries.element);
            let last = array.index.last;
            let value = &array.entries.value;
            Ok(is_index(array.index) && are_constants(scope, base, last, value))
        }
        Declaration::VariableArray(array) => is_well_typed_array(alloc, scope, array),
    }
}
