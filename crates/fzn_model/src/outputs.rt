//! What is printed of an answer.
ghost use Rattle.std.specs.Prelude.{◌≡◌, length, OnOk, Some};
ghost use Rattle.dom_model.specs.Draft.{IsFitOutput};
ghost use Rattle.dom_model.specs.declared.output.Output.{Output as OutputOf};
ghost use Rattle.fzn_arguments.specs.Numbers.{AreNumbers};
ghost use Rattle.fzn_limits.specs.Sizes.{variables_in};
ghost use Rattle.fzn_model.specs.Answers.{Answers};
ghost use Rattle.fzn_model.specs.Found.{listed};
ghost use Rattle.fzn_model.specs.Outputs.{IsArrayOutput, IsIndexedOutput, IsMarkedOutput, IsOutput, mark_of, scalar_output};
ghost use Rattle.fzn_model.specs.Steps.{AreMarked, with_outputs};

use crate::error::ResolveError;
use crate::marks::{is_marked, mark_of};
use crate::variables::{form_of, is_built_type};
use dom_core::{Name, NoMemory, VarId};
use dom_index_sets::IndexSets;
use dom_model::{Args, ModelBuilder, Output};
use fzn_arguments::args_of;
use fzn_output_marks::index_sets;
use fzn_syntax::{Annotation, Declaration, VariableArray};
use fzn_values::Constants;
use std::alloc::Global;

/// Marks what is printed of all declarations, in their order.
pub(crate) fn mark_all(
    alloc: Global,
    values: &Constants<'_>,
    numbers: &[u32],
    builder: &mut ModelBuilder,
    declarations: &[Declaration],
) -> Result<(), ResolveError>
    requires same { values.now ≡ declarations.now }
    requires numbers { AreNumbers declarations.now numbers.now }
    requires count { length builder.old.variables ≡ variables_in declarations.now }
    ensures { AreMarked declarations.now builder.old builder.new result }
{
    for place in 0..declarations.len() {
        let output = output_of(alloc, values, numbers, numbers[place], &declarations[place])?;
        mark(builder, output)?;
    }
    Ok(())
}

fn mark(builder: &mut ModelBuilder, output: Option<Output>) -> Result<(), NoMemory>
    requires { (o : OutputOf) → output ≡ Some o → IsFitOutput (length builder.old.variables) o }
    ensures { OnOk result (builder.new ≡ with_outputs builder.old (listed output)) }
{
    match output {
        None => Ok(()),
        Some(output) => builder.output(output),
    }
}

/// What is printed of one declaration, before which so many variables are declared.
pub(crate) fn output_of(
    alloc: Global,
    values: &Constants<'_>,
    numbers: &[u32],
    number: u32,
    declaration: &Declaration,
) -> Result<Option<Output>, ResolveError>
    requires { AreNumbers values.now numbers.now }
    ensures { Answers (IsOutput values.now number declaration.now) result }
{
    match declaration {
        Declaration::Parameter(_) => Ok(None),
        Declaration::Variable(variable) => Ok(scalar_output(
            is_marked(variable.annotations.as_slice()),
            VarId(number),
        )),
        Declaration::ParameterArray(_) => Ok(None),
        Declaration::VariableArray(array) => marked_output(alloc, values, numbers, array),
    }
}

fn scalar_output(is_marked: bool, var: VarId) -> Option<Output>
    ensures { result ≡ scalar_output is_marked var.0 }
{
    if is_marked {
        Some(Output::Scalar(var))
    } else {
        None
    }
}

fn marked_output(
    alloc: Global,
    values: &Constants<'_>,
    numbers: &[u32],
    array: &VariableArray,
) -> Result<Option<Output>, ResolveError>
    requires { AreNumbers values.now numbers.now }
    ensures { Answers (IsMarkedOutput values.now array.now (mark_of array.now.annotations)) result }
{
    match mark_of(array.annotations.as_slice()) {
        None => Ok(None),
        Some(mark) => {
            let output = array_output(alloc, values, numbers, array, mark)?;
            Ok(Some(output))
        }
    }
}

// The array as this mark asks to print it.
fn array_output(
    alloc: Global,
    values: &Constants<'_>,
    numbers: &[u32],
    array: &VariableArray,
    mark: &Annotation,
) -> Result<Output, ResolveError>
    requires { AreNumbers values.now numbers.now }
    ensures { Answers (IsArrayOutput values.now array.now mark.now) result }
{
    if !is_built_type(&array.element) {
        return Err(ResolveError::NotBuilt);
    }
    match index_sets(alloc, mark)? {
        None => Err(ResolveError::NotBuilt),
        Some(sets) => indexed_output(alloc, values, numbers, array, sets),
    }
}

// The array with these index sets.
fn indexed_output(
    alloc: Global,
    values: &Constants<'_>,
    numbers: &[u32],
    array: &VariableArray,
    sets: IndexSets,
) -> Result<Output, ResolveError>
    requires { AreNumbers values.now numbers.now }
    ensures { Answers (IsIndexedOutput values.now array.now sets) result }
{
    let form = form_of(&array.element);
    match args_of(alloc, values, numbers, form, &array.value)? {
        None => Err(ResolveError::NotBuilt),
        Some(entries) => {
            let name = Name::from_slice(alloc, array.name.name.as_bytes())?;
            Ok(Output::Array {
                name,
                form,
                sets,
                entries: Args::from_vec(entries),
            })
        }
    }
}
