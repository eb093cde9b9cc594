//! The text of an answer, output by output.
ghost use Rattle.std.specs.Prelude.{◌≡◌, ◌++◌, length, IfOk, OnOk};
ghost use Rattle.dom_model.specs.Draft.{IsFitOutput};
ghost use Rattle.dom_report.specs.Text.{answer_text_of, end_of, line_of, scalar_text_of};

use crate::array::write_array;
use crate::value::write_value;
use dom_core::{Assignment, NoMemory};
use dom_definers::Form;
use dom_model::{Model, Output};
use std::alloc::Global;

/// The outputs of the assignment in order, then a line that ends the answer, and then, where the search was
/// complete, a line that says so.
pub fn answer_text(
    alloc: Global,
    model: &Model,
    assignment: &Assignment,
    done: bool,
) -> Result<Vec<u8>, NoMemory>
    requires { length assignment.now ≡ length model.now.variables }
    ensures { IfOk result (λ text. text.items ≡ answer_text_of model.now assignment.now done) }
{
    let mut text = Vec::new(alloc);
    for output in model.outputs() {
        write_line(model, assignment, output, &mut text)?;
    }
    write_end(done, &mut text)?;
    Ok(text)
}

/// Adds what ends an answer.
fn write_end(done: bool, text: &mut Vec<u8>) -> Result<(), NoMemory>
    ensures { OnOk result (text.new.items ≡ text.old.items ++ end_of done) }
{
    if done {
        text.extend_from_slice(b"----------\n==========\n")
    } else {
        text.extend_from_slice(b"----------\n")
    }
}

/// Adds the line of one output.
fn write_line(
    model: &Model,
    assignment: &Assignment,
    output: &Output,
    text: &mut Vec<u8>,
) -> Result<(), NoMemory>
    requires whole { length assignment.now ≡ length model.now.variables }
    requires known { IsFitOutput (length model.now.variables) output.now }
    ensures { OnOk result (text.new.items ≡ text.old.items ++ line_of model.now assignment.now output.now) }
{
    match output {
        Output::Scalar(var) => {
            let name = model.name(*var).as_bytes();
            write_scalar(name, model.form(*var), assignment.value(*var), text)
        }
        Output::Array {
            name,
            form,
            sets,
            entries,
        } => write_array(
            assignment,
            name.as_bytes(),
            *form,
            sets.as_slice(),
            entries.as_slice(),
            text,
        ),
    }
}

/// Adds a name and its value.
fn write_scalar(name: &[u8], form: Form, value: i64, text: &mut Vec<u8>) -> Result<(), NoMemory>
    ensures { OnOk result (text.new.items ≡ text.old.items ++ scalar_text_of name.now form value) }
{
    text.extend_from_slice(name)?;
    text.extend_from_slice(b" = ")?;
    write_value(form, value, text)?;
    text.extend_from_slice(b";\n")
}
