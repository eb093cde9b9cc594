//! The texts of values.
ghost use Rattle.std.specs.Prelude.{◌≡◌, ◌++◌, OnOk};
ghost use Rattle.std.specs.Fmt.{decimal, signed_decimal};
ghost use Rattle.dom_definers.specs.declared.form.Form.TheVariants.{Bool};
ghost use Rattle.dom_report.specs.Text.{value_text_of};

use dom_core::NoMemory;
use dom_definers::Form;
use itoa::Buffer;

/// Adds the value: a truth value as a word, and an integer in decimal.
pub(crate) fn write_value(form: Form, value: i64, text: &mut Vec<u8>) -> Result<(), NoMemory>
    ensures { OnOk result (text.new.items ≡ text.old.items ++ value_text_of form value) }
{
    match form {
        Form::Bool => text.extend_from_slice(word_of(value)),
        Form::Int => write_integer(value, text),
    }
}

fn word_of(value: i64) -> &'static [u8]
    ensures { result.now ≡ value_text_of Bool value }
{
    if value == 0 { b"false" } else { b"true" }
}

pub(crate) fn write_integer(value: i64, text: &mut Vec<u8>) -> Result<(), NoMemory>
    ensures { OnOk result (text.new.items ≡ text.old.items ++ signed_decimal value) }
{
    let mut buffer = Buffer::new();
    text.extend_from_slice(buffer.format(value).as_bytes())
}

pub(crate) fn write_count(count: usize, text: &mut Vec<u8>) -> Result<(), NoMemory>
    ensures { OnOk result (text.new.items ≡ text.old.items ++ decimal count) }
{
    let mut buffer = Buffer::new();
    text.extend_from_slice(buffer.format(count).as_bytes())
}
