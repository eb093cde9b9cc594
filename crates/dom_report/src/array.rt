//! The texts of arrays.
ghost use Rattle.std.specs.Prelude.{◌≡◌, ◌<◌, ◌++◌, length, codes, OnOk};
ghost use Rattle.std.specs.Fmt.{decimal};
ghost use Rattle.dom_model.specs.Draft.{AreFitArgs, IsFitArg};
ghost use Rattle.dom_report.specs.Text.{array_text_of, set_text_of, sets_text_of};
ghost use Rattle.dom_report.specs.Text.{entries_text_of, entry_text_of, more_entries_of};

use crate::value::{write_count, write_integer, write_value};
use dom_core::{Arg, Assignment, NoMemory};
use dom_definers::Form;
use dom_index_sets::IndexSet;

/// Adds a name and the values of entries of that form, with their index sets, on a line.
pub(crate) fn write_array(
    assignment: &Assignment,
    name: &[u8],
    form: Form,
    sets: &[IndexSet],
    entries: &[Arg],
    text: &mut Vec<u8>,
) -> Result<(), NoMemory>
    requires { AreFitArgs (length assignment.now) entries.now }
    ensures { OnOk result (text.new.items ≡ text.old.items
        ++ array_text_of assignment.now name.now form sets.now entries.now) }
{
    text.extend_from_slice(name)?;
    write_dimensions(sets.len(), text)?;
    write_sets(sets, text)?;
    text.extend_from_slice(b"[")?;
    write_entries(assignment, form, entries, text)?;
    text.extend_from_slice(b"]);\n")
}

fn write_dimensions(count: usize, text: &mut Vec<u8>) -> Result<(), NoMemory>
    ensures { OnOk result (text.new.items ≡ text.old.items
        ++ (codes " = array" ++ decimal count ++ codes "d(")) }
{
    text.extend_from_slice(b" = array")?;
    write_count(count, text)?;
    text.extend_from_slice(b"d(")
}

fn write_sets(sets: &[IndexSet], text: &mut Vec<u8>) -> Result<(), NoMemory>
    ensures { OnOk result (text.new.items ≡ text.old.items ++ sets_text_of sets.now) }
{
    for set in sets {
        write_set(*set, text)?;
    }
    Ok(())
}

fn write_set(set: IndexSet, text: &mut Vec<u8>) -> Result<(), NoMemory>
    ensures { OnOk result (text.new.items ≡ text.old.items ++ (set_text_of set ++ codes ", ")) }
{
    write_integer(set.lo, text)?;
    text.extend_from_slice(b"..")?;
    write_integer(set.hi, text)?;
    text.extend_from_slice(b", ")
}

fn write_entries(
    assignment: &Assignment,
    form: Form,
    entries: &[Arg],
    text: &mut Vec<u8>,
) -> Result<(), NoMemory>
    requires { AreFitArgs (length assignment.now) entries.now }
    ensures { OnOk result (text.new.items ≡ text.old.items
        ++ entries_text_of assignment.now form entries.now) }
{
    match entries.split_first() {
        None => Ok(()),
        Some((first, others)) => {
            write_entry(assignment, form, *first, text)?;
            write_more(assignment, form, others, text)
        }
    }
}

/// Adds the entries, each with what separates it from the one before.
fn write_more(
    assignment: &Assignment,
    form: Form,
    entries: &[Arg],
    text: &mut Vec<u8>,
) -> Result<(), NoMemory>
    requires { AreFitArgs (length assignment.now) entries.now }
    ensures { OnOk result (text.new.items ≡ text.old.items
        ++ more_entries_of assignment.now form entries.now) }
{
    for entry in entries {
        text.extend_from_slice(b", ")?;
        write_entry(assignment, form, *entry, text)?;
    }
    Ok(())
}

fn write_entry(
    assignment: &Assignment,
    form: Form,
    entry: Arg,
    text: &mut Vec<u8>,
) -> Result<(), NoMemory>
    requires { IsFitArg (length assignment.now) entry }
    ensures { OnOk result (text.new.items ≡ text.old.items ++ entry_text_of assignment.now form entry) }
{
    match entry {
        Arg::Var(var) => write_value(form, assignment.value(var), text),
        Arg::Const(value) => write_value(form, value, text),
    }
}
