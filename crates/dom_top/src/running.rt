//! The top call.
ghost use Rattle.std.specs.Prelude.{◌≡◌, ◌≤◌};
ghost use Rattle.dom_top.specs.Answers.{code_of, IsEarly};
ghost use Rattle.dom_top.specs.Messages.{message_of, Tells};
ghost use Rattle.dom_top.specs.Right.{IsAnswered, IsRight, course};
ghost use Rattle.dom_top.specs.Shown.{IsShownText};
ghost use Rattle.dom_top.specs.Solved.{IsSolvedText};
ghost use Rattle.dom_top.specs.Words.{bytes_of};
ghost use Rattle.dom_top.specs.Written.{written};

use crate::answer::{Answer, Status};
use crate::fault::ModelFault;
use crate::message::tell;
use crate::showing::show_items;
use crate::solving::solve_model;
use crate::texts::{ReadingError, TEXT_LIMIT, read_text};
use crate::words::{Command, read_words};
use dom_edge::{Folder, ReadError, Sink, read_whole};
use dom_search::is_narrow;
use std::alloc::Global;
use std::thread::Threads;

/// Does what the words ask for, which are those after the program's name: reads files of the folder, writes
/// the answer to `out`, and tells in one line on `err` why there is none.
pub fn run<R: Threads + Sync + AllocGlobal, F: Folder, O: Sink, E: Sink>(
    rt: &R,
    words: &[String],
    folder: &mut F,
    out: &mut O,
    err: &mut E,
) -> Status
    ensures right { IsRight (bytes_of words.now) (course (F.bytes folder.old)
        (F.read_faults folder.old) (F.read_faults folder.new)
        (written (O.bytes out.old) (O.bytes out.new) (O.faults out.old) (O.faults out.new))) result.answer }
    ensures told { Tells (E.bytes err.old) (E.bytes err.new) (E.faults err.old) (E.faults err.new)
        (message_of result.answer) }
    ensures untouched { IsEarly result.answer → out.new ≡ out.old }
    ensures silent { code_of result.answer ≡ 0 → err.new ≡ err.old }
    ensures files { F.bytes folder.new ≡ F.bytes folder.old }
    ensures reads { F.read_faults folder.old ≤ F.read_faults folder.new }
    ensures writes { F.write_faults folder.new ≡ F.write_faults folder.old }
    ensures out_faults { O.faults out.old ≤ O.faults out.new }
    ensures err_faults { E.faults err.old ≤ E.faults err.new }
{
    let answer = answer_of(rt.alloc(), words, folder, out);
    tell(rt.alloc(), err, &answer);
    Status { answer }
}

// The answer to the words.
fn answer_of<F: Folder, O: Sink>(
    alloc: Global,
    words: &[String],
    folder: &mut F,
    out: &mut O,
) -> Answer
    ensures right { IsRight (bytes_of words.now) (course (F.bytes folder.old)
        (F.read_faults folder.old) (F.read_faults folder.new)
        (written (O.bytes out.old) (O.bytes out.new) (O.faults out.old) (O.faults out.new))) result }
    ensures untouched { IsEarly result → out.new ≡ out.old }
    ensures files { F.bytes folder.new ≡ F.bytes folder.old }
    ensures reads { F.read_faults folder.old ≤ F.read_faults folder.new }
    ensures writes { F.write_faults folder.new ≡ F.write_faults folder.old }
    ensures out_faults { O.faults out.old ≤ O.faults out.new }
{
    match read_words(words) {
        Ok(Command::Solve { model }) => solve_file(alloc, model, folder, out),
        Ok(Command::Show { model }) => show_file(alloc, model, folder, out),
        Err(_) => Answer::WordsRefused,
    }
}

// Reads the file of this name, and solves its model.
fn solve_file<F: Folder, O: Sink>(alloc: Global, model: &str, folder: &mut F, out: &mut O) -> Answer
    ensures right { IsAnswered IsSolvedText (course (F.bytes folder.old)
        (F.read_faults folder.old) (F.read_faults folder.new)
        (written (O.bytes out.old) (O.bytes out.new) (O.faults out.old) (O.faults out.new)))
        model.now result }
    ensures untouched { IsEarly result → out.new ≡ out.old }
    ensures files { F.bytes folder.new ≡ F.bytes folder.old }
    ensures reads { F.read_faults folder.old ≤ F.read_faults folder.new }
    ensures writes { F.write_faults folder.new ≡ F.write_faults folder.old }
    ensures out_faults { O.faults out.old ≤ O.faults out.new }
{
    match read_whole(alloc, folder, model, TEXT_LIMIT + 1) {
        Ok(text) => solve_text(alloc, text.as_slice(), out),
        Err(ReadError::Fault) => Answer::ReadFault,
        Err(ReadError::Memory) => Answer::NoMemory,
    }
}

// Solves the model of a text.
fn solve_text<O: Sink>(alloc: Global, text: &[u8], out: &mut O) -> Answer
    ensures right { IsSolvedText text.now
        (written (O.bytes out.old) (O.bytes out.new) (O.faults out.old) (O.faults out.new)) result }
    ensures untouched { IsEarly result → out.new ≡ out.old }
    ensures kept { O.faults out.old ≤ O.faults out.new }
{
    match read_text(alloc, text) {
        Ok(reading) if is_narrow(&reading.model) => solve_model(alloc, &reading.model, out),
        Ok(_) => Answer::ModelRefused {
            fault: ModelFault::NotBuilt,
        },
        Err(ReadingError::Fault(fault)) => Answer::ModelRefused { fault },
        Err(ReadingError::Memory) => Answer::NoMemory,
    }
}

// Reads the file of this name, and shows its items.
fn show_file<F: Folder, O: Sink>(alloc: Global, model: &str, folder: &mut F, out: &mut O) -> Answer
    ensures right { IsAnswered IsShownText (course (F.bytes folder.old)
        (F.read_faults folder.old) (F.read_faults folder.new)
        (written (O.bytes out.old) (O.bytes out.new) (O.faults out.old) (O.faults out.new)))
        model.now result }
    ensures untouched { IsEarly result → out.new ≡ out.old }
    ensures files { F.bytes folder.new ≡ F.bytes folder.old }
    ensures reads { F.read_faults folder.old ≤ F.read_faults folder.new }
    ensures writes { F.write_faults folder.new ≡ F.write_faults folder.old }
    ensures out_faults { O.faults out.old ≤ O.faults out.new }
{
    match read_whole(alloc, folder, model, TEXT_LIMIT + 1) {
        Ok(text) => show_text(alloc, text.as_slice(), out),
        Err(ReadError::Fault) => Answer::ReadFault,
        Err(ReadError::Memory) => Answer::NoMemory,
    }
}

// Shows the items of a text that stands for a model.
fn show_text<O: Sink>(alloc: Global, text: &[u8], out: &mut O) -> Answer
    ensures right { IsShownText text.now
        (written (O.bytes out.old) (O.bytes out.new) (O.faults out.old) (O.faults out.new)) result }
    ensures untouched { IsEarly result → out.new ≡ out.old }
    ensures kept { O.faults out.old ≤ O.faults out.new }
{
    match read_text(alloc, text) {
        Ok(reading) => show_items(alloc, &reading.items, out),
        Err(ReadingError::Fault(fault)) => Answer::ModelRefused { fault },
        Err(ReadingError::Memory) => Answer::NoMemory,
    }
}
