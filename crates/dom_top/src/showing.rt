//! Showing the items of a text.
ghost use Rattle.std.specs.Prelude.{◌≡◌, ◌≤◌};
ghost use Rattle.dom_top.specs.Answers.{IsEarly};
ghost use Rattle.dom_top.specs.Shown.{IsShown};
ghost use Rattle.dom_top.specs.Written.{written};

use crate::answer::Answer;
use crate::writing::{TextError, write_text};
use dom_edge::Sink;
use fzn_print::print;
use fzn_syntax::Items;
use std::alloc::Global;

// Writes the canonical text of the items.
pub(crate) fn show_items<O: Sink>(alloc: Global, items: &Items, out: &mut O) -> Answer
    ensures shown { IsShown items.now
        (written (O.bytes out.old) (O.bytes out.new) (O.faults out.old) (O.faults out.new)) result }
    ensures late { IsEarly result → ⊥ }
    ensures kept { O.faults out.old ≤ O.faults out.new }
{
    let Ok(text) = print(alloc, items) else {
        return Answer::NoMemory;
    };
    match write_text(out, text.as_slice()) {
        Ok(()) => Answer::Shown,
        Err(TextError::Fault) => Answer::WriteFault,
        Err(TextError::Memory) => Answer::NoMemory,
    }
}
