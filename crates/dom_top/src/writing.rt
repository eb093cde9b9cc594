//! Texts that are written whole, or not at all for want of memory.
ghost use Rattle.std.specs.Prelude.{◌≡◌, ◌≤◌, OnOk, IsErrOf};
ghost use Rattle.dom_edge.specs.Causes.{CountRose};
ghost use Rattle.dom_edge.specs.Text.{Gains, GainsPrefix};

use dom_edge::{Sink, write_whole};

/// Why a text was not written whole.
#[derive(Drop)]
pub(crate) enum TextError {
    Fault,
    Memory,
}

// Makes room for the whole text first, and then writes it.
pub(crate) fn write_text<S: Sink>(sink: &mut S, text: &[u8]) -> Result<(), TextError>
    ensures whole { OnOk result (Gains (S.bytes sink.old) (S.bytes sink.new) text.now) }
    ensures cut { IsErrOf result TextError.Fault
        → GainsPrefix (S.bytes sink.old) (S.bytes sink.new) text.now }
    ensures fault { IsErrOf result TextError.Fault
        → CountRose (S.faults sink.old) (S.faults sink.new) }
    ensures memory { IsErrOf result TextError.Memory → S.bytes sink.new ≡ S.bytes sink.old }
    ensures kept { S.faults sink.old ≤ S.faults sink.new }
{
    sink.reserve(text.len()).map_err(|_| TextError::Memory)?;
    write_whole(sink, text).map_err(|_| TextError::Fault)
}
