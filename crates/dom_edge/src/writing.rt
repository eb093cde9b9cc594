ghost use Rattle.std.specs.Prelude.{◌≡◌, ◌+◌, ◌≤◌, length, OnOk, OnErr};
ghost use Rattle.dom_edge.specs.Causes.{HasCause};
ghost use Rattle.dom_edge.specs.Text.{Gains, GainsPrefix};

use crate::failed::Failed;
use crate::sink::Sink;

/// Writes a text whole, in as many calls as the sink needs, and none where it is empty.
pub fn write_whole<S: Sink>(sink: &mut S, text: &[u8]) -> Result<(), Failed>
    requires { length text.now ≤ S.spare sink.old }
    ensures ok { OnOk result (Gains (S.bytes sink.old) (S.bytes sink.new) text.now) }
    ensures room { OnOk result (S.spare sink.new + length text.now ≡ S.spare sink.old) }
    ensures failed { OnErr result (GainsPrefix (S.bytes sink.old) (S.bytes sink.new) text.now) }
    ensures left { OnErr result (S.spare sink.new ≤ S.spare sink.old) }
    ensures cause { HasCause (S.faults sink.old) (S.faults sink.new) result }
    ensures empty { length text.now ≡ 0 → sink.new ≡ sink.old }
{
    let mut done = 0;
    while done < text.len() {
        done += sink.write(&text[done..])?;
    }
    Ok(())
}
