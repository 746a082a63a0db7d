//! Writing a text whole.

ghost use Rattle.std.specs.Prelude.{◌≡◌, ◌≤◌, ℕ, length, Some, IsOk, OnOk, OnErr};
ghost use Rattle.std.specs.Io.KnownBytes.{Appends};
ghost use Rattle.qd_io.specs.Stream.{Rises, AppendsFront, HasRoom};

use crate::sink::Sink;
use crate::source::Failed;

/// A sink failed while a text was written.
#[derive(Clone, Copy, Debug, PartialEq, Eq)]
pub struct WriteFault;

impl From<Failed> for WriteFault {
    fn from(_failed: Failed) -> WriteFault {
        WriteFault
    }
}

/// Writes all of a text. It takes no memory.
pub fn write_whole<W: Sink>(sink: &mut W, text: &[u8]) -> Result<(), WriteFault>
    ensures whole { OnOk result (Appends (W.written sink.old) (W.written sink.new) text.now) }

    // After a fault the front of the text was added.
    ensures fault { OnErr result (Rises (W.faults sink.old) (W.faults sink.new)) }
    ensures front { OnErr result (AppendsFront (W.written sink.old) (W.written sink.new) text.now) }
    ensures never_falls { W.faults sink.old ≤ W.faults sink.new }
    ensures promised { HasRoom (W.room sink.old) text.now → IsOk result }
{
    let mut rest = text;
    while !rest.is_empty() {
        let taken = sink.write(rest)?;
        (_, rest) = rest.split_at(taken);
    }
    Ok(())
}
