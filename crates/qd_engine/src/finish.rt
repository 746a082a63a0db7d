//! The writing of what there is to say.

ghost use Rattle.std.specs.Prelude.{◌≡◌};
ghost use Rattle.qd_io.specs.Stream.{Rises};
ghost use Rattle.qd_engine.specs.Answers.{said_by, IsOfWhole, status_by};
ghost use Rattle.qd_engine.specs.Endings.{Ends};

use crate::answer::{Answer, Outcome, Why};
use qd_io::{Sink, write_whole};

/// Writes what the program has to say, and answers how it ends by that.
pub fn finish<W: Sink>(sink: &mut W, outcome: Outcome, text: &[u8]) -> Answer
    requires whole { IsOfWhole outcome }
    ensures status { result.status ≡ status_by (said_by result.why) }
    ensures ends { Ends
        (record { before = W.written sink.old; after = W.written sink.new; room = W.room sink.old })
        (Rises (W.faults sink.old) (W.faults sink.new)) (said_by result.why) outcome text.now }
{
    let planned = outcome.status();
    match write_whole(sink, text) {
        Ok(()) => Answer {
            status: planned,
            why: outcome.why(),
        },
        Err(_) => Answer {
            status: 13,
            why: Why::Write { planned },
        },
    }
}
