//! The whole program, from its words and its source to its sink.

ghost use Rattle.std.specs.Prelude.{◌≡◌, ℕ, List, true, false, Some, None, Ok, OnOk, IfOk, ◌⊎◌};
ghost use Rattle.std.specs.Io.KnownBytes.{IsAtEnd};
ghost use Rattle.qd_io.specs.Stream.{Rises};
ghost use Rattle.data_print.specs.Lines.{line_of};
ghost use Rattle.qd_engine.specs.Words.{texts, reads_by, read_of};
ghost use Rattle.qd_engine.specs.Report.{report_in};
ghost use Rattle.qd_engine.specs.Tests.{plan, ComesLate};
ghost use Rattle.qd_engine.specs.Answers.{said_by, status_by};
ghost use Rattle.qd_engine.specs.Causes.{Comes, IsDone};
ghost use Rattle.qd_engine.specs.Acceptable.{IsAcceptable};
ghost use Rattle.qd_engine.specs.declared.answer.Why.{Why};
ghost use Rattle.qd_engine.specs.Endings.{Prepares, Takes, TakesFor, SaysPrepared, EndsSaying, IsRoomy, Decides};

use crate::answer::{Answer, Outcome, Refusal};
use crate::finish::finish;
use crate::input::input;
use crate::steps::answer_to;
use crate::stop::Stop;
use crate::words::read_words;
use data_print::{Cause, append_refusal};
use qd_io::{Sink, Source};
use std::alloc::{AllocError, Global};

/// All steps before the writing: the text of the report, or why there is none.
fn prepare<S: Source>(alloc: Global, words: &Vec<String>, source: &mut S) -> Result<Vec<u8>, Stop>
    ensures prepares { Prepares (texts words.now.items) (S.left source.old)
        (Rises (S.faults source.old) (S.faults source.new)) result }
    ensures taken { Takes (S.left source.old) (S.left source.new) result }
    ensures drained { reads_by (texts words.now.items) ≡ true
        → OnOk result (IsAtEnd (S.left source.new)) }
    ensures untouched { reads_by (texts words.now.items) ≡ false → source.new ≡ source.old }
{
    let Some(command) = read_words(alloc, words)? else {
        return Err(Stop::Refused(Cause::Usage));
    };
    let bytes = input(alloc, &command, source)?;
    answer_to(alloc, &command, &bytes)
}

/// The line of a refusal.
fn line(alloc: Global, cause: &Cause) -> Result<Vec<u8>, AllocError>
    ensures line { IfOk result (λ text. text.items ≡ line_of cause.now) }
{
    let mut text = Vec::new(alloc);
    append_refusal(&mut text, cause)?;
    Ok(text)
}

/// What is written where there was no memory. It takes none.
const MEMORY_LINE: &str = "refused 14 memory\n";

/// Writes the report, or the one line of a refusal.
fn say<W: Sink>(alloc: Global, prepared: Result<Vec<u8>, Stop>, sink: &mut W) -> Answer
    ensures status { result.status ≡ status_by (said_by result.why) }
    ensures said { SaysPrepared prepared
        (record { before = W.written sink.old; after = W.written sink.new; room = W.room sink.old })
        (Rises (W.faults sink.old) (W.faults sink.new)) (said_by result.why) }
{
    match prepared {
        Ok(text) => finish(sink, Outcome::Report, &text),
        Err(Stop::Memory) => finish(sink, Outcome::Memory, MEMORY_LINE.as_bytes()),
        Err(Stop::Refused(cause)) => match line(alloc, &cause) {
            Ok(text) => finish(
                sink,
                Outcome::Refused(Refusal {
                    cause,
                    section: None,
                }),
                &text,
            ),
            Err(_) => finish(sink, Outcome::Memory, MEMORY_LINE.as_bytes()),
        },
    }
}

/// All that the program does: it takes its words and its input, and writes its report, or the one line of a refusal.
///
/// The words follow the program's name. The whole text is made before any of it is written. Every answer but `Memory`
/// says why it comes; that there is memory is not promised.
pub fn run<S: Source, W: Sink>(
    alloc: Global,
    words: &Vec<String>,
    source: &mut S,
    sink: &mut W,
) -> Answer
    ensures status { result.status ≡ status_by (said_by result.why) }

    // Done: the input is a document of a group and a normalised 3-cocycle, or these are made of numbers among the words; the rows of a command that has rows, stated or lifted, are good
    // tables, which give orthogonal central idempotents and modular data; its fusion numbers are a fusion rule; and the sink has the report.
    ensures done { result.why ≡ Why.Done →
        IsDone (texts words.now.items) (S.left source.old)
        (W.written sink.old) (W.written sink.new) }

    // Every answer: what holds where it comes, and what was written.
    ensures cause { Comes (texts words.now.items) (S.left source.old)
        (Rises (S.faults source.old) (S.faults source.new)) (said_by result.why) }
    ensures written { EndsSaying (texts words.now.items) (S.left source.old)
        (Rises (S.faults source.old) (S.faults source.new))
        (record { before = W.written sink.old; after = W.written sink.new; room = W.room sink.old })
        (Rises (W.faults sink.old) (W.faults sink.new)) (said_by result.why) }

    // Where what is read is known and nothing fails, the answer is what the plan gives, or that there was no memory; in place of a report on
    // stated rows it may be a site at which S overflows. So an acceptable input has its report, also over a sink that promises room for it.
    ensures decided { (bytes : List ℕ)
        → read_of (texts words.now.items) (S.left source.old) ≡ Some bytes
        → (Rises (S.faults source.old) (S.faults source.new) → ⊥)
        → (Rises (W.faults sink.old) (W.faults sink.new) → ⊥)
        → Decides (ComesLate (texts words.now.items) bytes) (plan (texts words.now.items) bytes)
        (said_by result.why) }
    ensures complete { (bytes : List ℕ)
        → read_of (texts words.now.items) (S.left source.old) ≡ Some bytes
        → (Rises (S.faults source.old) (S.faults source.new) → ⊥)
        → (accepts : IsAcceptable (texts words.now.items) bytes)
        → IsRoomy (Rises (W.faults sink.old) (W.faults sink.new)) (W.room sink.old)
        (report_in accepts.command bytes)
        → (result.why ≡ Why.Done) ⊎ (result.why ≡ Why.Memory) }

    // What becomes of the source. It is left as it was by words that are no command, and by commands that make their cocycle.
    ensures taken { TakesFor (S.left source.old) (S.left source.new) (said_by result.why) }
    ensures drained { reads_by (texts words.now.items) ≡ true
        → (result.why ≡ Why.Done) ⊎ (result.why ≡ Why.Write 0) → IsAtEnd (S.left source.new) }
    ensures untouched { reads_by (texts words.now.items) ≡ false → source.new ≡ source.old }
{
    let prepared = prepare(alloc, words, source);
    say(alloc, prepared, sink)
}
