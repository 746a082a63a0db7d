//! The reading of all that comes in, where a command reads.

ghost use Rattle.std.specs.Prelude.{◌≡◌, ◌≤◌, true, false, if◌then◌else◌, [], Some, vec_len, OnOk, IfOk};
ghost use Rattle.std.specs.Io.KnownBytes.{IsAtEnd};
ghost use Rattle.qd_io.specs.Stream.{Rises};
ghost use Rattle.qd_io.specs.declared.reading.TheConstants.{INPUT_LIMIT};
ghost use Rattle.qd_engine.specs.Endings.{Reads, Takes};
ghost use Rattle.qd_engine.specs.Words.{is_read};

use crate::command::Command;
use crate::stop::Stop;
use data_print::Cause;
use qd_io::{ReadRefusal, Source, read_all};
use std::alloc::Global;

/// All the bytes of the source, or why they are not to be had.
fn whole<S: Source>(alloc: Global, source: &mut S) -> Result<Vec<u8>, Stop>
    ensures reads { Reads (S.left source.old)
        (Rises (S.faults source.old) (S.faults source.new)) result }
    ensures taken { Takes (S.left source.old) (S.left source.new) result }
    ensures drained { OnOk result (IsAtEnd (S.left source.new)) }
    ensures limit { IfOk result (λ bytes. vec_len bytes ≤ INPUT_LIMIT) }
{
    match read_all(alloc, source) {
        Ok(bytes) => Ok(bytes),
        Err(ReadRefusal::ReadFault) => Err(Stop::Refused(Cause::Read)),
        Err(ReadRefusal::TooLong) => Err(Stop::Refused(Cause::TooLong)),
        Err(ReadRefusal::Memory) => Err(Stop::Memory),
    }
}

/// What a command reads of the source: all its bytes, or nothing.
pub fn input<S: Source>(alloc: Global, command: &Command, source: &mut S) -> Result<Vec<u8>, Stop>
    ensures reads { Reads (if is_read command.now.input then S.left source.old else Some [])
        ((is_read command.now.input ≡ true)
        × Rises (S.faults source.old) (S.faults source.new)) result }
    ensures taken { Takes (S.left source.old) (S.left source.new) result }
    ensures drained { is_read command.now.input ≡ true → OnOk result (IsAtEnd (S.left source.new)) }
    ensures untouched { is_read command.now.input ≡ false → source.new ≡ source.old }
    ensures limit { IfOk result (λ bytes. vec_len bytes ≤ INPUT_LIMIT) }
{
    if command.input.is_read() {
        whole(alloc, source)
    } else {
        Ok(Vec::new(alloc))
    }
}
