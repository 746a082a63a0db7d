//! Reading a source to its end.

ghost use Rattle.std.specs.Prelude.{◌≡◌, ◌≤◌, length, vec_len, Err, IfOk};
ghost use Rattle.std.specs.Io.KnownBytes.{Consumes, IsAtEnd};
ghost use Rattle.qd_io.specs.declared.reading.ReadRefusal.TheVariants as refusals;
ghost use Rattle.qd_io.specs.Stream.{Rises, TakesUpTo, TakesOver};

use crate::source::{Failed, Source};
use std::alloc::{AllocError, Global};

/// How many bytes of input are read at the most.
pub const INPUT_LIMIT: usize = 4_194_304;

const CHUNK: usize = 65_536;

/// Why input was not read to its end.
#[derive(Clone, Copy, Debug, PartialEq, Eq)]
pub enum ReadRefusal {
    /// The source failed.
    ReadFault,
    /// More than `INPUT_LIMIT` bytes came.
    TooLong,
    /// There was no memory for what came.
    Memory,
}

impl From<Failed> for ReadRefusal {
    ghost from_gives = { λ _ refusal. refusal ≡ refusals.ReadFault };

    fn from(_failed: Failed) -> ReadRefusal {
        ReadRefusal::ReadFault
    }
}

impl From<AllocError> for ReadRefusal {
    ghost from_gives = { λ _ refusal. refusal ≡ refusals.Memory };

    fn from(_error: AllocError) -> ReadRefusal {
        ReadRefusal::Memory
    }
}

/// Reads a source to its end.
pub fn read_all<S: Source>(alloc: Global, source: &mut S) -> Result<Vec<u8>, ReadRefusal>
    // All that was left.
    ensures whole { IfOk result (λ bytes. Consumes (S.left source.old)
        (S.left source.new) bytes.items × IsAtEnd (S.left source.new)) }
    ensures within { IfOk result (λ bytes. vec_len bytes ≤ INPUT_LIMIT) }

    ensures fault { result ≡ Err ReadRefusal.ReadFault → Rises (S.faults source.old)
        (S.faults source.new) × TakesUpTo INPUT_LIMIT (S.left source.old) (S.left source.new) }
    ensures too_long { result ≡ Err ReadRefusal.TooLong
        → TakesOver INPUT_LIMIT (S.left source.old) (S.left source.new) }
    ensures memory { result ≡ Err ReadRefusal.Memory
        → TakesUpTo INPUT_LIMIT (S.left source.old) (S.left source.new) }
    ensures never_falls { S.faults source.old ≤ S.faults source.new }
{
    let mut bytes = Vec::new(alloc);
    let mut chunk = [0; CHUNK];
    loop {
        let count = source.read(&mut chunk)?;
        if count == 0 {
            return Ok(bytes);
        }
        if bytes.len() + count > INPUT_LIMIT {
            return Err(ReadRefusal::TooLong);
        }
        bytes.extend_from_slice(&chunk[..count])?;
    }
}
