//! Standard input as a source, standard output as a sink.

ghost use Rattle.std.specs.Prelude.{◌≡◌, ℕ, ◌<◌, ◌≤◌, length, IfSome, None};

use crate::sink::Sink;
use crate::source::{Failed, Source};
use std::io::{Read, Stdin, Stdout, Write};
use std::marker::Model;

/// Standard input. It tells nothing of its bytes, and counts its errors.
#[derive(Drop)]
pub struct StdSource {
    stream: Stdin,
    faults: u64,
}

impl Model for StdSource {
    ghost Value = { ℕ };

    ghost view = { λ s. s.faults };
}

impl StdSource {
    /// Standard input, with no fault yet.
    pub fn new(stream: Stdin) -> StdSource
        ensures made { result ≡ 0 }
    {
        StdSource { stream, faults: 0 }
    }
}

impl Source for StdSource {
    ghost left = { λ s. None };

    ghost faults = { λ s. s };

    fn read(&mut self, buf: &mut [u8]) -> Result<usize, Failed> {
        match self.stream.read(buf) {
            Ok(count) => Ok(count),
            Err(_) => {
                self.faults = self.faults.saturating_add(1);
                Err(Failed)
            }
        }
    }
}

/// Standard output. It tells nothing of its bytes, counts its errors, and flushes after each write; a flush that
/// fails is an error.
#[derive(Drop)]
pub struct StdSink {
    stream: Stdout,
    faults: u64,
}

impl Model for StdSink {
    ghost Value = { ℕ };

    ghost view = { λ s. s.faults };
}

impl StdSink {
    /// Standard output, with no fault yet.
    pub fn new(stream: Stdout) -> StdSink
        ensures made { result ≡ 0 }
    {
        StdSink { stream, faults: 0 }
    }
}

/// Writes some of a piece and flushes. `None` is an error, or a stream that takes nothing of a piece that is not empty.
fn write_flushed(stream: &mut Stdout, piece: &[u8]) -> Option<usize>
    ensures bound { IfSome result (λ taken. taken ≤ length piece.now) }
    ensures progress { IfSome result (λ taken. 0 < length piece.now → 0 < taken) }
{
    let taken = stream.write(piece).ok()?;
    if taken == 0 && !piece.is_empty() {
        return None;
    }
    stream.flush().ok()?;
    Some(taken)
}

impl Sink for StdSink {
    ghost written = { λ s. None };

    ghost faults = { λ s. s };

    ghost room = { λ s. None };

    fn write(&mut self, piece: &[u8]) -> Result<usize, Failed> {
        match write_flushed(&mut self.stream, piece) {
            Some(taken) => Ok(taken),
            None => {
                self.faults = self.faults.saturating_add(1);
                Err(Failed)
            }
        }
    }
}
