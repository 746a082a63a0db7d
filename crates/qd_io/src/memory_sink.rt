//! A sink into memory that can be made to fail.

ghost use Rattle.std.specs.Prelude.{◌≡◌, ◌<◌, ◌≤◌, [], length, MatchBool, Ok, Some, None, IfOk, OnErr, IsErr};
ghost use Rattle.std.specs.Io.KnownBytes.{WriteAppends};
ghost use Rattle.qd_io.specs.Stream.{Rises, KeepsRoom};
ghost use Rattle.qd_io.specs.Memory.{accepted, after_write, is_due, is_refused, next_call};

use crate::Memory;
use crate::sink::Sink;
use crate::source::Failed;
use std::alloc::Global;
use std::marker::Model;

/// A sink into memory that takes few bytes a call, has little room, and fails at chosen calls.
#[derive(Debug, Drop)]
pub struct MemSink {
    bytes: Vec<u8>,
    room: usize,
    step: usize,
    fails: Vec<u32>,
    calls: u32,
    faults: u64,
}

impl Model for MemSink {
    ghost use Rattle.std.specs.Prelude.{◌+◌, ◌≤◌, length, vec_capacity};
    ghost use Rattle.qd_io.specs.Memory.{MemorySink};

    ghost Value = { MemorySink };

    ghost view = { λ s. record { written = s.bytes.items; room = s.room; step = s.step; fails = s.fails.items; calls = s.calls; faults = s.faults } };

    ghost invariant = { λ s. (length s.bytes.items + s.room ≤ vec_capacity s.bytes)
        × (1 ≤ s.step) };
}

impl MemSink {
    /// A sink with room for `room` bytes, made now, that takes at most `step` of them a call; the calls whose
    /// numbers, from 1, stand in `fails` fail. A call past number 4,294,967,295 does not fail by that list.
    pub fn new(alloc: Global, room: usize, step: usize, fails: Vec<u32>) -> Result<MemSink, Memory>
        requires step { 1 ≤ step }
        ensures made { IfOk result (λ sink. sink
            ≡ record { written = []; room = room; step = step; fails = fails.items; calls = 0; faults = 0 }) }
    {
        Ok(MemSink {
            bytes: Vec::with_capacity(alloc, room)?,
            room,
            step,
            fails,
            calls: 0,
            faults: 0,
        })
    }

    /// The bytes that were written.
    pub fn written(&self) -> &Vec<u8>
        ensures written { result.now.items ≡ self.now.written }
    {
        &self.bytes
    }

    /// Counts a call, and whether it is one of those that fail.
    fn begin_call(&mut self) -> bool
        ensures due { result ≡ is_due self.old.fails self.old.calls }
        ensures counted { self.new ≡ record self.old { calls = next_call self.old.calls } }
    {
        let number = u64::from(self.calls) + 1;
        let due = self.fails.iter().any(|&call| u64::from(call) == number);
        self.calls = self.calls.saturating_add(1);
        due
    }
}

impl Sink for MemSink {
    ghost written = { λ s. Some s.written };

    ghost faults = { λ s. s.faults };

    ghost room = { λ s. None };

    fn write(&mut self, piece: &[u8]) -> Result<usize, Failed>
        ensures bound { IfOk result (λ taken. taken ≤ length piece.now) }
        ensures progress { IfOk result (λ taken. 0 < length piece.now → 0 < taken) }
        ensures bytes { WriteAppends (Some self.old.written)
            (Some self.new.written) result piece.now }
        ensures fault { OnErr result (Rises self.old.faults self.new.faults) }
        ensures never_falls { self.old.faults ≤ self.new.faults }
        ensures promised { KeepsRoom None None result piece.now }

        ensures answer { MatchBool (is_refused self.old piece.now)
            (IsErr result) (result ≡ Ok (accepted self.old (length piece.now))) }
        ensures after { self.new ≡ after_write self.old piece.now }
    {
        let due = self.begin_call();
        if due || (self.room == 0 && !piece.is_empty()) {
            self.faults = self.faults.saturating_add(1);
            return Err(Failed);
        }
        let count = self.step.min(piece.len().min(self.room));
        let front = &piece[..count];
        if self.bytes.extend_from_slice(front).is_err() {
            unreachable!();
        }
        self.room -= count;
        Ok(count)
    }
}
