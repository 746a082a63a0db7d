//! A source in memory that never fails, and a sink in memory that promises room.

ghost use Rattle.std.specs.Prelude.{◌≡◌, ◌-◌, ◌<◌, ◌≤◌, ◌↔◌, [], ◌++◌, length, drop, min, Ok, Some, None, IfOk, IfErr, OnErr, OnOk, IsOk};
ghost use Rattle.std.specs.Io.KnownBytes.{ReadConsumes, WriteAppends};
ghost use Rattle.qd_io.specs.Stream.{Rises, KeepsRoom};
ghost use Rattle.qd_io.specs.Memory.{next_fault};

use crate::Memory;
use crate::copying::copy_front;
use crate::sink::Sink;
use crate::source::{Failed, Source};
use std::alloc::Global;
use std::marker::Model;

/// A source over bytes in memory that never fails.
#[derive(Debug, Drop)]
pub struct SureSource {
    bytes: Vec<u8>,
    at: usize,
}

impl Model for SureSource {
    ghost use Rattle.std.specs.Prelude.{◌≤◌, ℕ, List, drop, length};

    ghost Value = { List ℕ };

    ghost view = { λ s. drop s.at s.bytes.items };

    ghost invariant = { λ s. s.at ≤ length s.bytes.items };
}

impl SureSource {
    /// A source of these bytes.
    pub fn new(bytes: Vec<u8>) -> SureSource
        ensures made { result ≡ bytes.items }
    {
        SureSource { bytes, at: 0 }
    }
}

impl Source for SureSource {
    ghost left = { λ s. Some s };

    ghost faults = { λ s. 0 };

    fn read(&mut self, buf: &mut [u8]) -> Result<usize, Failed>
        ensures bound { IfOk result (λ k. k ≤ length buf.new) }
        ensures bytes { ReadConsumes (Some self.old) (Some self.new) result buf.new }
        ensures fault { OnErr result (Rises 0 0) }
        ensures never_falls { 0 ≤ 0 }

        ensures answer { result ≡ Ok (min (length buf.old) (length self.old)) }
    {
        let count = copy_front(&self.bytes[self.at..], buf, usize::MAX);
        self.at += count;
        Ok(count)
    }
}

/// A sink into memory that promises the room that is left. A piece that is longer is a fault, which is counted.
#[derive(Debug, Drop)]
pub struct SureSink {
    bytes: Vec<u8>,
    room: usize,
    faults: u64,
}

impl Model for SureSink {
    ghost use Rattle.std.specs.Prelude.{◌+◌, ◌≤◌, length, vec_capacity};
    ghost use Rattle.qd_io.specs.Memory.{RoomySink};

    ghost Value = { RoomySink };

    ghost view = { λ s. record { written = s.bytes.items; room = s.room; faults = s.faults } };

    ghost invariant = { λ s. length s.bytes.items + s.room ≤ vec_capacity s.bytes };
}

impl SureSink {
    /// A sink that promises room for `room` bytes, which is made now.
    pub fn new(alloc: Global, room: usize) -> Result<SureSink, Memory>
        ensures made { IfOk result (λ sink. sink
            ≡ record { written = []; room = room; faults = 0 }) }
    {
        Ok(SureSink {
            bytes: Vec::with_capacity(alloc, room)?,
            room,
            faults: 0,
        })
    }

    /// The bytes that were written.
    pub fn written(&self) -> &Vec<u8>
        ensures written { result.now.items ≡ self.now.written }
    {
        &self.bytes
    }
}

impl Sink for SureSink {
    ghost written = { λ s. Some s.written };

    ghost faults = { λ s. s.faults };

    ghost room = { λ s. Some s.room };

    fn write(&mut self, piece: &[u8]) -> Result<usize, Failed>
        ensures bound { IfOk result (λ taken. taken ≤ length piece.now) }
        ensures progress { IfOk result (λ taken. 0 < length piece.now → 0 < taken) }
        ensures bytes { WriteAppends (Some self.old.written)
            (Some self.new.written) result piece.now }
        ensures fault { OnErr result (Rises self.old.faults self.new.faults) }
        ensures never_falls { self.old.faults ≤ self.new.faults }
        ensures promised { KeepsRoom (Some self.old.room) (Some self.new.room) result piece.now }

        ensures sure { IsOk result ↔ (length piece.now ≤ self.old.room) }
        ensures taken { OnOk result (self.new ≡ record {
          written = self.old.written
              ++ piece.now;
          room = self.old.room - length piece.now;
          faults = self.old.faults;
        }) }
        ensures all { IfOk result (λ taken. taken ≡ length piece.now) }
        ensures refused { OnErr result (self.new
            ≡ record self.old { faults = next_fault self.old.faults }) }
    {
        if piece.len() > self.room {
            self.faults = self.faults.saturating_add(1);
            return Err(Failed);
        }
        if self.bytes.extend_from_slice(piece).is_err() {
            unreachable!();
        }
        self.room -= piece.len();
        Ok(piece.len())
    }
}
