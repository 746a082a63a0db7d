//! A source in memory that can be made to fail.

ghost use Rattle.std.specs.Prelude.{◌≡◌, ◌≤◌, length, MatchBool, Ok, Some, IfOk, OnErr, IsErr};
ghost use Rattle.std.specs.Io.KnownBytes.{ReadConsumes};
ghost use Rattle.qd_io.specs.Stream.{Rises};
ghost use Rattle.qd_io.specs.Memory.{given, after_read, is_due, next_call};

use crate::copying::copy_front;
use crate::source::{Failed, Source};
use std::marker::Model;

/// A source over bytes in memory that gives few bytes a call, and fails at chosen calls.
#[derive(Debug, Drop)]
pub struct MemSource {
    bytes: Vec<u8>,
    at: usize,
    step: usize,
    fails: Vec<u32>,
    calls: u32,
    faults: u64,
}

impl Model for MemSource {
    ghost use Rattle.std.specs.Prelude.{◌≤◌, drop, length};
    ghost use Rattle.qd_io.specs.Memory.{MemorySource};

    ghost Value = { MemorySource };

    ghost view = { λ s. record { left = drop s.at s.bytes.items; step = s.step; fails = s.fails.items; calls = s.calls; faults = s.faults } };

    ghost invariant = { λ s. (s.at ≤ length s.bytes.items) × (1 ≤ s.step) };
}

impl MemSource {
    /// A source of these bytes that gives at most `step` of them a call; the calls whose numbers, from 1, stand in
    /// `fails` fail. A call past number 4,294,967,295 does not fail.
    pub fn new(bytes: Vec<u8>, step: usize, fails: Vec<u32>) -> MemSource
        requires step { 1 ≤ step }
        ensures made { result ≡ record { left = bytes.items; step = step; fails = fails.items; calls = 0; faults = 0 } }
    {
        MemSource {
            bytes,
            at: 0,
            step,
            fails,
            calls: 0,
            faults: 0,
        }
    }

    /// Counts a call, and whether it is one of those that fail.
    fn begin_call(&mut self) -> bool
        ensures due { result ≡ is_due self.old.fails self.old.calls }
        ensures counted { self.new ≡ record self.old { calls = next_call self.old.calls } }
    {
        let number = u64::from(self.calls) + 1;
        let due = self.fails.iter().any(|&call| u64::from(call) == number);
        self.calls = self.calls.saturating_add(1);
        due
    }
}

impl Source for MemSource {
    ghost left = { λ s. Some s.left };

    ghost faults = { λ s. s.faults };

    fn read(&mut self, buf: &mut [u8]) -> Result<usize, Failed>
        ensures bound { IfOk result (λ k. k ≤ length buf.new) }
        ensures bytes { ReadConsumes (Some self.old.left) (Some self.new.left) result buf.new }
        ensures fault { OnErr result (Rises self.old.faults self.new.faults) }
        ensures never_falls { self.old.faults ≤ self.new.faults }

        ensures answer { MatchBool (is_due self.old.fails self.old.calls)
            (IsErr result) (result ≡ Ok (given self.old (length buf.old))) }
        ensures after { self.new ≡ after_read self.old (length buf.old) }
    {
        if self.begin_call() {
            self.faults = self.faults.saturating_add(1);
            return Err(Failed);
        }
        let count = copy_front(&self.bytes[self.at..], buf, self.step);
        self.at += count;
        Ok(count)
    }
}
