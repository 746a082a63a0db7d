//! Sinks: where bytes go.

ghost use Rattle.std.specs.Prelude.{◌≡◌, ℕ, ◌<◌, ◌≤◌, List, Option, length, IfOk, OnErr};
ghost use Rattle.std.specs.Io.KnownBytes.{WriteAppends};
ghost use Rattle.qd_io.specs.Stream.{Rises, KeepsRoom};

use crate::source::Failed;

/// Where bytes go.
///
/// A sink may tell which bytes were written, counts its faults, and may promise room.
pub trait Sink {
    /// The bytes that were written, where the sink tells them.
    ghost written: { Self → Option (List ℕ) };

    /// How many faults there have been.
    ghost faults: { Self → ℕ };

    /// How many bytes the sink promises to take, where it promises any.
    ghost room: { Self → Option ℕ };

    /// Takes bytes from the front of `piece`, and answers how many: at least one where `piece` is not empty.
    /// After `Failed` what was written stays. A piece no longer than the promised room is never refused.
    fn write(&mut self, piece: &[u8]) -> Result<usize, Failed>
        ensures bound { IfOk result (λ taken. taken ≤ length piece.now) }
        ensures progress { IfOk result (λ taken. 0 < length piece.now → 0 < taken) }
        ensures bytes { WriteAppends (written self.old) (written self.new) result piece.now }
        ensures fault { OnErr result (Rises (faults self.old) (faults self.new)) }
        ensures never_falls { faults self.old ≤ faults self.new }
        ensures promised { KeepsRoom (room self.old) (room self.new) result piece.now };
}
