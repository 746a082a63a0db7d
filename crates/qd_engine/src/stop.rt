//! Why there is no report.

ghost use Rattle.std.specs.Prelude.{◌≡◌};
ghost use Rattle.qd_engine.specs.declared.stop.Stop.TheVariants as stops;

use data_print::Cause;
use std::alloc::AllocError;

/// Why the program has no report to write.
#[derive(Clone, Copy, Debug, PartialEq, Eq)]
pub enum Stop {
    /// It refuses.
    Refused(Cause),
    /// There was no memory.
    Memory,
}

impl From<AllocError> for Stop {
    ghost from_gives = { λ _ stop. stop ≡ stops.Memory };

    /// Want of memory stops the program.
    fn from(_error: AllocError) -> Stop {
        Stop::Memory
    }
}
