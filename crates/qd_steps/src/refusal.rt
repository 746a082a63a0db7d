//! Why there are no simples.

ghost use Rattle.std.specs.Prelude.{◌≡◌};
ghost use Rattle.qd_steps.specs.declared.refusal.StepRefusal.TheVariants as refusals;

use data_print::Cause;
use group_table::Memory;

/// Why rows, stated or lifted, give no simples.
#[derive(Clone, Copy, Debug, PartialEq, Eq)]
pub enum StepRefusal {
    /// A class has no lifted rows, or its table misses something: this is the first such cause.
    Refused(Cause),
    /// There was no memory. It says nothing of the rows.
    Memory,
}

impl From<Memory> for StepRefusal {
    ghost from_gives = { λ _ refusal. refusal ≡ refusals.Memory };

    fn from(_memory: Memory) -> StepRefusal {
        StepRefusal::Memory
    }
}
