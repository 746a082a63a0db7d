//! Why no group was made.

ghost use Rattle.std.specs.Prelude.{◌≡◌};
ghost use Rattle.group_make.specs.declared.refusal.MakeRefusal.TheVariants as refusals;

use group_table::Memory;

/// Why no group, or no cocycle of one, was made of numbers.
#[derive(Clone, Copy, Debug, PartialEq, Eq)]
pub enum MakeRefusal {
    /// The group has this order, which is not from 1 to 60.
    Size { order: u128 },
    /// The factor of a semidirect product has this power, which is not 1.
    Action { power: u32 },
    /// There was no memory. It says nothing of the numbers.
    Memory,
}

impl From<Memory> for MakeRefusal {
    ghost from_gives = { λ _ refusal. refusal ≡ refusals.Memory };

    fn from(_memory: Memory) -> MakeRefusal {
        MakeRefusal::Memory
    }
}
