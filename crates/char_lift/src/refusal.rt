//! Why central characters are not lifted.

ghost use Rattle.std.specs.Prelude.{◌≡◌};

use group_table::Memory;

/// Why the central characters are not lifted: the first that isn't, by row and then by element.
#[derive(Clone, Copy, Debug, PartialEq, Eq)]
pub enum LiftRefusal {
    /// No degree fits the sum `s` of this row, a residue.
    NoDegree {
        row: u32,
        s: u32,
    },
    /// The multiplicities of this row at the element `x` add up to `sum`, and not to the degree.
    Multiplicity {
        row: u32,
        x: u32,
        sum: u32,
        degree: u32,
    },
    /// There was no memory. It says nothing of the central characters.
    Memory,
}

impl From<Memory> for LiftRefusal {
    ghost use Rattle.char_lift.specs.declared.refusal.LiftRefusal.TheVariants as refusals;

    ghost from_gives = { λ _ refusal. refusal ≡ refusals.Memory };

    fn from(_memory: Memory) -> LiftRefusal {
        LiftRefusal::Memory
    }
}
