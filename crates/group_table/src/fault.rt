//! Why a table is no group.

ghost use Rattle.std.specs.Prelude.{◌≡◌};
ghost use Rattle.group_table.specs.declared.fault.GroupRefusal.TheVariants as refusals;

use crate::Memory;

/// The first law of a group that a table breaks, at its least place.
#[derive(Clone, Copy, Debug, PartialEq, Eq)]
pub enum GroupFault {
    /// The product of `g` and `h` is no element.
    Entry { g: u32, h: u32 },
    /// No element is a two-sided identity.
    NoIdentity,
    /// `g` has no right inverse.
    NoInverse { g: u32 },
    /// `(gh)k` is not `g(hk)`.
    NotAssociative { g: u32, h: u32, k: u32 },
}

/// Why no group was made of a table.
#[derive(Clone, Copy, Debug, PartialEq, Eq)]
pub enum GroupRefusal {
    /// The table is not a group.
    Fault(GroupFault),
    /// There was no memory. It says nothing of the table.
    Memory,
}

impl From<Memory> for GroupRefusal {
    ghost from_gives = { λ _ refusal. refusal ≡ refusals.Memory };

    fn from(_memory: Memory) -> GroupRefusal {
        GroupRefusal::Memory
    }
}
