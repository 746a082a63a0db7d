//! Why a table is not accepted.

ghost use Rattle.std.specs.Prelude.{◌≡◌};

use crate::identity_name::IdentityName;
use group_table::Memory;
use qd_ring::{Cyc, Site};

/// Why a table is not accepted, at the first place at which a side overflows or the clause fails; there the overflow goes first.
#[derive(Clone, Copy, Debug, PartialEq, Eq)]
pub enum TableRefusal<const K: u32> {
    /// A side overflows at this place.
    Overflow {
        site: Site,
    },
    /// The rows are not as many as the rank.
    Count {
        rows: u32,
        rank: u32,
    },
    /// An equation fails. The second number `j` is a row, or the element y; `x` is an element; a number that the clause does not
    /// name is 0.
    Identity {
        name: IdentityName,
        i: u32,
        j: u32,
        x: u32,
        left: Cyc<K>,
        right: Cyc<K>,
    },
    /// The value of this row at the centraliser's own element is no root multiple of its degree.
    NoTwist {
        row: u32,
        value: Cyc<K>,
    },
    /// No row has only the value 1, though the centraliser is that of the identity.
    NoVacuum {
        rows: u32,
    },
    /// There was no memory. It says nothing of the table.
    Memory,
}

impl<const K: u32> From<Memory> for TableRefusal<K> {
    ghost use Rattle.table_check.specs.declared.refusal.TableRefusal.TheVariants as refusals;

    ghost from_gives = { λ _ refusal. refusal ≡ refusals.Memory };

    fn from(_memory: Memory) -> TableRefusal<K> {
        TableRefusal::Memory
    }
}
