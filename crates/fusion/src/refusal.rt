//! Why fusion numbers are not given.

ghost use Rattle.std.specs.Prelude.{◌≡◌};
ghost use Rattle.fusion.specs.declared.refusal.FusionRefusal.TheVariants as refusals;

use qd_ring::{Cyc, Site};
use std::alloc::{AllocError, AllocFailed};

/// Why the fusion numbers were not given.
#[derive(Clone, Copy, Debug, PartialEq, Eq)]
pub enum FusionRefusal<const K: u32> {
    /// The fusion sum of simples i, j and k, `value`, isn't the order of the group times a whole number of at least 0.
    NotWhole {
        i: u32,
        j: u32,
        k: u32,
        value: Cyc<K>,
    },
    /// The sum at this site overflows.
    Overflow {
        site: Site,
    },
    /// There was no memory. It says nothing of the simples.
    Memory,
}

impl<const K: u32> From<AllocError> for FusionRefusal<K> {
    ghost from_gives = { λ _ refusal. refusal ≡ refusals.Memory };

    fn from(_memory: AllocError) -> FusionRefusal<K> {
        FusionRefusal::Memory
    }
}

impl<const K: u32, T: Drop> From<AllocFailed<T>> for FusionRefusal<K> {
    ghost from_gives = { λ _ refusal. refusal ≡ refusals.Memory };

    fn from(_error: AllocFailed<T>) -> FusionRefusal<K> {
        FusionRefusal::Memory
    }
}
