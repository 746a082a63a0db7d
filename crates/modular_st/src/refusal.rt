//! Why a numerator of S is refused.

ghost use Rattle.std.specs.Prelude.{◌≡◌};
ghost use Rattle.modular_st.specs.declared.refusal.StRefusal.TheVariants as refusals;

use qd_ring::Site;
use std::alloc::{AllocError, AllocFailed};

/// Why the matrix S was not given.
#[derive(Clone, Copy, Debug, PartialEq, Eq)]
pub enum StRefusal {
    /// The numerator at this site overflows.
    Overflow { site: Site },
    /// There was no memory. It says nothing of the simples.
    Memory,
}

impl From<AllocError> for StRefusal {
    ghost from_gives = { λ _ refusal. refusal ≡ refusals.Memory };

    fn from(_memory: AllocError) -> StRefusal {
        StRefusal::Memory
    }
}

impl<T: Drop> From<AllocFailed<T>> for StRefusal {
    ghost from_gives = { λ _ refusal. refusal ≡ refusals.Memory };

    fn from(_error: AllocFailed<T>) -> StRefusal {
        StRefusal::Memory
    }
}
