//! Why exponents are no cocycle, and why a cocycle was not gauged.

ghost use Rattle.std.specs.Prelude.{◌≡◌};
ghost use Rattle.cochain.specs.declared.fault.CocycleRefusal.TheVariants.{Memory};
ghost use Rattle.cochain.specs.declared.fault.GaugeRefusal.TheVariants as gauges;

use std::alloc::AllocError;

/// The first law of a normalised 3-cocycle that exponents break, at its least place.
#[derive(Clone, Copy, Debug, PartialEq, Eq)]
pub enum CocycleFault {
    /// An argument is the identity, and the exponent at `(g, h, k)` is not 0.
    NotNormalised { g: u32, h: u32, k: u32 },
    /// The cocycle law fails at `(g, h, k, l)`.
    NotCocycle { g: u32, h: u32, k: u32, l: u32 },
}

/// Why no cocycle was made of exponents.
#[derive(Clone, Copy, Debug, PartialEq, Eq)]
pub enum CocycleRefusal {
    /// The exponents are not a normalised 3-cocycle.
    Fault(CocycleFault),
    /// There was no memory. It says nothing of the exponents.
    Memory,
}

impl From<AllocError> for CocycleRefusal {
    ghost from_gives = { λ _ refusal. refusal ≡ Memory };

    fn from(_error: AllocError) -> CocycleRefusal {
        CocycleRefusal::Memory
    }
}

/// Why a cocycle was not gauged.
#[derive(Clone, Copy, Debug, PartialEq, Eq)]
pub enum GaugeRefusal {
    /// `g` or `h` is the identity, and the number of the pair is not 0 modulo the number of roots.
    NotNormal { g: u32, h: u32 },
    /// There was no memory. It says nothing of the numbers.
    Memory,
}

impl From<AllocError> for GaugeRefusal {
    ghost from_gives = { λ _ refusal. refusal ≡ gauges.Memory };

    fn from(_error: AllocError) -> GaugeRefusal {
        GaugeRefusal::Memory
    }
}
