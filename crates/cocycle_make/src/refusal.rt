//! Why no cocycle was inflated.

ghost use Rattle.std.specs.Prelude.{◌≡◌};
ghost use Rattle.cocycle_make.specs.declared.refusal.InflateRefusal.TheVariants.{Memory};

use std::alloc::AllocError;

/// Why a cocycle was not inflated along a map.
#[derive(Clone, Copy, Debug, PartialEq, Eq)]
pub enum InflateRefusal {
    /// The image of the product of `g` and `h` is not the product of their images.
    BadMap { g: u32, h: u32 },
    /// There was no memory. It says nothing of the map.
    Memory,
}

impl From<AllocError> for InflateRefusal {
    ghost from_gives = { λ _ refusal. refusal ≡ Memory };

    fn from(_error: AllocError) -> InflateRefusal {
        InflateRefusal::Memory
    }
}
