//! Why an entry is not inserted.

ghost use Rattle.std.specs.Prelude.{◌≡◌};
ghost use Rattle.fusion_web.specs.declared.refusal.WebRefusal.TheVariants as refusals;

use std::alloc::AllocFailed;

/// Why an entry was not inserted.
#[derive(Clone, Copy, Debug, PartialEq, Eq)]
pub enum WebRefusal {
    /// The web has 262,144 entries.
    Full,
    /// There was no memory. It says nothing of the web.
    Memory,
}

impl<T: Drop> From<AllocFailed<T>> for WebRefusal {
    ghost from_gives = { λ _ refusal. refusal ≡ refusals.Memory };

    fn from(_error: AllocFailed<T>) -> WebRefusal {
        WebRefusal::Memory
    }
}
