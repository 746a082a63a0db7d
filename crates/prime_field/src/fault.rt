//! The conditions of a modulus, as faults.

/// The first condition of a modulus that a number doesn't meet.
#[derive(Clone, Copy, Debug, PartialEq, Eq)]
pub enum ModulusFault {
    /// `q` isn't over `above` and below 65,536.
    Range { q: u32, above: u32 },
    /// `q` isn't one of the listed moduli.
    Unlisted { q: u32 },
    /// `q` divides the conductor.
    DividesConductor { q: u32, conductor: u32 },
    /// The cyclotomic polynomial of the conductor has no root modulo `q`.
    NoRoot { q: u32, conductor: u32 },
}
