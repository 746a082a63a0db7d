//! A coefficient at a power of the variable.

/// A whole-number coefficient at a power of x.
#[derive(Clone, Copy, PartialEq, Eq, Default, Debug)]
pub struct Monomial {
    /// The power of x.
    pub power: u32,
    /// Its coefficient.
    pub coefficient: i128,
}
