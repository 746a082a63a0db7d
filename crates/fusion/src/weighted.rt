//! A listed pair with the conjugate of a full character there.

use qd_ring::Terms;

/// The place of a listed pair, and the conjugate of a full character there, as often as the weight of the pair says, where that fits.
#[derive(Debug, Drop)]
pub struct Weighted<const K: u32> {
    /// The place in the list of pairs.
    pub place: u32,
    /// The conjugate, as often as the weight says.
    pub conjugate: Option<Terms<K>>,
}
