//! What is kept of the simples while fusion numbers are made.

use crate::weighted::Weighted;
use pair_orbits::Pairs;
use qd_ring::Terms;

/// The listed pairs of elements that commute, the full characters of all simples by simple and element, and their weighted conjugates by
/// simple. What is 0 isn't kept.
#[derive(Debug, Drop)]
pub struct Kept<const K: u32> {
    /// The pairs.
    pub pairs: Pairs,
    /// The full characters of simple i at g and each element, where g is in its class, at the place of i and g.
    pub full: Vec<Vec<Option<Box<Terms<K>>>>>,
    /// The weighted conjugates of each simple at the listed pairs whose first element is in its class.
    pub conjugates: Vec<Vec<Weighted<K>>>,
}
