//! A commuting pair with its weight.

/// Two elements that commute, least of their conjugates, with the number of these.
#[derive(Clone, Copy, Debug, PartialEq, Eq)]
pub struct Pair {
    pub g: u32,
    pub h: u32,
    pub weight: u32,
}
