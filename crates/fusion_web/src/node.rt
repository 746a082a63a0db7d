//! The nodes of a web.

/// An entry of a web, with its links to the entries that follow it in its two rings.
#[derive(Clone, Copy, PartialEq, Eq, Debug)]
pub struct Node {
    /// The first factor.
    pub i: u32,
    /// The second factor.
    pub j: u32,
    /// The result.
    pub k: u32,
    /// How often the result comes in the product of the factors, at least 1.
    pub count: u32,
    /// The place of the entry of the same pair with the next greater result; for the greatest, of that with the least.
    pub next_row: u32,
    /// The place of the next entry of the same result by i, then j; for the last, of the first.
    pub next_into: u32,
}
