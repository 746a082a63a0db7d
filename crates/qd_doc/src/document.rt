//! What a document says.

use crate::blocks::Blocks;
use group_table::Nats;

/// Which sections a document has.
#[derive(Clone, Copy, Debug, PartialEq, Eq, Hash)]
pub enum Form {
    /// The table of a group, and the exponents of a cochain.
    Bare,
    /// These, and then a conductor and blocks of rows of values.
    WithCharacters,
}

/// What a document says. Nothing is known of it but its shape: the table may be no group, the
/// exponents no cocycle, and the rows no characters.
#[derive(Debug, Drop)]
pub struct Document {
    /// The order n of the group.
    pub order: u32,
    /// The n n products: that of g and h stands at place g n + h.
    pub table: Nats,
    /// The number N of the roots of unity.
    pub roots: u32,
    /// The n n n exponents of a root of unity, as they are written: not reduced modulo N. That of
    /// g, h and k stands at place (g n + h) n + k.
    pub exponents: Nats,
    /// What follows the exponents: nothing in a bare document.
    pub characters: Option<Given>,
}

/// Rows of values that a document gives.
#[derive(Debug, Drop)]
pub struct Given {
    /// The conductor K of the values.
    pub conductor: u32,
    /// The blocks of rows, in their order. A value has coefficients below the power phi(K) alone.
    pub blocks: Blocks,
}
