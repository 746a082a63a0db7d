//! The places of listed sums, for the sum that overflows.

/// The kind of a listed sum.
#[derive(Clone, Copy, PartialEq, Eq, Hash, Debug)]
pub enum Part {
    /// A side of the clause on inverse elements.
    Unitary,
    /// A side of the clause on the twist.
    Twist,
    /// A side of the clause that idempotents are central.
    Central,
    /// A side of the clause on products of idempotents.
    Product,
    /// A side of the clause on the sum of the idempotents.
    Sum,
    /// A side of the orthogonality of columns.
    Column,
    /// A full character.
    Full,
    /// A numerator of S.
    S,
    /// A tensor character.
    Tensor,
    /// An inner product of characters.
    Inner,
    /// A numerator of an indicator.
    Indicator,
}

/// The place of a listed sum; a number that its part doesn't name is 0.
#[derive(Clone, Copy, PartialEq, Eq, Hash, Debug)]
pub struct Site {
    /// The kind of the sum.
    pub part: Part,
    /// The representative of the class in the clauses of a table, the element g of a full or tensor
    /// character at (g, x), the simple k of an inner product with k or of its indicator.
    pub at: u32,
    /// The first row or simple.
    pub i: u32,
    /// The second row or simple; in the clauses Central and Column the element y of the group.
    pub j: u32,
    /// The element x of the group.
    pub x: u32,
}
