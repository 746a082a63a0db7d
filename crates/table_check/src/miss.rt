//! The places of the check, in their order.

/// A clause on a table of characters, in the order in which they are checked.
#[derive(Clone, Copy, Debug, PartialEq, Eq)]
pub enum Clause {
    /// There are as many rows as the rank.
    Count,
    /// The value at the identity is a degree.
    Degree,
    /// The value at an inverse is a root multiple of the conjugate.
    Unitary,
    /// The value at the centraliser's own element is a root multiple of the degree.
    Twist,
    /// The element of the conjugates of a row is central.
    Central,
    /// Such elements are orthogonal idempotents, up to whole factors.
    Product,
    /// They add up to one, up to whole factors.
    Sum,
    /// The columns are orthogonal.
    Column,
    /// Some row has only the value 1, where the centraliser is that of the identity.
    Vacuum,
}

/// A place of the check at which the table misses what is asked: a side overflows there, or the clause fails.
#[derive(Clone, Copy, Debug, PartialEq, Eq)]
pub struct Miss {
    /// The clause.
    pub clause: Clause,
    /// The first row; 0 where the clause names none.
    pub i: u32,
    /// The second row, or the place y; 0 where the clause names none.
    pub j: u32,
    /// The place x; 0 where the clause names none.
    pub x: u32,
}
