//! The names of the equations of a good table.

/// The clause of a good table that an equation belongs to.
#[derive(Clone, Copy, Debug, PartialEq, Eq, Hash)]
pub enum IdentityName {
    /// The value at the identity is a whole number from 1 on whose square is at most the order of the centraliser.
    Degree,
    /// The value at an inverse is a root multiple of the conjugate.
    Unitary,
    /// The element of the conjugates of a row commutes with the twisted group algebra.
    Central,
    /// Such elements are orthogonal idempotents, up to whole factors.
    Product,
    /// They add up to one, up to whole factors.
    Sum,
    /// The columns of the table are orthogonal.
    Column,
}
