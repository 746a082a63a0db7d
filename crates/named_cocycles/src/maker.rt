//! The names of groups with a cocycle.

/// A group with a normalised 3-cocycle, by its family and its numbers.
#[derive(Clone, Copy, Debug, PartialEq, Eq)]
pub enum Maker {
    /// The cyclic group of order `n`, with the cocycle of type I of the class `p`.
    Cyclic { n: u32, p: u32 },
    /// The product of the cyclic groups of orders `a`, `b` and `c`, with the trivial cocycle.
    Product { a: u32, b: u32, c: u32 },
    /// The product of the cyclic groups of orders `a` and `b`, with the cocycle of type II of the class `p`.
    TypeTwo { a: u32, b: u32, p: u32 },
    /// The product of the cyclic groups of orders `a`, `b` and `c`, with the cocycle of type III of the class `p`.
    TypeThree { a: u32, b: u32, c: u32, p: u32 },
    /// The dihedral group of order `2 n`. If it is twisted, its cocycle is -1 exactly where all three arguments are reflections, and
    /// else it is trivial.
    Dihedral { n: u32, twisted: bool },
    /// The dicyclic group of order `4 n`, with the trivial cocycle.
    Dicyclic { n: u32 },
    /// The semidirect product of the cyclic groups of orders `n` and `m`, whose action is by the powers of `r`, with the trivial
    /// cocycle.
    Semidirect { n: u32, m: u32, r: u32 },
}
