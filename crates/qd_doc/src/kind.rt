//! Kinds of natural numbers.

/// Which natural numbers may stand at a place.
#[derive(Clone, Copy, Debug, PartialEq, Eq)]
pub enum Kind {
    /// Any.
    Any,
    /// The order of a group, 1 to 60.
    Order,
    /// A number of roots, 1 to 64.
    Roots,
    /// An element: one below the order.
    Element { order: u32 },
    /// An entry of the table of conductors.
    Conductor,
}
