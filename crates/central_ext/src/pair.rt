//! The elements of the extension.

/// An element of the central extension of the group of a twist by its roots of unity: a place, and the exponent of a root. The place
/// is below the size of the twist, and the exponent below its modulus.
#[derive(Clone, Copy, Debug, PartialEq, Eq)]
pub struct Pair {
    pub place: u32,
    pub root: u32,
}
