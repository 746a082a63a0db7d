//! Rows of a table with what they are sorted by.

use qd_ring::Cyc;

/// A row of the table of a class, with what simples are compared by: field after field.
#[derive(Debug, PartialEq, Eq, PartialOrd, Ord, Drop)]
pub struct Entry<const K: u32> {
    /// Whether it is another simple than the vacuum.
    pub other: bool,
    /// The number of its class.
    pub class: u32,
    /// Its degree.
    pub degree: u32,
    /// Its values, place after place.
    pub values: Vec<Cyc<K>>,
    /// The number of its row.
    pub row: u32,
}
