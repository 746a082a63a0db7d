//! The parts of the section of characters.

use qd_ring::Plain;

/// What was read last in the section of characters.
#[derive(Clone, Copy, Debug, PartialEq, Eq)]
pub enum Stage {
    /// The conductor.
    Conductor,
    /// The word `class`.
    Class,
    /// The number of a block.
    Number,
    /// The word `row`, or a value of a row.
    Row,
}

/// What one token of the section of characters says.
#[derive(Clone, Copy, Debug)]
pub enum Part {
    /// A block begins.
    Class,
    /// The number of a block.
    Number { number: u32 },
    /// A row begins.
    Row,
    /// A value of a row.
    Value { value: Plain },
    /// The document ends.
    End,
}
