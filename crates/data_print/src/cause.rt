//! The causes of refusals.

use cochain::CocycleFault;
use group_table::GroupFault;
use prime_field::ModulusFault;
use qd_ring::{Plain, Site};
use qd_text::Expected;
use table_check::IdentityName;

/// How the blocks of a document don't match the classes of its group. Blocks and rows are counted from 0.
#[derive(Clone, Copy, Debug, PartialEq, Eq, Hash)]
pub enum ShapeFault {
    /// There are `given` blocks for `wanted` classes.
    Blocks {
        given: u32,
        wanted: u32,
    },
    /// The number of a block is not the representative of its class.
    Representative {
        block: u32,
        given: u32,
        wanted: u32,
    },
    /// The values of a row are not as many as the elements of the centraliser.
    Width {
        block: u32,
        row: u32,
        given: u32,
        wanted: u32,
    },
}

/// Why the program refuses what it was given: the first reason in the order of its steps.
#[derive(Clone, Copy, Debug, PartialEq, Eq)]
pub enum Cause {
    /// The words are not in the grammar of the program.
    Usage,
    /// The source failed.
    Read,
    /// More bytes came than the program reads.
    TooLong,
    /// Another token, or none, stands where this was expected.
    Syntax {
        offset: u32,
        expected: Expected,
    },
    /// A number is over 4,294,967,295, or a coefficient over 2^120 - 1 in magnitude.
    Wide {
        offset: u32,
    },
    /// A section stands that the command does not use.
    Section {
        offset: u32,
    },
    /// The order is not 1 to 60.
    Order {
        number: u32,
    },
    /// The number of roots is not 1 to 64.
    Roots {
        number: u32,
    },
    /// The table is not a group.
    Group(GroupFault),
    /// The exponents are not a normalised 3-cocycle.
    Cocycle(CocycleFault),
    /// The order of the group that is made is not 1 to 60.
    Size {
        order: u128,
    },
    /// The factor of the semidirect product that is made has this power, which is not 1.
    Action {
        power: u32,
    },
    /// No entry of the table of conductors is a multiple of this.
    NoConductor {
        multiple: u32,
    },
    /// The stated conductor is not the one that is needed.
    Conductor {
        stated: u32,
        needed: u32,
    },
    /// The number is no valid modulus for the order of the group and the conductor.
    Modulus(ModulusFault),
    /// The sum of the ranks is over the most that the command takes.
    Simples {
        ranks: u32,
        most: u32,
    },
    /// The blocks of characters don't match the classes.
    Shape(ShapeFault),
    /// No degree fits the sum `s`, a residue, of this row of the class of `at`.
    NoDegree {
        at: u32,
        row: u32,
        s: u32,
    },
    /// The multiplicities of this row of the class of `at` at the element `x` add up to `sum`, and not to the degree.
    Multiplicity {
        at: u32,
        row: u32,
        x: u32,
        sum: u32,
        degree: u32,
    },
    /// The table of the class of `at` has not as many rows as its rank says.
    Count {
        at: u32,
        rows: u32,
        rank: u32,
    },
    /// An equation of the check of the table of the class of `at` fails there, with these two sides.
    Identity {
        name: IdentityName,
        at: u32,
        i: u32,
        j: u32,
        x: u32,
        left: Plain,
        right: Plain,
    },
    /// The value of this row at the representative is no multiple of its degree by a power of the root.
    NoTwist {
        at: u32,
        row: u32,
        value: Plain,
    },
    /// No row of the table of the class of the identity has every value 1.
    NoVacuum {
        rows: u32,
    },
    /// The fusion sum of i, j and k is not the order of the group times a whole number of at least 0.
    NotWhole {
        i: u32,
        j: u32,
        k: u32,
        value: Plain,
    },
    /// A listed sum does not fit.
    Overflow {
        site: Site,
    },
}
