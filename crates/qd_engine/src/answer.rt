//! What the program has to say, and how it ends: causes, answers and their statuses.

ghost use Rattle.std.specs.Prelude.{◌≡◌};
ghost use Rattle.qd_engine.specs.Answers.{said_by, IsOfWhole, refused, Whole, status_of_cause, status_of};

use cochain::CocycleFault;
use data_print::{Cause, ShapeFault};
use group_table::GroupFault;
use prime_field::ModulusFault;
use qd_ring::{Plain, Site};
use qd_text::Expected;
use table_check::IdentityName;

/// How the program ended.
#[derive(Clone, Copy, Debug, PartialEq, Eq)]
pub enum Why {
    /// The report was written whole.
    Done,
    /// The words are not in the grammar of the program.
    Usage,
    /// The source failed.
    Read,
    /// More than 4,194,304 bytes came.
    TooLong,
    /// Another token, or none, stands where this was expected.
    Syntax {
        offset: u32,
        expected: Expected,
    },
    /// A number is over 4,294,967,295, or a coefficient over 2^120 - 1 in magnitude.
    Wide {
        offset: u32,
    },
    /// A section stands that the command does not use.
    Section {
        offset: u32,
    },
    /// The order is not 1 to 60.
    Order {
        number: u32,
    },
    /// The number of roots is not 1 to 64.
    Roots {
        number: u32,
    },
    /// The table is not a group.
    Group(GroupFault),
    /// The exponents are not a normalised 3-cocycle.
    Cocycle(CocycleFault),
    /// The order of the group that is made is not 1 to 60.
    Size {
        order: u128,
    },
    /// The factor of the semidirect product that is made has this power, which is not 1.
    Action {
        power: u32,
    },
    /// No entry of the table of conductors is a multiple of this.
    NoConductor {
        multiple: u32,
    },
    /// The stated conductor is not the one that is needed.
    Conductor {
        stated: u32,
        needed: u32,
    },
    /// The number is no valid modulus for the order of the group and the conductor.
    Modulus(ModulusFault),
    /// The sum of the ranks is over the most that the command takes.
    Simples {
        ranks: u32,
        most: u32,
    },
    /// The blocks of characters don't match the classes.
    Shape(ShapeFault),
    /// No degree fits the sum `s`, a residue, of this row of the class of `at`.
    NoDegree {
        at: u32,
        row: u32,
        s: u32,
    },
    /// The multiplicities of this row of the class of `at` at the element `x` add up to `sum`, and not to the degree.
    Multiplicity {
        at: u32,
        row: u32,
        x: u32,
        sum: u32,
        degree: u32,
    },
    /// The table of the class of `at` has not as many rows as its rank says.
    Count {
        at: u32,
        rows: u32,
        rank: u32,
    },
    /// An equation of the check of the table of the class of `at` fails there, with these two sides.
    Identity {
        name: IdentityName,
        at: u32,
        i: u32,
        j: u32,
        x: u32,
        left: Plain,
        right: Plain,
    },
    /// The value of this row at the representative is no multiple of its degree by a power of the root.
    NoTwist {
        at: u32,
        row: u32,
        value: Plain,
    },
    /// No row of the table of the class of the identity has every value 1.
    NoVacuum {
        rows: u32,
    },
    /// The fusion sum of i, j and k is not the order of the group times a whole number of at least 0.
    NotWhole {
        i: u32,
        j: u32,
        k: u32,
        value: Plain,
    },
    /// A listed sum does not fit.
    Overflow {
        site: Site,
    },
    /// The sink failed. But for that the answer had the status `planned`: 0 for a report, or the status of a
    /// refusal. A front of its text was written.
    Write {
        planned: u8,
    },
    /// There was no memory.
    Memory,
}

/// The answer of the program: its status, and why it has it.
#[derive(Clone, Copy, Debug, PartialEq, Eq)]
pub struct Answer {
    /// The status that the process ends with: that of `why`.
    pub status: u8,
    /// How the program ended.
    pub why: Why,
}

/// A refusal: its cause, and the number of the section of the input of which it is said, or none where it is said of the whole input.
#[derive(Clone, Copy, Debug)]
pub struct Refusal {
    pub cause: Cause,
    pub section: Option<u32>,
}

/// What the program has to say, before it is written.
#[derive(Clone, Copy, Debug)]
pub enum Outcome {
    /// A report.
    Report,
    /// A refusal.
    Refused(Refusal),
    /// That there was no memory.
    Memory,
}

/// The answer that stands for a cause.
fn why_of_cause(cause: Cause) -> Why
    ensures said { said_by result ≡ refused cause }
{
    match cause {
        Cause::Usage => Why::Usage,
        Cause::Read => Why::Read,
        Cause::TooLong => Why::TooLong,
        Cause::Syntax { offset, expected } => Why::Syntax { offset, expected },
        Cause::Wide { offset } => Why::Wide { offset },
        Cause::Section { offset } => Why::Section { offset },
        Cause::Order { number } => Why::Order { number },
        Cause::Roots { number } => Why::Roots { number },
        Cause::Group(fault) => Why::Group(fault),
        Cause::Cocycle(fault) => Why::Cocycle(fault),
        Cause::Size { order } => Why::Size { order },
        Cause::Action { power } => Why::Action { power },
        Cause::NoConductor { multiple } => Why::NoConductor { multiple },
        Cause::Conductor { stated, needed } => Why::Conductor { stated, needed },
        Cause::Modulus(fault) => Why::Modulus(fault),
        Cause::Simples { ranks, most } => Why::Simples { ranks, most },
        Cause::Shape(fault) => Why::Shape(fault),
        Cause::NoDegree { at, row, s } => Why::NoDegree { at, row, s },
        Cause::Multiplicity {
            at,
            row,
            x,
            sum,
            degree,
        } => {
            Why::Multiplicity {
                at,
                row,
                x,
                sum,
                degree,
            }
        }
        Cause::Count { at, rows, rank } => Why::Count { at, rows, rank },
        Cause::Identity {
            name,
            at,
            i,
            j,
            x,
            left,
            right,
        } => {
            Why::Identity {
                name,
                at,
                i,
                j,
                x,
                left,
                right,
            }
        }
        Cause::NoTwist { at, row, value } => Why::NoTwist { at, row, value },
        Cause::NoVacuum { rows } => Why::NoVacuum { rows },
        Cause::NotWhole { i, j, k, value } => Why::NotWhole { i, j, k, value },
        Cause::Overflow { site } => Why::Overflow { site },
    }
}

/// The status of the answer that stands for a cause.
fn status_of_cause(cause: &Cause) -> u8
    ensures status { result ≡ status_of_cause cause.now }
{
    match cause {
        Cause::Usage => 2,
        Cause::Syntax { .. } | Cause::Wide { .. } | Cause::Section { .. } => 3,
        Cause::Group(_) | Cause::Action { .. } => 4,
        Cause::Cocycle(_) => 5,
        Cause::TooLong | Cause::Order { .. } | Cause::Roots { .. } | Cause::Size { .. } => 6,
        Cause::NoConductor { .. } | Cause::Conductor { .. } | Cause::Simples { .. } => 6,
        Cause::Modulus(_) => 7,
        Cause::NoDegree { .. } | Cause::Multiplicity { .. } => 8,
        Cause::Shape(_) | Cause::Count { .. } | Cause::Identity { .. } => 9,
        Cause::NoTwist { .. } | Cause::NoVacuum { .. } => 9,
        Cause::NotWhole { .. } => 10,
        Cause::Overflow { .. } => 11,
        Cause::Read => 12,
    }
}

impl Outcome {
    /// How the program ends where this is written whole.
    pub fn why(self) -> Why
        requires whole { IsOfWhole self }
        ensures said { said_by result ≡ Whole self }
    {
        match self {
            Outcome::Report => Why::Done,
            Outcome::Memory => Why::Memory,
            Outcome::Refused(refusal) => why_of_cause(refusal.cause),
        }
    }

    /// The status that the program ends with where this is written whole.
    pub fn status(self) -> u8
        ensures status { result ≡ status_of self }
    {
        match self {
            Outcome::Report => 0,
            Outcome::Memory => 14,
            Outcome::Refused(refusal) => status_of_cause(&refusal.cause),
        }
    }
}
