//! Why a text is no document.

ghost use Rattle.std.specs.Prelude.{◌≡◌};
ghost use Rattle.qd_doc.specs.declared.refusal.DocRefusal.TheVariants.{Memory};

use qd_text::Expected;
use std::alloc::{AllocError, AllocFailed};
use std::error::Error;
use std::fmt;

/// Why a text is no document. Offsets count bytes from 0; the offset of a missing token is the
/// length of the text.
#[derive(Clone, Copy, Debug, PartialEq, Eq, Hash)]
pub enum DocRefusal {
    /// Another token, or none, stands where this was expected.
    Syntax { offset: u32, expected: Expected },
    /// A number is over 4,294,967,295.
    Wide { offset: u32 },
    /// A section that the form hasn't.
    Section { offset: u32 },
    /// The order isn't 1 to 60.
    Order { number: u32 },
    /// The number of roots isn't 1 to 64.
    Roots { number: u32 },
    /// There was no memory to read it. Says nothing of the text.
    Memory,
}

impl fmt::Display for DocRefusal {
    fn fmt<W: fmt::Write>(&self, f: &mut fmt::Formatter<W>) -> fmt::Result {
        match self {
            DocRefusal::Syntax { offset, expected } => {
                write!(f, "expected {} at byte {offset}", expected.text())
            }
            DocRefusal::Wide { offset } => write!(f, "number over 4294967295 at byte {offset}"),
            DocRefusal::Section { offset } => write!(f, "section out of place at byte {offset}"),
            DocRefusal::Order { number } => write!(f, "order {number} isn't 1 to 60"),
            DocRefusal::Roots { number } => write!(f, "number of roots {number} isn't 1 to 64"),
            DocRefusal::Memory => f.write_str("out of memory"),
        }
    }
}

impl Error for DocRefusal {}

impl From<AllocError> for DocRefusal {
    ghost from_gives = { λ _ e. e ≡ Memory };

    fn from(_error: AllocError) -> DocRefusal {
        DocRefusal::Memory
    }
}

impl<T: Drop> From<AllocFailed<T>> for DocRefusal {
    ghost from_gives = { λ _ e. e ≡ Memory };

    fn from(_error: AllocFailed<T>) -> DocRefusal {
        DocRefusal::Memory
    }
}
