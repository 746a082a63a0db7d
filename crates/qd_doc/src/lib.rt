//! Documents: a finite group's table, the exponents of a cochain and rows of values, as text.
#![tactic(auto)]

mod block_text;
mod blocks;
mod characters;
mod document;
mod head;
mod kind;
mod listing;
mod part;
mod printing;
mod reading;
mod refusal;
mod steps;
mod stretch;
mod term;
mod values;

pub use blocks::Blocks;
pub use characters::values_are_spelled;
pub use document::{Document, Form, Given};
pub use printing::{print, printed_is_read};
pub use qd_text::Memory;
pub use reading::parse;
pub use refusal::DocRefusal;
