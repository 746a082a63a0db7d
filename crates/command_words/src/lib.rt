//! The words of the program as one simple command line: a command, and the values after it.
#![tactic(auto)]

mod parsing;
mod plain;
mod texts;

pub use parsing::{CommandWords, parse_words};
pub use plain::are_plain;
/// There was no memory for what was asked. It says nothing of the words.
pub use std::alloc::AllocError as Memory;
