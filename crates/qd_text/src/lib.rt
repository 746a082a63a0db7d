//! Texts: tokens, numbers in decimal, and the words of a format.
#![tactic(auto)]

mod append;
mod expected;
mod natural;
mod token;

pub use append::{append_number, append_word};
pub use expected::Expected;
pub use natural::{NumberFault, number};
pub use token::{Token, next_token};
/// There was no memory for what was asked. Nothing that was lent has changed.
pub use std::alloc::AllocError as Memory;
