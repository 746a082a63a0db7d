//! Fusion numbers in a web: entries that stand in one list, each linked in the ring of its pair and in the ring of its result.
#![tactic(auto)]

pub mod laws;
mod links;
mod node;
mod refusal;
mod side;
mod walks;
mod web;

pub use node::Node;
pub use refusal::WebRefusal;
pub use walks::{IntoWalk, RowWalk};
pub use web::Web;
/// There was no memory for what was asked. Nothing that was lent has changed.
pub use std::alloc::AllocError as Memory;
