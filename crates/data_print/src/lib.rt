//! The lines of reports and of refusals.
#![tactic(auto)]

mod cause;
mod class_lines;
mod fusion_lines;
mod head;
mod indicator_lines;
mod refusal;
mod s_lines;
mod simple_lines;
mod value_words;

pub use cause::{Cause, ShapeFault};
pub use class_lines::append_classes;
pub use fusion_lines::append_fusion;
pub use head::append_head;
pub use indicator_lines::append_indicator;
pub use refusal::append_refusal;
pub use s_lines::append_s;
pub use simple_lines::append_simples;
/// There was no memory for what was asked.
pub use std::alloc::AllocError as Memory;
