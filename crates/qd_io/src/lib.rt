//! Sources and sinks of bytes that may fail, with the faults counted, and the two calls that the program makes of them.
#![tactic(auto)]

mod copying;
mod memory_sink;
mod memory_source;
mod reading;
mod sink;
mod source;
mod streams;
mod sure;
mod writing;

pub use memory_sink::MemSink;
pub use memory_source::MemSource;
pub use reading::{INPUT_LIMIT, ReadRefusal, read_all};
pub use sink::Sink;
pub use source::{Failed, Source};
pub use streams::{StdSink, StdSource};
pub use sure::{SureSink, SureSource};
pub use writing::{WriteFault, write_whole};
/// There was no memory for what was asked.
pub use std::alloc::AllocError as Memory;
