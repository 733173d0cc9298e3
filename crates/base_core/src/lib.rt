//! What every other crate stands on: lists, places in a text, and the two ends of a program.
#![tactic(auto)]

mod front;
pub mod host;
pub mod memory_sink;
pub mod memory_source;
pub mod place;
pub mod plain_source;
pub mod sequence;
pub mod sink;
pub mod source;
#[cfg(test)]
mod tests;
pub mod whole;

pub use host::{HostSink, HostSource};
pub use memory_sink::MemorySink;
pub use memory_source::MemorySource;
pub use place::Place;
pub use plain_source::PlainSource;
pub use sequence::{Bytes, Calls, NoMemory, Sequence, Text, Words};
pub use sink::Sink;
pub use source::{Failed, Source};
pub use whole::{ReadStop, read_whole, write_whole};
