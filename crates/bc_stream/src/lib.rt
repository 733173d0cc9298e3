//! The bitstream: blocks and records as bits (LLVM Bitcode File Format, "Bitstream Format").
#![tactic(auto)]

pub mod block;
pub mod build;
pub mod fault;
mod few;
pub mod laws;
mod piece;
pub mod read;
mod reader;
mod record;
pub mod values;
pub mod write;
mod writer;

pub use block::{BlockList, BlockTree, Entry, Part, Parts};
pub use build::{no_blocks, no_parts, push_block, push_entry, push_outermost};
pub use fault::StreamFault;
pub use laws::{no_fault_in_a_spelling, one_fault, one_list, read_back};
pub use read::read_blocks;
pub use values::Values;
pub use write::write_blocks;
