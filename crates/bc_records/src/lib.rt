//! Modules as blocks and records (LLVM Bitcode File Format, "LLVM IR Encoding").
#![tactic(auto)]

mod code;
mod codes;
mod constants;
mod fault;
mod faults;
pub mod laws;
mod metadata;
mod push;
mod read;
mod reader;
mod symbols;
mod types;
mod values;
mod write;

pub use fault::RecordFault;
pub use reader::from_blocks;
pub use write::to_blocks;
