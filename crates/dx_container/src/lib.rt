//! The container that holds a shader's bitcode, written and read.
#![tactic(auto)]

mod content;
mod field;
pub mod laws;
mod written;

pub use content::{ContainerFault, Unpacked, unpack};
pub use written::{PackInfo, pack};
