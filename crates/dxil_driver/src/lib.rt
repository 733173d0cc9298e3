//! The compiler and its tool as a library.
#![tactic(auto)]

pub mod checker;
pub mod command;
pub mod commands;
pub mod compiler;
mod container;
mod emit;
pub mod ends;
mod kernel_form;
pub mod laws;
pub mod options;
pub mod refusal;
pub mod status;
mod stores;

pub use checker::{CheckFault, check};
pub use command::Command;
pub use commands::tool;
pub use compiler::{CompileFault, compile, program_of};
pub use options::{Options, Target};
pub use refusal::Refusal;
pub use status::Status;
pub use stores::{FirstForm, LiteralStore, LiteralStores};
