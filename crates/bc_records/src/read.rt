//! The module that a block list says, whatever is at fault in it.
//!
//! Numbers are taken modulo the size of their fields, what is missing is empty, and what names nothing is passed by.

mod blocks;
mod bodies;
mod constants;
mod defined;
mod metadata;
mod module;
mod names;
mod operands;
mod types;

pub(crate) use module::read_module;
