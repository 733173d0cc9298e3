//! The words of the types of a program, and of which kinds they are, as `hl_meaning` defines them.
#![tactic(auto)]

mod kinds;
mod words;

pub use kinds::{Kinds, kinds_in, struct_kinds};
pub use words::words_of;
