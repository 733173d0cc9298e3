//! What holds of the values of every well-formed program: they have the words of their types.
#![tactic(auto)]

pub mod laws;
