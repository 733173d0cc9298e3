//! The validator: a module that breaks none of its rules is `Checked`.
#![tactic(auto)]

mod rules;
mod verdict;

pub use verdict::{Checked, Invalid, validate};
