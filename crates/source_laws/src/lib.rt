//! What holds of the lane of every program, beside what `hl_source` says of it.
#![tactic(auto)]

pub mod laws;
