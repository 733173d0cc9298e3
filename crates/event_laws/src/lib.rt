//! What holds of the events that a lane of a well-formed program asks.
#![tactic(auto)]

pub mod laws;
