//! The meaning of a program: what a lane of it asks, and how its run ends.
#![tactic(auto)]

pub mod laws;
