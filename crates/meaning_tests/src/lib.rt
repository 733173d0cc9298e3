//! Tests of what programs hold: their sizes, the kinds of their types, and which functions their calls mean.
//!
//! They stand apart from `hl_meaning`, `hl_layout` and `hl_overload`, since a crate with tests is proved twice.
#![tactic(auto)]

#[cfg(test)]
mod kinds;
#[cfg(test)]
mod overloads;
#[cfg(test)]
mod sizes;
