//! Tests of the formats below the compiler: the bitstream, the records of a module, the container and the validator.
//!
//! They stand apart from `bc_stream`, `bc_records`, `dx_container` and `dx_validate`, since a crate with tests is
//! proved twice.
#![tactic(auto)]

#[cfg(test)]
mod blocks;
#[cfg(test)]
mod container;
#[cfg(test)]
mod faults;
#[cfg(test)]
mod modules;
#[cfg(test)]
mod stream;
#[cfg(test)]
mod verdict;
