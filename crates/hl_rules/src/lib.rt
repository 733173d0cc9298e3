//! The typing rules of the language, and the typed program of a tree.
#![tactic(auto)]

mod found;
mod interlocked;
pub mod laws;

pub use found::{Broken, note_if};
pub use interlocked::{Interlocked, Method, Presence};
