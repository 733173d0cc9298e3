//! Lanes: what a lane of a dispatch asks of memory and of its neighbours, and how a run of it ends.
#![tactic(auto)]

pub mod event;
pub mod laws;

pub use event::{Asked, AtomicKind, Cell, Event, Item, LaneFault, Reply, RunFault, Slot, WaveKind};
