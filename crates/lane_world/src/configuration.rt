//! A dispatch with its buffers, and the state of the memory that its lanes share.

use base_core::{Sequence, Words};
use lane_core::{Event, Reply, Slot};

/// Where a lane sits: its wave's number, and its lane index in that wave.
#[derive(Clone, Copy, Debug, PartialEq, Eq)]
pub struct Seat {
    pub wave: u32,
    pub index: u32,
}

/// The seats of all lanes, in order of lane number.
pub type Seats = Sequence<Seat>;

/// A buffer: its slot, its stride in bytes (1 for a raw buffer), and its words.
#[derive(Debug, Drop)]
pub struct Buffer {
    pub slot: Slot,
    pub stride: u32,
    pub words: Words,
}

/// Buffers, each with a slot of its own.
pub type Buffers = Sequence<Buffer>;

/// The words of each groupshared variable of one group.
pub type SharedVariables = Sequence<Words>;

/// The groupshared words of each group.
pub type SharedStart = Sequence<SharedVariables>;

/// The events of one lane with their replies, in order.
pub type LaneHistory = Sequence<(Event, Reply)>;

/// The history of each lane, in order of lane number.
pub type History = Sequence<LaneHistory>;

/// A dispatch: the group counts (each 1 to 65535), the threads per group, the wave size (a power of
/// two from 4 to 128), each lane's seat, the buffers, the words that groupshared variables start
/// with, and the first contents of private allocations.
#[derive(Debug, Drop)]
pub struct Config {
    pub groups: [u32; 3],
    pub threads: [u32; 3],
    pub wave_size: u32,
    pub seats: Seats,
    pub buffers: Buffers,
    pub shared: SharedStart,
    pub start: Words,
}

/// The state of a run: the buffers, the groupshared words and what each lane has asked so far.
#[derive(Debug, Drop)]
pub struct World {
    pub buffers: Buffers,
    pub shared: SharedStart,
    pub asked: History,
}
