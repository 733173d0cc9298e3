//! Dispatches and their worlds: the buffers, groupshared variables and seats that lanes run in, and what each lane has
//! asked so far.
#![tactic(auto)]

pub mod configuration;

pub use configuration::{
    Buffer, Buffers, Config, History, LaneHistory, Seat, Seats, SharedStart, SharedVariables, World,
};
