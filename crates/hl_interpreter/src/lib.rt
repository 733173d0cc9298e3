//! A plain interpreter of one lane of a program. Its contract is the meaning of the program: what the lane asks, and how
//! its run ends.
//!
//! It is slow and simple on purpose: each part of the meaning, as `hl_source` defines it, has one function here.
#![tactic(auto)]

mod assignments;
mod atomics;
mod buffers;
mod calling;
mod components;
mod expressions;
mod inputs;
mod intrinsic_numbers;
mod intrinsics;
mod lane;
mod loops;
mod marks;
mod memory;
mod operations;
mod places;
mod reading;
mod run;
mod slots;
mod state;
mod statements;
mod variables;
mod words;
mod works;
mod writing;

pub use lane::{LaneRun, run_lane};
pub use run::LanePlace;
