//! Which of several functions a call means.
#![tactic(auto)]

mod best;
mod choice;
mod choosing;
mod conversion;
pub mod laws;

pub use choice::{Candidate, ChoiceFault, Param, Params};
pub use choosing::choose;
pub use conversion::cost;
