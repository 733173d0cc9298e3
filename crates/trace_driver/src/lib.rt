//! What one lane of a source asks, as lines of text.
#![tactic(auto)]

pub mod laws;
mod lines;
mod request;
mod source;
mod tool;

pub use request::Request;
pub use tool::trace;
