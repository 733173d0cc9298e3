//! Programs without calls, and how a program becomes one.
#![tactic(auto)]

mod adding;
mod bodies;
mod calling;
mod constants;
mod context;
mod copies;
mod emitting;
mod entry;
mod flat;
mod fresh;
mod inlining;
mod last_call;
pub mod laws;
mod made;
mod occurrences;
mod parts;
mod places;
mod searching;
mod settling;
mod undeclared_uses;

pub use flat::{Flat, FlatStmt, FlatStmts};
pub use inlining::inline;
