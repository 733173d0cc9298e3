//! The tree of a source text, by a grammar that is a part of that of HLSL.
#![tactic(auto)]

mod act;
mod class;
mod declarations;
mod expressions;
mod fault;
mod first;
pub mod laws;
mod make;
mod make_declarations;
mod make_expressions;
mod make_statements;
mod parser;
mod parts;
mod pending;
mod read;
mod statements;
mod step;
mod symbol;
mod take;
mod tree;
mod values;

pub use fault::ParseFault;
pub use read::parse;
pub use tree::{Tree, Trees};
