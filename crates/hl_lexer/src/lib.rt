//! The tokens of a source text (HLSL language specification, "Lexical Conventions").
#![tactic(auto)]

mod class;
mod fault;
mod front;
pub mod laws;
mod mark;
mod name;
mod number;
mod reader;
mod space;
mod terminal;
mod token;
mod word;

pub use fault::LexFault;
pub use name::is_name;
pub use reader::lex;
pub use terminal::Terminal;
pub use token::{Token, TokenKind, Tokens};
