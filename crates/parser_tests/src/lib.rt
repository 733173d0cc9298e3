//! Tests of the lexer, and of the parser over it: tokens, trees and faults of texts.
//!
//! They stand apart from `hl_lexer` and `hl_parser`, since a crate with tests is proved twice.
#![tactic(auto)]

#[cfg(test)]
mod tokens;
#[cfg(test)]
mod trees;
