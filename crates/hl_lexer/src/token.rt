//! Tokens.

use base_core::{Place, Sequence};

/// What a token is.
#[derive(Clone, Copy, Debug, PartialEq, Eq)]
pub enum TokenKind {
    /// A name: a letter or `_`, then letters, digits and `_`, that is no word.
    Name,
    /// A word, by its place in the table of words, from 0.
    Word(u8),
    /// A whole number, and whether it has a suffix that says that it has no sign.
    Number { value: u32, unsigned: bool },
    /// A mark, by its place in the table of marks, from 0.
    Mark(u8),
}

/// A token of a source.
#[derive(Clone, Copy, Debug)]
pub struct Token<'a> {
    /// What it is.
    pub kind: TokenKind,
    /// Its bytes, which stand in the source from `start` on.
    pub text: &'a [u8],
    /// The index of its first byte in the source.
    pub start: usize,
    /// The line and the column of its first byte.
    pub place: Place,
}

/// The tokens of a source.
#[derive(Debug, Drop)]
pub struct Tokens<'a> {
    /// The tokens in order.
    pub list: Sequence<Token<'a>>,
    /// The place behind the last byte of the source.
    pub end: Place,
}
