//! The piece that a text begins with.

ghost use Rattle.std.specs.Prelude.{◌≡◌, ◌<◌, ◌≤◌, length, take, drop, slice_index};
ghost use Rattle.std.specs.List.{AllPass};
ghost use Rattle.hl_lexer.specs.declared.class.Class.TheVariants.{Digit, Letter, Mark};
ghost use Rattle.hl_lexer.specs.Bytes.{Ends, is_word_byte};
ghost use Rattle.hl_lexer.specs.Scanning.{FrontIs, class_of};
ghost use Rattle.hl_lexer.specs.Tokens.{BeginsComment};

use crate::class::{Class, class_of};
use crate::mark::longest_mark;
use crate::number::{TOO_LARGE, numeral_of};
use crate::space::{Comment, comment_of};
use crate::token::TokenKind;
use crate::word::word_number;

/// The piece that a text begins with, apart from the byte-order mark.
#[derive(Clone, Copy, Debug)]
pub(crate) enum Front {
    /// A space of this many bytes.
    Space(usize),
    /// A token of this many bytes.
    Token(TokenKind, usize),
    /// A number above 4294967295.
    TooLarge,
    /// No piece.
    Nothing,
}

/// The piece that a text begins with, apart from the byte-order mark.
pub(crate) fn front_of(rest: &[u8]) -> Front
    requires { 0 < length rest.now }
    ensures { FrontIs rest.now result }
{
    match class_of(rest[0]) {
        Class::Space => Front::Space(1),
        Class::Letter => name(rest),
        Class::Digit => number(rest),
        Class::Mark(single) => match comment_of(rest) {
            Comment::Absent => mark(single, rest),
            Comment::Closed(length) => Front::Space(length),
            Comment::Unclosed => Front::Nothing,
        },
        Class::Other => Front::Nothing,
    }
}

/// The name or the word that a text begins with, as its first byte says.
fn name(rest: &[u8]) -> Front
    requires some { 0 < length rest.now }
    requires class { class_of (slice_index rest.now 0) ≡ Letter }
    ensures { FrontIs rest.now result }
{
    let length = word_length(rest);
    match word_number(&rest[..length]) {
        Some(number) => Front::Token(TokenKind::Word(number), length),
        None => Front::Token(TokenKind::Name, length),
    }
}

/// The number that a text begins with, as its first byte says, if it is spelled well.
fn number(rest: &[u8]) -> Front
    requires some { 0 < length rest.now }
    requires class { class_of (slice_index rest.now 0) ≡ Digit }
    ensures { FrontIs rest.now result }
{
    let length = word_length(rest);
    match numeral_of(&rest[..length]) {
        Some(numeral) if numeral.value < TOO_LARGE => {
            let kind = TokenKind::Number {
                value: numeral.value as u32,
                unsigned: numeral.unsigned,
            };
            Front::Token(kind, length)
        }
        Some(_) => Front::TooLarge,
        None => Front::Nothing,
    }
}

/// The mark that a text begins with, as its first byte says.
fn mark(single: u8, rest: &[u8]) -> Front
    requires some { 0 < length rest.now }
    requires class { class_of (slice_index rest.now 0) ≡ Mark single }
    requires no_comment { ¬ BeginsComment rest.now }
    ensures { FrontIs rest.now result }
{
    let found = longest_mark(single, rest);
    Front::Token(TokenKind::Mark(found.number), found.length)
}

/// How many letters, digits and `_` a text begins with.
pub(crate) fn word_length(rest: &[u8]) -> usize
    ensures within { result ≤ length rest.now }
    ensures run { AllPass is_word_byte (take result rest.now) }
    ensures end { Ends is_word_byte (drop result rest.now) }
{
    for (index, byte) in rest.iter().enumerate() {
        if !is_word_byte(*byte) {
            return index;
        }
    }
    rest.len()
}

/// Whether a byte is a letter, a digit or `_`.
fn is_word_byte(byte: u8) -> bool
    ensures { result ≡ is_word_byte byte }
{
    match class_of(byte) {
        Class::Letter | Class::Digit => true,
        _ => false,
    }
}
