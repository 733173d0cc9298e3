//! The tokens of a text.

ghost use Rattle.std.specs.Prelude.{◌≡◌, ◌+◌, ◌^◌, ◌<◌, ◌≤◌, ◌⊎◌, ℕ, List, length, drop, All, IfOk, IfErr, OnOk};
ghost use Rattle.base_core.specs.declared.place.Place.{Place};
ghost use Rattle.hl_lexer.specs.declared.fault.LexFault.TheVariants.{Memory};
ghost use Rattle.hl_lexer.specs.declared.fault.LexFault.{LexFault};
ghost use Rattle.hl_lexer.specs.Reading.{HasRead, OrderMarkIs, next_place, place_past};
ghost use Rattle.hl_lexer.specs.Scanning.{HasSpace, HasToken};
ghost use Rattle.hl_lexer.specs.Tokens.{BeginsLargeNumber, GivesTokens, IsFirstFault, IsPartOf, IsTokenList, Lexeme, lexemes_of, most_tokens};

use crate::fault::LexFault;
use crate::front::{Front, front_of};
use crate::space::byte_at;
use crate::token::{Token, TokenKind, Tokens};
use base_core::{Place, Sequence};
use std::alloc::Global;

/// The most tokens that are read.
const MOST_TOKENS: usize = 262144;

/// The tokens of a text, or its first fault.
///
/// # Errors
/// - `BadByte` where no token begins at a place that is no space, or a comment from `/*` on doesn't end.
/// - `NumberTooLarge` where a number above 4294967295 begins.
/// - `TooManyTokens` where another token begins behind 262144 tokens, be it a number of any size.
/// - `Memory` where memory was refused.
pub fn lex<'a>(alloc: Global, text: &'a [u8]) -> Result<Tokens<'a>, LexFault>
    requires { length text.now < 2 ^ 31 }
    // What is answered are the tokens of the text.
    ensures tokens { IfOk result (λ found. IsTokenList text.now (lexemes_of found) found.end) }
    ensures limit { IfOk result (λ found. length (lexemes_of found) ≤ most_tokens) }

    // Each token's bytes stand in the text from its start on.
    ensures parts { IfOk result (λ found. All (IsPartOf text.now) (lexemes_of found)) }

    // The tokens of the text are answered, if they are not too many, unless memory runs out.
    ensures every_list { (tokens : List Lexeme) (end : Place) → IsTokenList text.now tokens end → length tokens ≤ most_tokens → GivesTokens result tokens end }

    // The fault that is answered is the first one, and the first one is answered, unless memory runs out.
    ensures fault { IfErr result (λ fault. (fault ≡ Memory) ⊎ IsFirstFault text.now fault) }
    ensures every_fault { (fault : LexFault) → IsFirstFault text.now fault → (result ≡ Err fault) ⊎ (result ≡ Err Memory) }
{
    read(alloc, text)
}

/// A text of which a front is read.
#[derive(Debug, Drop)]
struct Reader<'a> {
    /// The whole text.
    text: &'a [u8],
    /// How many bytes are read.
    start: usize,
    /// The place of the next byte.
    place: Place,
    /// The tokens so far.
    tokens: Sequence<Token<'a>>,
}

/// Reads a whole text.
fn read<'a>(alloc: Global, text: &'a [u8]) -> Result<Tokens<'a>, LexFault>
    requires { length text.now < 2 ^ 31 }
    ensures tokens { IfOk result (λ found. IsTokenList text.now (lexemes_of found) found.end) }
    ensures limit { IfOk result (λ found. length (lexemes_of found) ≤ most_tokens) }
    ensures fault { IfErr result (λ fault. (fault ≡ Memory) ⊎ IsFirstFault text.now fault) }
{
    let mut reader = begin(alloc, text);
    while reader.start < text.len() {
        step(&mut reader)?;
    }
    Ok(Tokens {
        list: reader.tokens,
        end: reader.place,
    })
}

/// A text of which nothing is read but a byte-order mark.
fn begin<'a>(alloc: Global, text: &'a [u8]) -> Reader<'a>
    requires { length text.now < 2 ^ 31 }
    ensures text { result.text.now ≡ text.now }
    ensures read { HasRead result }
{
    let start = order_mark_length(text);
    Reader {
        text,
        start,
        place: Place {
            line: 1,
            column: 1 + start as u32,
        },
        tokens: Sequence::new(alloc),
    }
}

/// How many bytes the byte-order mark at the start of a text has: 3, or 0 where there is none.
fn order_mark_length(text: &[u8]) -> usize
    ensures { OrderMarkIs text.now result }
{
    if byte_at(text, 0) == 0xEF && byte_at(text, 1) == 0xBB && byte_at(text, 2) == 0xBF {
        3
    } else {
        0
    }
}

/// Reads a piece.
///
/// # Errors
/// The fault where no piece follows.
fn step<'a>(reader: &mut Reader<'a>) -> Result<(), LexFault>
    requires read { HasRead reader.old }
    requires more { reader.old.start < length reader.old.text.now }
    ensures text { reader.new.text.now ≡ reader.old.text.now }
    ensures read { OnOk result (HasRead reader.new) }
    ensures forward { OnOk result (reader.old.start < reader.new.start) }
    ensures fault { IfErr result (λ fault. (fault ≡ Memory) ⊎ IsFirstFault reader.old.text.now fault) }
{
    match front_of(&reader.text[reader.start..]) {
        Front::Space(length) => {
            skip(reader, length);
            Ok(())
        }
        Front::Token(kind, length) => take(reader, kind, length),
        Front::TooLarge => Err(large_number(reader)),
        Front::Nothing => Err(LexFault::BadByte(reader.place)),
    }
}

/// Passes a space.
fn skip<'a>(reader: &mut Reader<'a>, length: usize)
    requires read { HasRead reader.old }
    requires space { HasSpace (drop reader.old.start reader.old.text.now) length }
    ensures text { reader.new.text.now ≡ reader.old.text.now }
    ensures read { HasRead reader.new }
    ensures forward { reader.old.start < reader.new.start }
{
    let end = reader.start + length;
    reader.place = past(reader.place, &reader.text[reader.start..end]);
    reader.start = end;
}

/// Takes a token.
///
/// # Errors
/// `TooManyTokens` where there are 262144 already, and `Memory` where memory was refused.
fn take<'a>(reader: &mut Reader<'a>, kind: TokenKind, length: usize) -> Result<(), LexFault>
    requires read { HasRead reader.old }
    requires token { HasToken (drop reader.old.start reader.old.text.now) kind length }
    ensures text { reader.new.text.now ≡ reader.old.text.now }
    ensures read { OnOk result (HasRead reader.new) }
    ensures forward { OnOk result (reader.old.start < reader.new.start) }
    ensures fault { IfErr result (λ fault. (fault ≡ Memory) ⊎ IsFirstFault reader.old.text.now fault) }
{
    if reader.tokens.len() == MOST_TOKENS {
        return Err(LexFault::TooManyTokens);
    }
    let end = reader.start + length;
    let token = Token {
        kind,
        text: &reader.text[reader.start..end],
        start: reader.start,
        place: reader.place,
    };
    reader.tokens.push(token)?;
    reader.place.column += length as u32;
    reader.start = end;
    Ok(())
}

/// The fault at a number above 4294967295.
fn large_number<'a>(reader: &Reader<'a>) -> LexFault
    requires read { HasRead reader.now }
    requires number { BeginsLargeNumber (drop reader.now.start reader.now.text.now) }
    ensures { IsFirstFault reader.now.text.now result }
{
    if reader.tokens.len() == MOST_TOKENS {
        LexFault::TooManyTokens
    } else {
        LexFault::NumberTooLarge(reader.place)
    }
}

/// The place behind some bytes.
fn past(place: Place, bytes: &[u8]) -> Place
    requires line { place.line + length bytes.now < 2 ^ 32 }
    requires column { place.column + length bytes.now < 2 ^ 32 }
    ensures { result ≡ place_past place bytes.now }
{
    let mut place = place;
    for byte in bytes {
        place = next(place, *byte);
    }
    place
}

/// The place behind a byte.
fn next(place: Place, byte: u8) -> Place
    requires line { place.line + 1 < 2 ^ 32 }
    requires column { place.column + 1 < 2 ^ 32 }
    ensures { result ≡ next_place place byte }
{
    if byte == b'\n' {
        Place {
            line: place.line + 1,
            column: 1,
        }
    } else {
        Place {
            line: place.line,
            column: place.column + 1,
        }
    }
}
