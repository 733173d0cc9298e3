//! Marks.

ghost use Rattle.std.specs.Prelude.{◌≡◌, ◌≤◌, ◌<◌, ℕ, List, [], ◌∷◌, ◌++◌, length, take, slice_index};
ghost use Rattle.hl_lexer.specs.declared.class.Class.TheVariants.{Mark};
ghost use Rattle.hl_lexer.specs.Scanning.{class_of, first_of, number_or_none};
ghost use Rattle.hl_lexer.specs.Tokens.{IsMark};

use crate::space::byte_at;

/// How many marks have one byte.
const SINGLE_COUNT: usize = 24;

/// The number that no mark has.
const NO_MARK: u8 = 255;

/// The mark of a byte twice, by the mark of the byte: `&&` for `&`.
static TWICE: [u8; SINGLE_COUNT] = [
    255, 255, 255, 255, 255, 255, 255, 255, 255, 255, 255, 26, 42, 43, 255, 255, 255, 30, 31, 255,
    255, 24, 25, 255,
];

/// The mark of a byte and `=`, by the mark of the byte: `&=` for `&`.
static WITH_EQUALS: [u8; SINGLE_COUNT] = [
    255, 255, 255, 255, 255, 255, 255, 255, 255, 255, 255, 26, 32, 33, 34, 35, 36, 28, 29, 27, 255,
    37, 38, 39,
];

/// The mark of a byte twice and `=`, by the mark of the byte: `<<=` for `<`.
static TWICE_WITH_EQUALS: [u8; SINGLE_COUNT] = [
    255, 255, 255, 255, 255, 255, 255, 255, 255, 255, 255, 255, 255, 255, 255, 255, 255, 40, 41,
    255, 255, 255, 255, 255,
];

/// A mark and its length.
#[derive(Clone, Copy, Debug)]
pub(crate) struct Found {
    /// The number of the mark.
    pub(crate) number: u8,
    /// How many bytes it has.
    pub(crate) length: usize,
}

/// The longest mark that a text begins with, whose first byte alone is the mark `single`.
pub(crate) fn longest_mark(single: u8, rest: &[u8]) -> Found
    requires some { 0 < length rest.now }
    requires class { class_of (slice_index rest.now 0) ≡ Mark single }
    ensures within { result.length ≤ length rest.now }
    ensures mark { IsMark result.number (take result.length rest.now) }
    ensures longest { (number : ℕ) (bytes after : List ℕ) → rest.now ≡ bytes ++ after → IsMark number bytes → length bytes ≤ result.length }
{
    let second = byte_at(rest, 1);
    let three = mark_of_three(single, rest[0], second, byte_at(rest, 2));
    if three != NO_MARK {
        return Found {
            number: three,
            length: 3,
        };
    }
    let two = mark_of_two(single, rest[0], second);
    if two != NO_MARK {
        return Found {
            number: two,
            length: 2,
        };
    }
    Found {
        number: single,
        length: 1,
    }
}

/// The mark of two bytes, of which the first alone is the mark `single`, or `NO_MARK`.
fn mark_of_two(single: u8, first: u8, second: u8) -> u8
    requires { class_of first ≡ Mark single }
    ensures { result ≡ number_or_none (first ∷ second ∷ []) }
{
    if second == b'=' {
        with_equals(single)
    } else if second == first {
        twice_of(single)
    } else {
        NO_MARK
    }
}

/// The mark of three bytes, of which the first alone is the mark `single`, or `NO_MARK`.
fn mark_of_three(single: u8, first: u8, second: u8, third: u8) -> u8
    requires { class_of first ≡ Mark single }
    ensures { result ≡ number_or_none (first ∷ second ∷ third ∷ []) }
{
    if third != b'=' {
        return NO_MARK;
    }
    if second != first {
        return NO_MARK;
    }
    twice_with_equals(single)
}

/// The mark of a byte twice, by the mark of the byte, or `NO_MARK`.
fn twice_of(single: u8) -> u8
    requires { single < 24 }
    ensures { result ≡ number_or_none (first_of single ∷ first_of single ∷ []) }
{
    TWICE[single as usize]
}

/// The mark of a byte and `=`, by the mark of the byte, or `NO_MARK`.
fn with_equals(single: u8) -> u8
    requires { single < 24 }
    ensures { result ≡ number_or_none (first_of single ∷ 61 ∷ []) }
{
    WITH_EQUALS[single as usize]
}

/// The mark of a byte twice and `=`, by the mark of the byte, or `NO_MARK`.
fn twice_with_equals(single: u8) -> u8
    requires { single < 24 }
    ensures { result ≡ number_or_none (first_of single ∷ first_of single ∷ 61 ∷ []) }
{
    TWICE_WITH_EQUALS[single as usize]
}
