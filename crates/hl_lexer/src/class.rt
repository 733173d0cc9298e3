//! The classes of bytes: what a piece of a text can be that begins with a byte.

ghost use Rattle.std.specs.Prelude.{◌≡◌, slice_index};
ghost use Rattle.hl_lexer.specs.Scanning.{class_of};

/// What a piece of a text can be that begins with a byte.
#[derive(Clone, Copy, Debug)]
pub(crate) enum Class {
    /// No piece begins with the byte.
    Other,
    /// A space of one byte.
    Space,
    /// A name or a word.
    Letter,
    /// A number.
    Digit,
    /// A mark, or a comment. The byte alone is the mark of this number.
    Mark(u8),
}

/// What the table has for a byte with which no piece begins.
const OTHER: u8 = 255;

/// What the table has for a space of one byte.
const SPACE: u8 = 254;

/// What the table has for a letter or `_`.
const LETTER: u8 = 253;

/// What the table has for a digit.
const DIGIT: u8 = 252;

/// What each byte can begin: one of the numbers above, or the number of the mark that it is.
#[rattlefmt::skip]
static CLASSES: [u8; 256] = [
    OTHER, OTHER, OTHER, OTHER, OTHER, OTHER, OTHER, OTHER,
    OTHER, SPACE, SPACE, OTHER, OTHER, SPACE, OTHER, OTHER,
    OTHER, OTHER, OTHER, OTHER, OTHER, OTHER, OTHER, OTHER,
    OTHER, OTHER, OTHER, OTHER, OTHER, OTHER, OTHER, OTHER,
    SPACE, 19, OTHER, OTHER, OTHER, 16, 21, OTHER,
    0, 1, 14, 12, 7, 13, 8, 15,
    DIGIT, DIGIT, DIGIT, DIGIT, DIGIT, DIGIT, DIGIT, DIGIT,
    DIGIT, DIGIT, 9, 6, 17, 11, 18, 10,
    OTHER, LETTER, LETTER, LETTER, LETTER, LETTER, LETTER, LETTER,
    LETTER, LETTER, LETTER, LETTER, LETTER, LETTER, LETTER, LETTER,
    LETTER, LETTER, LETTER, LETTER, LETTER, LETTER, LETTER, LETTER,
    LETTER, LETTER, LETTER, 4, OTHER, 5, 23, LETTER,
    OTHER, LETTER, LETTER, LETTER, LETTER, LETTER, LETTER, LETTER,
    LETTER, LETTER, LETTER, LETTER, LETTER, LETTER, LETTER, LETTER,
    LETTER, LETTER, LETTER, LETTER, LETTER, LETTER, LETTER, LETTER,
    LETTER, LETTER, LETTER, 2, 22, 3, 20, OTHER,
    OTHER, OTHER, OTHER, OTHER, OTHER, OTHER, OTHER, OTHER,
    OTHER, OTHER, OTHER, OTHER, OTHER, OTHER, OTHER, OTHER,
    OTHER, OTHER, OTHER, OTHER, OTHER, OTHER, OTHER, OTHER,
    OTHER, OTHER, OTHER, OTHER, OTHER, OTHER, OTHER, OTHER,
    OTHER, OTHER, OTHER, OTHER, OTHER, OTHER, OTHER, OTHER,
    OTHER, OTHER, OTHER, OTHER, OTHER, OTHER, OTHER, OTHER,
    OTHER, OTHER, OTHER, OTHER, OTHER, OTHER, OTHER, OTHER,
    OTHER, OTHER, OTHER, OTHER, OTHER, OTHER, OTHER, OTHER,
    OTHER, OTHER, OTHER, OTHER, OTHER, OTHER, OTHER, OTHER,
    OTHER, OTHER, OTHER, OTHER, OTHER, OTHER, OTHER, OTHER,
    OTHER, OTHER, OTHER, OTHER, OTHER, OTHER, OTHER, OTHER,
    OTHER, OTHER, OTHER, OTHER, OTHER, OTHER, OTHER, OTHER,
    OTHER, OTHER, OTHER, OTHER, OTHER, OTHER, OTHER, OTHER,
    OTHER, OTHER, OTHER, OTHER, OTHER, OTHER, OTHER, OTHER,
    OTHER, OTHER, OTHER, OTHER, OTHER, OTHER, OTHER, OTHER,
    OTHER, OTHER, OTHER, OTHER, OTHER, OTHER, OTHER, OTHER,
];

/// The class of a byte.
pub(crate) fn class_of(byte: u8) -> Class
    ensures { result ≡ class_of byte }
{
    let code = code_of(byte);
    if code == LETTER {
        Class::Letter
    } else if code == SPACE {
        Class::Space
    } else if code == DIGIT {
        Class::Digit
    } else if code == OTHER {
        Class::Other
    } else {
        Class::Mark(code)
    }
}

/// The class of a byte as the table has it.
fn code_of(byte: u8) -> u8
    ensures { result ≡ slice_index CLASSES byte }
{
    CLASSES[byte as usize]
}
