//! Numbers.

ghost use Rattle.std.specs.Prelude.{◌≡◌, ◌≤◌, ◌↔◌, ◌⊎◌, ℕ, Bool, IsTrue, MatchOption};
ghost use Rattle.hl_lexer.specs.Numbers.{AreSomeDigits, IsNumber, SpellsNumber, digits_number};
ghost use Rattle.hl_lexer.specs.Scanning.{capped, NumeralIs, SpellsCapped, SplitsSuffix};

use crate::space::byte_at;

/// What stands for each number above 4294967295.
pub(crate) const TOO_LARGE: u64 = 4294967296;

/// A number and whether it has a suffix.
#[derive(Clone, Copy, Debug)]
pub(crate) struct Numeral {
    /// The number, or 4294967296 where it is larger.
    pub(crate) value: u64,
    /// Whether a suffix says that it has no sign.
    pub(crate) unsigned: bool,
}

/// The number that a text spells, if it spells one.
pub(crate) fn numeral_of(text: &[u8]) -> Option<Numeral>
    ensures { MatchOption result ((number : ℕ) (unsigned : Bool) → ¬ IsNumber text.now number unsigned) (NumeralIs text.now) }
{
    let (digits, unsigned) = split_suffix(text);
    match number(digits) {
        Some(value) => Some(Numeral { value, unsigned }),
        None => None,
    }
}

/// A text without its suffix, and whether it has one.
fn split_suffix(text: &[u8]) -> (&[u8], bool)
    ensures { SplitsSuffix text.now result.0.now result.1 }
{
    let length = text.len();
    if length > 0 && is_suffix(text[length - 1]) {
        (&text[..length - 1], true)
    } else {
        (text, false)
    }
}

/// Whether a byte is a suffix.
fn is_suffix(byte: u8) -> bool
    ensures { IsTrue result ↔ ((byte ≡ 117) ⊎ (byte ≡ 85)) }
{
    byte == b'u' || byte == b'U'
}

/// Whether a byte says, behind a `0`, that hexadecimal digits follow.
fn is_hexadecimal_mark(byte: u8) -> bool
    ensures { IsTrue result ↔ ((byte ≡ 120) ⊎ (byte ≡ 88)) }
{
    byte == b'x' || byte == b'X'
}

/// The number that digits spell, with what says its base, or 4294967296 where it is larger.
fn number(digits: &[u8]) -> Option<u64>
    ensures { MatchOption result ((number : ℕ) → ¬ SpellsNumber digits.now number) (SpellsCapped digits.now) }
{
    if byte_at(digits, 0) != b'0' {
        return value(digits, 10);
    }
    if is_hexadecimal_mark(byte_at(digits, 1)) {
        return value(&digits[2..], 16);
    }
    value(digits, 8)
}

/// The number that digits spell in a base, or 4294967296 where it is larger.
fn value(digits: &[u8], base: u32) -> Option<u64>
    requires low { 2 ≤ base }
    requires high { base ≤ 16 }
    ensures { MatchOption result (¬ AreSomeDigits base digits.now) (λ value. AreSomeDigits base digits.now × (value ≡ capped (digits_number base digits.now))) }
{
    if digits.is_empty() {
        return None;
    }
    let mut value: u64 = 0;
    for byte in digits {
        match (*byte as char).to_digit(base) {
            Some(digit) => value = (value * base as u64 + digit as u64).min(TOO_LARGE),
            None => return None,
        }
    }
    Some(value)
}
