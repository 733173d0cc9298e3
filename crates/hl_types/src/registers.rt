//! The numbers of registers and spaces (DirectX HLSL, "Resource Binding").

ghost use Rattle.std.specs.Prelude.{◌≡◌, ◌≤◌, true, if◌then◌else◌, min};
ghost use Rattle.std.specs.Char.{is_ascii_digit};
ghost use Rattle.std.specs.List.{list_all};
ghost use Rattle.hl_lexer.specs.Numbers.{digits_number};
ghost use Rattle.hl_rules.specs.DeclarationRules as rules;
ghost use Rattle.hl_values.specs.ScopeViews.{scope_of};

use hl_values::Scope;

/// What stands for each number above 4294967295.
const TOO_LARGE: u64 = 4294967296;

/// Whether all bytes are decimal digits.
fn are_digits(text: &[u8]) -> bool
    ensures { result ≡ list_all is_ascii_digit text.now }
{
    for byte in text {
        if !byte.is_ascii_digit() {
            return false;
        }
    }
    true
}

/// The number that decimal digits spell, or 4294967296 where it is larger.
fn digits_value(digits: &[u8]) -> u64
    requires { list_all is_ascii_digit digits.now ≡ true }
    ensures { result ≡ min (digits_number 10 digits.now) 4294967296 }
{
    let mut value: u64 = 0;
    for byte in digits {
        value = (value * 10 + u64::from(*byte - b'0')).min(TOO_LARGE);
    }
    value
}

/// A decimal number without zeros in front, at most 4294967295.
fn decimal_number(text: &[u8]) -> Option<u32>
    ensures { result ≡ rules.decimal_number text.now }
{
    if text.is_empty() || !are_digits(text) || (text.len() > 1 && text[0] == b'0') {
        return None;
    }
    let value = digits_value(text);
    if value < TOO_LARGE {
        Some(value as u32)
    } else {
        None
    }
}

/// The decimal number behind a front.
fn number_behind(front: &[u8], text: &[u8]) -> Option<u32>
    ensures { result ≡ rules.number_behind front.now text.now }
{
    match text.strip_prefix(front) {
        Some(digits) => decimal_number(digits),
        None => None,
    }
}

/// The number of a register: `t` for a buffer that is read only, `u` for one that may be written.
pub(crate) fn register_number(scope: &Scope, writable: bool, name: usize) -> Option<u32>
    ensures { result ≡ rules.register_number (scope_of scope.now) writable name }
{
    if writable {
        number_behind(b"u", scope.text_at(name))
    } else {
        number_behind(b"t", scope.text_at(name))
    }
}

/// The number of a space.
pub(crate) fn space_number(scope: &Scope, name: usize) -> Option<u32>
    ensures { result ≡ rules.space_number (scope_of scope.now) name }
{
    number_behind(b"space", scope.text_at(name))
}
