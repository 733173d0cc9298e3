//! What operators and conversions make of one word, or of one word of each operand.

ghost use Rattle.std.specs.Prelude.{◌≡◌, ◌==◌, ◌&&◌, ◌||◌};
ghost use Rattle.hl_meaning.specs.Types.{component_count};
ghost use Rattle.hl_meaning.specs.Views.{plain_ty};
ghost use Rattle.hl_source.specs.Operations.{binary_word, by_sign, chosen_word, component_kind, less, unary_word, word_as};
ghost use Rattle.lane_core.specs.Words.{signed_quotient, signed_remainder, signed_shift_right, unsigned_quotient, unsigned_remainder, unsigned_shift_right};
ghost use Rattle.hl_interpreter.specs.Marks.{truth_of};

use crate::marks;
use crate::words::{
    holds, shift_left, signed_less, signed_quotient, signed_remainder, signed_shift_right, truth,
    unsigned_quotient, unsigned_remainder, unsigned_shift_right,
};
use hl_meaning::{HlType, Kind};
use lane_core::LaneFault;

/// The kind of the components of a scalar or a vector, and `Uint` for any other type.
pub(crate) fn component_kind(ty: &HlType) -> Kind
    ensures { result ≡ component_kind (plain_ty ty.now) }
{
    match ty {
        HlType::Scalar(kind) => *kind,
        HlType::Vector(kind, _) => *kind,
        _ => Kind::Uint,
    }
}

/// The number of components of a scalar or a vector, and 0 for any other type.
pub(crate) fn component_count(ty: &HlType) -> usize
    ensures { result ≡ component_count (plain_ty ty.now) }
{
    match ty {
        HlType::Scalar(_) => 1,
        HlType::Vector(_, size) => *size as usize,
        _ => 0,
    }
}

/// A word as a value of a kind.
pub(crate) fn word_as(kind: Kind, word: u32) -> u32
    ensures { result ≡ word_as kind word }
{
    match kind {
        Kind::Bool => truth(holds(word)),
        Kind::Int | Kind::Uint => word,
    }
}

/// Whether one word of a kind is less than another.
pub(crate) fn less(kind: Kind, left: u32, right: u32) -> bool
    ensures { result ≡ less kind left right }
{
    match kind {
        Kind::Int => signed_less(left, right),
        Kind::Bool | Kind::Uint => left < right,
    }
}

/// A quotient of words of a kind.
///
/// # Errors
/// `DivideByZero` for the divisor 0, and for int `DivideOverflow` for the least number by -1.
fn quotient(kind: Kind, left: u32, right: u32) -> Result<u32, LaneFault>
    ensures { result ≡ by_sign signed_quotient unsigned_quotient kind left right }
{
    match kind {
        Kind::Int => signed_quotient(left, right),
        Kind::Bool | Kind::Uint => unsigned_quotient(left, right),
    }
}

/// A remainder of words of a kind.
///
/// # Errors
/// `DivideByZero` for the divisor 0, and for int `DivideOverflow` for the least number by -1.
fn remainder(kind: Kind, left: u32, right: u32) -> Result<u32, LaneFault>
    ensures { result ≡ by_sign signed_remainder unsigned_remainder kind left right }
{
    match kind {
        Kind::Int => signed_remainder(left, right),
        Kind::Bool | Kind::Uint => unsigned_remainder(left, right),
    }
}

/// A word of a kind shifted to the right.
fn shift_right(kind: Kind, word: u32, count: u32) -> u32
    ensures { result ≡ by_sign signed_shift_right unsigned_shift_right kind word count }
{
    match kind {
        Kind::Int => signed_shift_right(word, count),
        Kind::Bool | Kind::Uint => unsigned_shift_right(word, count),
    }
}

/// What the operator of a mark computes of two words of a kind.
///
/// # Errors
/// `DivideByZero` and `DivideOverflow`, which `/` and `%` have.
pub(crate) fn binary_word(op: u8, kind: Kind, left: u32, right: u32) -> Result<u32, LaneFault>
    ensures { result ≡ binary_word op kind left right }
{
    match op {
        marks::PLUS => Ok(left.wrapping_add(right)),
        marks::MINUS => Ok(left.wrapping_sub(right)),
        marks::TIMES => Ok(left.wrapping_mul(right)),
        marks::DIVIDE => quotient(kind, left, right),
        marks::MODULO => remainder(kind, left, right),
        marks::BIT_AND => Ok(left & right),
        marks::BIT_OR => Ok(left | right),
        marks::BIT_XOR => Ok(left ^ right),
        marks::SHIFT_LEFT => Ok(shift_left(left, right)),
        marks::SHIFT_RIGHT => Ok(shift_right(kind, left, right)),
        _ => Ok(truth(is_true(op, kind, left, right))),
    }
}

/// What a comparison, `&&` or `||` says of two words of a kind.
fn is_true(op: u8, kind: Kind, left: u32, right: u32) -> bool
    ensures { result ≡ truth_of op kind left right }
{
    match op {
        marks::LESS => less(kind, left, right),
        marks::GREATER => less(kind, right, left),
        marks::EQUAL => left == right,
        marks::NOT_EQUAL => left != right,
        marks::AT_MOST => !less(kind, right, left),
        marks::AT_LEAST => !less(kind, left, right),
        marks::AND => holds(left) && holds(right),
        marks::OR => holds(left) || holds(right),
        _ => false,
    }
}

/// What `-`, `~`, `!` or `+` computes of a word.
pub(crate) fn unary_word(op: u8, word: u32) -> u32
    ensures { result ≡ unary_word op word }
{
    match op {
        marks::MINUS => 0u32.wrapping_sub(word),
        marks::COMPLEMENT => !word,
        marks::NOT => truth(!holds(word)),
        _ => word,
    }
}

/// The word that `?:` takes.
pub(crate) fn chosen_word(condition: u32, consequent: u32, alternative: u32) -> u32
    ensures { result ≡ chosen_word condition consequent alternative }
{
    if holds(condition) {
        consequent
    } else {
        alternative
    }
}
