//! Arithmetic on words of 32 bits. As a signed number a word is in two's complement.

ghost use Rattle.std.specs.Prelude.{◌≡◌, ◌==◌, ◌&&◌};
ghost use Rattle.lane_core.specs.Words.{first_bit_low, holds, shift_left, signed_less, signed_quotient, signed_remainder, signed_shift_right, truth, unsigned_quotient, unsigned_remainder, unsigned_shift_right};

use lane_core::LaneFault;

/// The least signed number, as a word.
const LEAST_SIGNED: u32 = 2147483648;
/// The signed number -1, as a word: all its bits are ones.
const ALL_ONES: u32 = u32::MAX;

/// A truth value as a word.
pub(crate) fn truth(value: bool) -> u32
    ensures { result ≡ truth value }
{
    u32::from(value)
}

/// Whether a word stands for true.
pub(crate) fn holds(word: u32) -> bool
    ensures { result ≡ holds word }
{
    word != 0
}

/// A quotient of numbers without a sign.
///
/// # Errors
/// `DivideByZero` for the divisor 0.
pub(crate) fn unsigned_quotient(dividend: u32, divisor: u32) -> Result<u32, LaneFault>
    ensures { result ≡ unsigned_quotient dividend divisor }
{
    if divisor == 0 {
        Err(LaneFault::DivideByZero)
    } else {
        Ok(dividend / divisor)
    }
}

/// A remainder of numbers without a sign.
///
/// # Errors
/// `DivideByZero` for the divisor 0.
pub(crate) fn unsigned_remainder(dividend: u32, divisor: u32) -> Result<u32, LaneFault>
    ensures { result ≡ unsigned_remainder dividend divisor }
{
    if divisor == 0 {
        Err(LaneFault::DivideByZero)
    } else {
        Ok(dividend % divisor)
    }
}

/// Whether the quotient of signed numbers fits no word: that of the least number by -1.
fn is_too_large(dividend: u32, divisor: u32) -> bool
    ensures { result ≡ (dividend == LEAST_SIGNED && divisor == ALL_ONES) }
{
    dividend == LEAST_SIGNED && divisor == ALL_ONES
}

/// A quotient of signed numbers, truncated toward zero.
///
/// # Errors
/// `DivideOverflow` for the least number by -1, and `DivideByZero` for the divisor 0.
pub(crate) fn signed_quotient(dividend: u32, divisor: u32) -> Result<u32, LaneFault>
    ensures { result ≡ signed_quotient dividend divisor }
{
    if is_too_large(dividend, divisor) {
        Err(LaneFault::DivideOverflow)
    } else if divisor == 0 {
        Err(LaneFault::DivideByZero)
    } else {
        let quotient = dividend.cast_signed().wrapping_div(divisor.cast_signed());
        Ok(quotient.cast_unsigned())
    }
}

/// A remainder of signed numbers, with the sign of the dividend.
///
/// # Errors
/// `DivideOverflow` for the least number by -1, and `DivideByZero` for the divisor 0.
pub(crate) fn signed_remainder(dividend: u32, divisor: u32) -> Result<u32, LaneFault>
    ensures { result ≡ signed_remainder dividend divisor }
{
    if is_too_large(dividend, divisor) {
        Err(LaneFault::DivideOverflow)
    } else if divisor == 0 {
        Err(LaneFault::DivideByZero)
    } else {
        let remainder = dividend.cast_signed().wrapping_rem(divisor.cast_signed());
        Ok(remainder.cast_unsigned())
    }
}

/// A word shifted to the left by the low five bits of a count.
pub(crate) fn shift_left(word: u32, count: u32) -> u32
    ensures { result ≡ shift_left word count }
{
    word << (count % 32)
}

/// A word shifted to the right by the low five bits of a count.
pub(crate) fn unsigned_shift_right(word: u32, count: u32) -> u32
    ensures { result ≡ unsigned_shift_right word count }
{
    word >> (count % 32)
}

/// A signed word shifted to the right by the low five bits of a count. It keeps its sign.
pub(crate) fn signed_shift_right(word: u32, count: u32) -> u32
    ensures { result ≡ signed_shift_right word count }
{
    word.cast_signed().wrapping_shr(count).cast_unsigned()
}

/// Whether one signed word is less than another.
pub(crate) fn signed_less(left: u32, right: u32) -> bool
    ensures { result ≡ signed_less left right }
{
    left.cast_signed() < right.cast_signed()
}

/// The place of the lowest bit that is set, and a word of ones where none is.
pub(crate) fn first_bit_low(word: u32) -> u32
    ensures { result ≡ first_bit_low word }
{
    if word == 0 {
        ALL_ONES
    } else {
        word.trailing_zeros()
    }
}
