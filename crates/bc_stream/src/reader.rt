//! Numbers in bits, read from words of 64 bits.
//!
//! A place is a number of bits from the first of all.

ghost use Rattle.std.specs.Prelude.{◌≡◌, ◌+◌, ◌*◌, ◌-◌, ◌/◌, ◌%◌, ◌^◌, ◌<◌, ◌≤◌, min, length, Some, IfSome, MatchOption, OnSome};
ghost use Rattle.bc_stream.specs.Bits.{Aligned, Chunked, Fixed, Place};
ghost use Rattle.bc_stream.specs.Reading.{AlignedAt, FixedAt, IsFront, IsWindow, NoNumber, NumberAt, place_in};

use byteorder::{ByteOrder, LittleEndian};

/// The bits that a window has at least, where there are so many.
const WINDOW_BITS: u32 = 57;

/// The bytes of a window.
const WINDOW_BYTES: usize = 8;

/// One more than the greatest number of 64 bits.
const LARGE: u128 = 1 << 64;

/// A number of a variable width that was read.
#[derive(Clone, Copy, Drop)]
pub(crate) struct Number {
    /// The number, or none where it is above 64 bits.
    pub(crate) value: Option<u64>,
    /// The place behind it.
    pub(crate) to: usize,
}

/// A number of one or two chunks that was read from a window.
#[derive(Clone, Copy, Drop)]
pub(crate) struct TwoChunks {
    pub(crate) value: u64,
    /// How many bits of the window are before its end.
    pub(crate) used: u32,
}

/// How many bits there are from a place on.
#[inline(always)]
pub(crate) fn bits_left(bytes: &[u8], at: usize) -> usize
    requires short { length bytes.now < 2 ^ 32 }
    requires within { at ≤ 8 * length bytes.now }
    ensures { at + result ≡ 8 * length bytes.now }
{
    8 * bytes.len() - at
}

/// The lowest bits of a word.
#[inline(always)]
pub(crate) fn lowest(width: u32, word: u64) -> u64
    requires { width < 64 }
    ensures { result ≡ word % 2 ^ width }
{
    word % (1 << width)
}

/// The last bytes, fewer than eight, as one word, the first of them lowest.
#[cold]
fn last_word(bytes: &[u8]) -> u64
    requires { length bytes.now < 8 }
    ensures { IsFront bytes.now result }
{
    let mut word = [0u8; WINDOW_BYTES];
    word[..bytes.len()].copy_from_slice(bytes);
    LittleEndian::read_u64(&word)
}

/// The first eight bytes as one word, the first of them lowest.
#[inline(always)]
fn first_word(bytes: &[u8]) -> u64
    ensures { IsFront bytes.now result }
{
    if bytes.len() >= WINDOW_BYTES {
        LittleEndian::read_u64(bytes)
    } else {
        last_word(bytes)
    }
}

/// The bits from a place on, the first of them lowest.
#[inline(always)]
fn window(bytes: &[u8], at: usize) -> u64
    requires short { length bytes.now < 2 ^ 32 }
    requires within { at ≤ 8 * length bytes.now }
    ensures { IsWindow bytes.now at result }
{
    first_word(&bytes[at / 8..]) >> (at % 8)
}

/// The number in more bits than a window has.
fn read_long(bytes: &[u8], width: u32, at: usize) -> u64
    requires short { length bytes.now < 2 ^ 32 }
    requires long { 57 < width }
    requires limit { width ≤ 64 }
    requires within { at + width ≤ 8 * length bytes.now }
    ensures { FixedAt bytes.now width at result }
{
    let low = lowest(u32::BITS, window(bytes, at));
    let high = lowest(width - u32::BITS, window(bytes, at + 32));
    low + (high << u32::BITS)
}

/// The number in a fixed number of bits from a place on, or none where the bytes end before.
#[inline(always)]
pub(crate) fn read_fixed(bytes: &[u8], width: u32, at: usize) -> Option<u64>
    requires short { length bytes.now < 2 ^ 32 }
    requires limit { width ≤ 64 }
    requires within { at ≤ 8 * length bytes.now }
    ensures { MatchOption result (NoNumber (Fixed width) (place_in bytes.now at)) (FixedAt bytes.now width at) }
{
    if bits_left(bytes, at) < width as usize {
        return None;
    }
    if width <= WINDOW_BITS {
        return Some(lowest(width, window(bytes, at)));
    }
    Some(read_long(bytes, width, at))
}

/// The bits from a place on, the first of them lowest, or none where fewer than eight bytes are left.
#[inline(always)]
pub(crate) fn whole_window(bytes: &[u8], at: usize) -> Option<u64>
    requires short { length bytes.now < 2 ^ 32 }
    requires within { at ≤ 8 * length bytes.now }
    ensures room { OnSome result (at + 57 ≤ 8 * length bytes.now) }
    ensures bits { IfSome result (IsWindow bytes.now at) }
{
    let rest = &bytes[at / 8..];
    if rest.len() < WINDOW_BYTES {
        return None;
    }
    Some(LittleEndian::read_u64(rest) >> (at % 8))
}

/// The number in one or two chunks that a window has whole from a bit on, if it has.
#[inline(always)]
pub(crate) fn read_two(
    bytes: &[u8],
    unit: u32,
    at: usize,
    bits: u64,
    used: u32,
) -> Option<TwoChunks>
    requires short { length bytes.now < 2 ^ 32 }
    requires limit { unit < 16 }
    requires room { at + 57 ≤ 8 * length bytes.now }
    requires bits { IsWindow bytes.now at bits }
    requires inside { used + 2 * (unit + 1) ≤ 57 }
    ensures number { IfSome result (λ found. NumberAt bytes.now unit (at + used) (record { value = Some found.value; to = at + found.used })) }
    ensures fits { IfSome result (λ found. found.value < 2 ^ 32) }
    ensures used { IfSome result (λ found. found.used ≤ used + 2 * (unit + 1)) }
{
    let width = unit + 1;
    let first = lowest(width, bits >> used);
    if first < 1 << unit {
        return Some(TwoChunks {
            value: first,
            used: used + width,
        });
    }
    let second = lowest(width, bits >> (used + width));
    if second < 1 << unit {
        return Some(TwoChunks {
            value: lowest(unit, first) + (second << unit),
            used: used + 2 * width,
        });
    }
    None
}

/// The number in chunks that a window has whole, if it has.
fn read_short(bytes: &[u8], unit: u32, at: usize, bits: u64) -> Option<Number>
    requires short { length bytes.now < 2 ^ 32 }
    requires limit { unit < 16 }
    requires room { at + 57 ≤ 8 * length bytes.now }
    requires bits { IsWindow bytes.now at bits }
    ensures { IfSome result (NumberAt bytes.now unit at) }
{
    let width = unit + 1;
    let mut used = 0;
    let mut sum = 0;
    let mut shift = 0;
    while used + width <= WINDOW_BITS {
        let chunk = lowest(width, bits >> used);
        used += width;
        sum += lowest(unit, chunk) << shift;
        if chunk < 1 << unit {
            return Some(Number {
                value: Some(sum),
                to: at + used as usize,
            });
        }
        shift += unit;
    }
    None
}

/// The number in chunks of `unit` bits from a place on, or none where the bytes end before its last chunk.
///
/// Most numbers have one or two chunks.
#[inline(always)]
pub(crate) fn read_number(bytes: &[u8], unit: u32, at: usize) -> Option<Number>
    requires short { length bytes.now < 2 ^ 32 }
    requires limit { unit < 16 }
    requires within { at ≤ 8 * length bytes.now }
    ensures { MatchOption result (NoNumber (Chunked unit) (place_in bytes.now at)) (NumberAt bytes.now unit at) }
{
    let Some(bits) = whole_window(bytes, at) else {
        return read_chunks(bytes, unit, at);
    };
    let width = unit + 1;
    let first = lowest(width, bits);
    if first < 1 << unit {
        return Some(Number {
            value: Some(first),
            to: at + width as usize,
        });
    }
    let second = lowest(width, bits >> width);
    if second < 1 << unit {
        return Some(Number {
            value: Some(lowest(unit, first) + (second << unit)),
            to: at + 2 * width as usize,
        });
    }
    match read_short(bytes, unit, at, bits) {
        Some(number) => Some(number),
        None => read_chunks(bytes, unit, at),
    }
}

/// A sum up to 2^64 with a chunk more.
fn with_chunk(sum: u128, chunk: u64, shift: u32) -> u128
    requires sum { sum ≤ 2 ^ 64 }
    requires chunk { chunk < 2 ^ 32 }
    requires shift { shift ≤ 64 }
    ensures { result ≡ min (sum + chunk * 2 ^ shift) (2 ^ 64) }
{
    (sum + ((chunk as u128) << shift)).min(LARGE)
}

/// A sum, if it is below 2^64.
fn in_long(sum: u128) -> Option<u64>
    ensures { MatchOption result (2 ^ 64 ≤ sum) (λ value. (value ≡ sum) × (value < 2 ^ 64)) }
{
    if sum < LARGE { Some(sum as u64) } else { None }
}

/// Reads a number chunk by chunk.
fn read_chunks(bytes: &[u8], unit: u32, at: usize) -> Option<Number>
    requires short { length bytes.now < 2 ^ 32 }
    requires limit { unit < 32 }
    requires within { at ≤ 8 * length bytes.now }
    ensures { MatchOption result (NoNumber (Chunked unit) (place_in bytes.now at)) (NumberAt bytes.now unit at) }
{
    let mut to = at;
    let mut sum: u128 = 0;
    let mut shift: u32 = 0;
    loop {
        let Some(chunk) = read_fixed(bytes, unit + 1, to) else {
            return None;
        };
        to += unit as usize + 1;
        sum = with_chunk(sum, lowest(unit, chunk), shift);
        if chunk < 1 << unit {
            return Some(Number {
                value: in_long(sum),
                to,
            });
        }
        shift = (shift + unit).min(u64::BITS);
    }
}

/// The first place from a place on that is a multiple of 32, or none where the bytes end before.
pub(crate) fn align(bytes: &[u8], at: usize) -> Option<usize>
    requires short { length bytes.now < 2 ^ 32 }
    requires within { at ≤ 8 * length bytes.now }
    ensures { MatchOption result ((to : Place) → Aligned (place_in bytes.now at) to → ⊥) (AlignedAt bytes.now at) }
{
    let to = at.div_ceil(32) * 32;
    if to > 8 * bytes.len() {
        return None;
    }
    Some(to)
}
