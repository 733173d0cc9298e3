//! Records, read whatever their numbers are.

ghost use Rattle.std.specs.Prelude.{◌≡◌, ◌+◌, ◌*◌, ◌-◌, ◌/◌, ◌^◌, ◌<◌, ◌≤◌, length, IfOk, MatchOption};
ghost use Rattle.bc_stream.specs.Reading.{CountWithin, NoRecord, NoValues, RecordAt, SkippedAt, ValuesAt};

use crate::reader::{bits_left, read_number};
use crate::values::{MOST_IN_PLACE, Values};
use base_core::NoMemory;
use std::alloc::Global;

/// The bits in a chunk of a number of a record, less its flag.
const RECORD_UNIT: u32 = 5;

/// The bits that a value takes at least.
const LEAST_VALUE_BITS: usize = 6;

/// The values of a record that were read.
#[derive(Drop)]
struct ValuesRead {
    /// The values, or none where one of them is above 64 bits.
    list: Option<Values>,
    /// The place behind them.
    to: usize,
}

/// A record that was read.
#[derive(Drop)]
pub(crate) struct RecordRead {
    /// The code, or none where it is above 64 bits.
    pub(crate) code: Option<u64>,
    /// The values, or none where one of them is above 64 bits.
    pub(crate) values: Option<Values>,
    /// The place behind the record.
    pub(crate) to: usize,
}

/// Passes so many values. None where the bytes end before the last of them.
fn skip_values(bytes: &[u8], count: usize, at: usize) -> Option<usize>
    requires short { length bytes.now < 2 ^ 32 }
    requires within { at ≤ 8 * length bytes.now }
    ensures { MatchOption result (NoValues bytes.now count at) (SkippedAt bytes.now count at) }
{
    let mut to = at;
    for index in 0..count {
        let Some(number) = read_number(bytes, RECORD_UNIT, to) else {
            return None;
        };
        to = number.to;
    }
    Some(to)
}

/// Passes the values behind one that is above 64 bits. None where the bytes end before the last of them.
fn skip_rest(bytes: &[u8], count: usize, at: usize) -> Option<ValuesRead>
    requires short { length bytes.now < 2 ^ 32 }
    requires within { at ≤ 8 * length bytes.now }
    ensures { MatchOption result (NoValues bytes.now count at) (λ found. SkippedAt bytes.now count at found.to × (found.list ≡ None)) }
{
    match skip_values(bytes, count, at) {
        Some(to) => Some(ValuesRead { list: None, to }),
        None => None,
    }
}

/// A number of values that may be in so many bits.
fn count_within(count: Option<u64>, bits: usize) -> Option<usize>
    requires { bits < 2 ^ 36 }
    ensures { CountWithin count bits result }
{
    match count {
        Some(count) if count <= (bits / LEAST_VALUE_BITS) as u64 => Some(count as usize),
        _ => None,
    }
}

/// Reads so many values, or none where the bytes end before the last of them.
fn read_values(
    alloc: Global,
    bytes: &[u8],
    count: usize,
    at: usize,
) -> Result<Option<ValuesRead>, NoMemory>
    requires short { length bytes.now < 2 ^ 32 }
    requires within { at ≤ 8 * length bytes.now }
    ensures { IfOk result (λ found. MatchOption found (NoValues bytes.now count at) (ValuesAt bytes.now count at)) }
{
    let mut to = at;
    let mut list = Vec::with_capacity(alloc, count)?;
    for index in 0..count {
        let Some(number) = read_number(bytes, RECORD_UNIT, to) else {
            return Ok(None);
        };
        let Some(value) = number.value else {
            return Ok(skip_rest(bytes, count - index - 1, number.to));
        };
        list.push_reserved(value);
        to = number.to;
    }
    let list = Values::from_vec(list)?;
    Ok(Some(ValuesRead {
        list: Some(list),
        to,
    }))
}

/// Reads a record behind its abbreviation id, or none where the bytes end before its end.
///
/// # Errors
/// `NoMemory` where memory is refused.
pub(crate) fn read_record(
    alloc: Global,
    bytes: &[u8],
    at: usize,
) -> Result<Option<RecordRead>, NoMemory>
    requires short { length bytes.now < 2 ^ 32 }
    requires within { at ≤ 8 * length bytes.now }
    ensures { IfOk result (λ found. MatchOption found (NoRecord bytes.now at) (RecordAt bytes.now at)) }
{
    let Some(code) = read_number(bytes, RECORD_UNIT, at) else {
        return Ok(None);
    };
    let Some(count) = read_number(bytes, RECORD_UNIT, code.to) else {
        return Ok(None);
    };
    let Some(count_here) = count_within(count.value, bits_left(bytes, count.to)) else {
        return Ok(None);
    };
    match read_values(alloc, bytes, count_here, count.to)? {
        Some(values) => Ok(Some(RecordRead {
            code: code.value,
            values: values.list,
            to: values.to,
        })),
        None => Ok(None),
    }
}
