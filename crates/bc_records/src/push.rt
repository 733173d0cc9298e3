//! Records at the end of the parts of a block.

ghost use Rattle.std.specs.Prelude.{◌≡◌, ◌++◌, All, IfOk, OnOk};
ghost use Rattle.bc_stream.specs.Blocks.{a_record, append, no_more, parts_contents};
ghost use Rattle.bc_records.specs.Entries.{IsText, IsWord};

use base_core::{NoMemory, Text};
use bc_stream::{Parts, Values, push_entry};
use ir_core::Ids;
use std::alloc::Global;

/// Bytes are characters.
pub fn are_text(bytes: &[u8])
    ensures { IsText bytes.now }
{}

/// Numbers of 32 bits fit 32 bits.
pub fn are_words(numbers: &[u32])
    ensures { All IsWord numbers.now }
{}

/// Some numbers, and then characters.
fn with_text(alloc: Global, first: &[u64], text: &[u8]) -> Result<Values, NoMemory>
    ensures { IfOk result (λ values. values ≡ first.now ++ text.now) }
{
    let mut values = Vec::from_slice(alloc, first)?;
    for character in text {
        values.push(u64::from(*character))?;
    }
    Values::from_vec(values)
}

/// Some numbers, and then others.
fn with_words(alloc: Global, first: &[u64], more: &[u32]) -> Result<Values, NoMemory>
    ensures { IfOk result (λ values. values ≡ first.now ++ more.now) }
{
    let mut values = Vec::from_slice(alloc, first)?;
    for word in more {
        values.push(u64::from(*word))?;
    }
    Values::from_vec(values)
}

/// Adds a record with these operands.
///
/// # Errors
/// `NoMemory` where memory is refused.
pub fn push_numbers(
    alloc: Global,
    parts: &mut Parts,
    code: u32,
    numbers: &[u64],
) -> Result<(), NoMemory>
    ensures { OnOk result (parts_contents parts.new ≡ append (parts_contents parts.old) (a_record code numbers.now no_more)) }
{
    let values = Values::from_slice(alloc, numbers)?;
    push_entry(parts, code, values)?;
    Ok(())
}

/// Adds a record whose operands are some numbers and then the characters of a text.
///
/// # Errors
/// `NoMemory` where memory is refused.
pub fn push_text(
    alloc: Global,
    parts: &mut Parts,
    code: u32,
    first: &[u64],
    text: &Text,
) -> Result<(), NoMemory>
    ensures ok { OnOk result (parts_contents parts.new ≡ append (parts_contents parts.old) (a_record code (first.now ++ text.now) no_more)) }
    ensures range { OnOk result (IsText text.now) }
{
    let characters = text.as_slice();
    are_text(characters);
    let values = with_text(alloc, first, characters)?;
    push_entry(parts, code, values)?;
    Ok(())
}

/// Adds a record whose operands are some numbers and then others.
///
/// # Errors
/// `NoMemory` where memory is refused.
pub fn push_words(
    alloc: Global,
    parts: &mut Parts,
    code: u32,
    first: &[u64],
    ids: &Ids,
) -> Result<(), NoMemory>
    ensures ok { OnOk result (parts_contents parts.new ≡ append (parts_contents parts.old) (a_record code (first.now ++ ids.now) no_more)) }
    ensures range { OnOk result (All IsWord ids.now) }
{
    let numbers = ids.as_slice();
    are_words(numbers);
    let values = with_words(alloc, first, numbers)?;
    push_entry(parts, code, values)?;
    Ok(())
}
