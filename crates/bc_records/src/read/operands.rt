//! Operands of records as fields of 32 bits and as bytes.

ghost use Rattle.std.specs.Prelude.{◌≡◌, IfOk, drop};
ghost use Rattle.bc_records.specs.Read.{text, word, words};
ghost use Rattle.bc_records.specs.RecordKinds.{operand};

use base_core::{NoMemory, Text};
use ir_core::Ids;
use std::alloc::Global;

/// Numbers of 32 bits are taken modulo this.
const WORD_LIMIT: u64 = 4294967296;

/// Characters are taken modulo this.
const BYTE_LIMIT: u64 = 256;

/// A number modulo 2^32.
#[inline]
pub fn low_word(number: u64) -> u32
    ensures { result ≡ word number }
{
    (number % WORD_LIMIT) as u32
}

/// An operand, or 0 past the last.
pub fn number_at(operands: &[u64], place: usize) -> u64
    ensures { result ≡ operand operands.now place }
{
    match operands.get(place) {
        None => 0,
        Some(number) => *number,
    }
}

/// An operand modulo 2^32, or 0 past the last.
pub fn word_at(operands: &[u64], place: usize) -> u32
    ensures { result ≡ word (operand operands.now place) }
{
    low_word(number_at(operands, place))
}

/// The operands after the first `count`.
pub fn after(operands: &[u64], count: usize) -> &[u64]
    ensures { result.now ≡ drop count operands.now }
{
    &operands[count.min(operands.len())..]
}

/// Operands as characters, each modulo 256.
///
/// # Errors
/// `NoMemory` where memory is refused.
pub fn read_text(alloc: Global, characters: &[u64]) -> Result<Text, NoMemory>
    ensures { IfOk result (λ chars. chars ≡ text characters.now) }
{
    let bytes = characters
        .iter()
        .map(|character| (*character % BYTE_LIMIT) as u8)
        .collect(alloc)?;
    Text::from_vec(bytes)
}

/// Operands as numbers, each modulo 2^32.
///
/// # Errors
/// `NoMemory` where memory is refused.
pub fn read_words(alloc: Global, numbers: &[u64]) -> Result<Ids, NoMemory>
    ensures { IfOk result (λ ids. ids ≡ words numbers.now) }
{
    let ids = numbers
        .iter()
        .map(|number| low_word(*number))
        .collect(alloc)?;
    Ids::from_vec(ids)
}
