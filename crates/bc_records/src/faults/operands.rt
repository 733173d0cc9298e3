//! Facts of the operands of a record.

ghost use Rattle.std.specs.Prelude.{◌≡◌, drop};
ghost use Rattle.std.specs.List.{list_all};
ghost use Rattle.bc_records.specs.RecordKinds.{is_text, is_word, names, operand};

/// An operand, and 0 past the last.
#[inline(always)]
pub fn operand_at(operands: &[u64], place: usize) -> u64
    ensures { result ≡ operand operands.now place }
{
    match operands.get(place) {
        Some(number) => *number,
        None => 0,
    }
}

/// Whether a number has 32 bits.
#[inline(always)]
pub fn fits_word(number: u64) -> bool
    ensures { result ≡ is_word number }
{
    number < 4294967296
}

/// Whether a number names one of so many things.
#[inline(always)]
pub fn names_one(count: u64, number: u64) -> bool
    ensures { result ≡ names count number }
{
    number < count && fits_word(number)
}

/// Whether all operands are characters.
pub fn are_characters(operands: &[u64]) -> bool
    ensures { result ≡ is_text operands.now }
{
    operands.iter().all(|character| *character < 256)
}

/// Whether all operands name one of so many things.
pub fn all_name_one(count: u64, operands: &[u64]) -> bool
    ensures { result ≡ list_all (names count) operands.now }
{
    operands.iter().all(|number| names_one(count, *number))
}

/// The operands behind the first.
pub fn behind_first(operands: &[u64]) -> &[u64]
    ensures { result.now ≡ drop 1 operands.now }
{
    match operands {
        [] => operands,
        [_, rest @ ..] => rest,
    }
}
