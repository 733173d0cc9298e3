//! The faults of the blocks VALUE_SYMTAB.

ghost use Rattle.std.specs.Prelude.{◌≡◌, ◌+◌, ◌<◌, ◌^◌, List, [], ◌∷◌, ◌++◌, OnOk, Some, length, slice_get};
ghost use Rattle.bc_stream.specs.Blocks.{parts_contents};
ghost use Rattle.bc_records.specs.Entries.{Entry, entry, entries_in, block_count};
ghost use Rattle.bc_records.specs.FaultSearch.{MarksNamed, Tells, first_fault, first_kind};
ghost use Rattle.bc_records.specs.FaultSites.{sites};
ghost use Rattle.bc_records.specs.RecordFaults.{symbols_table};
ghost use Rattle.bc_records.specs.RecordKinds.{Known, symbol_kinds};

use crate::codes::SYMBOL_ENTRY;
use crate::faults::fault::{
    CHARACTER, COUNT, Fault, NUMBER, PLACE, Stop, UNREAD, free_at, misplaced_kind, unless, when,
};
use crate::faults::operands::{are_characters, behind_first, operand_at};
use bc_stream::Part;

/// Whether a value is marked.
fn is_marked(marks: &[bool], value: u64) -> bool
    ensures { value < length marks.now → slice_get marks.now value ≡ Some result }
{
    match marks.get(value as usize) {
        None => false,
        Some(mark) => *mark,
    }
}

/// The least kind of a record, where the values that earlier records name are marked.
pub fn symbol_kind(marks: &[bool], code: u32, operands: &[u64]) -> Option<u8>
    ensures { (earlier : List Entry) → MarksNamed marks.now earlier → result ≡ first_kind (symbol_kinds (length marks.now) earlier (entry code operands.now)) }
{
    let value = operand_at(operands, 0);
    match code {
        SYMBOL_ENTRY => unless(operands.len() >= 1, COUNT)
            .or(unless(value < marks.len() as u64, NUMBER))
            .or(when(is_marked(marks, value), PLACE))
            .or(unless(are_characters(behind_first(operands)), CHARACTER)),
        _ => Some(UNREAD),
    }
}

/// Marks the value that a record names.
fn mark(marks: &mut [bool], code: u32, operands: &[u64])
    ensures { (earlier : List Entry) → MarksNamed marks.old earlier → MarksNamed marks.new (earlier ++ entry code operands.now ∷ []) }
{
    if code != SYMBOL_ENTRY || operands.is_empty() {
        return;
    }
    let value = operands[0];
    if value < marks.len() as u64 {
        marks[value as usize] = true;
    }
}

/// Goes on where a block has no fault, with the values that its records name marked too.
pub fn symbols_block(marks: &mut [bool], number: u32, parts: &[Part]) -> Result<(), Stop>
    requires blocks { number + block_count (parts_contents parts.now) < 2 ^ 32 }
    requires records { length parts.now < 2 ^ 32 }
    ensures told { (known : Known) (earlier : List Entry) → length known.functions ≡ length marks.old → MarksNamed marks.old earlier → Tells result (first_fault (sites (symbols_table known earlier) number (parts_contents parts.now))) }
    ensures marked { OnOk result ((earlier : List Entry) → MarksNamed marks.old earlier → MarksNamed marks.new (earlier ++ entries_in (parts_contents parts.now))) }
{
    for (at, part) in parts.iter().enumerate() {
        match part {
            Part::Block(inner) => {
                return Err(Stop::Found(Fault {
                    kind: misplaced_kind(inner.id),
                    block: number + 1,
                    at: 0,
                }));
            }
            Part::Entry(entry) => {
                let operands = entry.values.as_slice();
                free_at(symbol_kind(marks, entry.code, operands), number, at as u32)?;
                mark(marks, entry.code, operands);
            }
        }
    }
    Ok(())
}
