//! The faults of the block TYPE_NEW.

ghost use Rattle.std.specs.Prelude.{◌≡◌, List};
ghost use Rattle.bc_records.specs.Entries.{Entry, entry};
ghost use Rattle.bc_records.specs.FaultSearch.{first_kind};
ghost use Rattle.bc_records.specs.RecordKinds.{has_code, type_kinds};

use crate::codes::{
    TYPE_FUNCTION, TYPE_INTEGER, TYPE_METADATA, TYPE_NUMENTRY, TYPE_POINTER, TYPE_STRUCT_NAME,
    TYPE_STRUCT_NAMED, TYPE_VOID,
};
use crate::faults::fault::{CHARACTER, COUNT, NUMBER, PLACE, UNREAD, unless, when};
use crate::faults::operands::{
    all_name_one, are_characters, behind_first, fits_word, names_one, operand_at,
};

/// The least kind of a record in a table of so many entries, where its number may have been said before.
pub fn type_kind(entries: u64, numbered: bool, code: u32, operands: &[u64]) -> Option<u8>
    ensures { (before : List Entry) → has_code 1 before ≡ numbered → result ≡ first_kind (type_kinds entries before (entry code operands.now)) }
{
    let first = operand_at(operands, 0);
    match code {
        TYPE_NUMENTRY => unless(operands.len() == 1, COUNT)
            .or(unless(first == entries, NUMBER))
            .or(when(numbered, PLACE)),
        TYPE_VOID | TYPE_METADATA => unless(operands.is_empty(), COUNT),
        TYPE_INTEGER => unless(operands.len() == 1, COUNT).or(unless(fits_word(first), NUMBER)),
        TYPE_POINTER => unless(operands.len() == 2, COUNT).or(unless(
            names_one(entries, first) && fits_word(operand_at(operands, 1)),
            NUMBER,
        )),
        TYPE_STRUCT_NAME => unless(are_characters(operands), CHARACTER),
        TYPE_STRUCT_NAMED => unless(operands.len() >= 1, COUNT).or(unless(
            first == 0 && all_name_one(entries, behind_first(operands)),
            NUMBER,
        )),
        TYPE_FUNCTION => unless(operands.len() >= 2, COUNT).or(unless(
            first == 0 && all_name_one(entries, behind_first(operands)),
            NUMBER,
        )),
        _ => Some(UNREAD),
    }
}
