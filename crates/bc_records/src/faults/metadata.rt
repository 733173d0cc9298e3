//! The faults of the blocks METADATA.

ghost use Rattle.std.specs.Prelude.{◌≡◌, ◌&&◌, List, length};
ghost use Rattle.std.specs.List.{list_all};
ghost use Rattle.bc_records.specs.Entries.{Entry, entry};
ghost use Rattle.bc_records.specs.FaultSearch.{first_kind};
ghost use Rattle.bc_records.specs.KnownTables.{known_by};
ghost use Rattle.bc_records.specs.RecordKinds.{first_has_code, last_has_code, metadata_kinds, module_value_count, names, names_part, operand};

use crate::codes::{
    METADATA_NAME, METADATA_NAMED_NODE, METADATA_NODE, METADATA_STRING, METADATA_VALUE,
};
use crate::faults::fault::{CHARACTER, COUNT, NUMBER, PLACE, UNREAD, unless};
use crate::faults::known::value_count;
use crate::faults::operands::{all_name_one, are_characters, names_one, operand_at};
use crate::faults::tables::Tables;

/// Whether each part of a node is null or names one of so many metadata.
fn all_name_parts(metas: u64, parts: &[u64]) -> bool
    ensures { result ≡ list_all (names_part metas) parts.now }
{
    parts
        .iter()
        .all(|part| *part == 0 || names_one(metas, *part - 1))
}

/// Whether the operands of VALUE name a type and a value.
fn names_value_of(tables: &Tables, operands: &[u64]) -> bool
    ensures { result ≡ (names (length (known_by tables.now).types) (operand operands.now 0) && names (module_value_count (known_by tables.now)) (operand operands.now 1)) }
{
    names_one(tables.types.len() as u64, operand_at(operands, 0))
        && names_one(value_count(tables), operand_at(operands, 1))
}

/// The least kind of a record, where the record before may be a NAME and the one after a NAMED_NODE.
pub fn metadata_kind(
    tables: &Tables,
    named: bool,
    followed: bool,
    code: u32,
    operands: &[u64],
) -> Option<u8>
    ensures { (before after : List Entry) → last_has_code 4 before ≡ named → first_has_code 10 after ≡ followed → result ≡ first_kind (metadata_kinds (known_by tables.now) before (entry code operands.now) after) }
{
    match code {
        METADATA_STRING => unless(are_characters(operands), CHARACTER),
        METADATA_VALUE => unless(operands.len() == 2, COUNT).or(unless(
            names_value_of(tables, operands),
            NUMBER,
        )),
        METADATA_NODE => unless(all_name_parts(tables.metas, operands), NUMBER),
        METADATA_NAME => unless(followed, PLACE).or(unless(are_characters(operands), CHARACTER)),
        METADATA_NAMED_NODE => {
            unless(all_name_one(tables.metas, operands), NUMBER).or(unless(named, PLACE))
        }
        _ => Some(UNREAD),
    }
}
