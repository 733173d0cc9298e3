//! The faults of the blocks CONSTANTS.

ghost use Rattle.std.specs.Prelude.{◌≡◌, List};
ghost use Rattle.bc_records.specs.Entries.{Entry, entry};
ghost use Rattle.bc_records.specs.FaultSearch.{first_kind};
ghost use Rattle.bc_records.specs.RecordKinds.{constant_kinds, has_code};

use crate::codes::{CONSTANT_INTEGER, CONSTANT_NULL, CONSTANT_SETTYPE, CONSTANT_UNDEF};
use crate::faults::fault::{COUNT, NUMBER, PLACE, UNREAD, unless};
use crate::faults::operands::operand_at;

/// The least kind of a record over so many types, where a type may have been set before.
pub fn constant_kind(types: u64, typed: bool, code: u32, operands: &[u64]) -> Option<u8>
    ensures { (before : List Entry) → has_code 1 before ≡ typed → result ≡ first_kind (constant_kinds types before (entry code operands.now)) }
{
    match code {
        CONSTANT_SETTYPE => unless(operands.len() == 1, COUNT).or(unless(
            operand_at(operands, 0) < types,
            NUMBER,
        )),
        CONSTANT_NULL | CONSTANT_UNDEF => {
            unless(operands.is_empty(), COUNT).or(unless(typed, PLACE))
        }
        CONSTANT_INTEGER => unless(operands.len() == 1, COUNT).or(unless(typed, PLACE)),
        _ => Some(UNREAD),
    }
}
