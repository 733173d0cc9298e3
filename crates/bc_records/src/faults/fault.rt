//! The fault of a block list, and the kinds of faults.

ghost use Rattle.std.specs.Prelude.{◌≡◌, [], ◌∷◌};
ghost use Rattle.bc_records.specs.declared.faults.fault.Stop.TheVariants.{Memory};
ghost use Rattle.bc_records.specs.FaultSearch.{Tells, fault_at, first_kind};
ghost use Rattle.bc_records.specs.RecordFaults.{misplaced};
ghost use Rattle.bc_records.specs.RecordKinds.{kind_if, kind_unless};

use crate::codes::{
    CONSTANTS_BLOCK, FUNCTION_BLOCK, METADATA_BLOCK, MODULE_BLOCK, SYMBOLS_BLOCK, TYPES_BLOCK,
};
use base_core::NoMemory;

/// A fault: its kind, the number of its block among all blocks in the order in which they begin, and the number of
/// the record in that block.
#[derive(Clone, Copy, Drop)]
pub struct Fault {
    pub kind: u8,
    pub block: u32,
    pub at: u32,
}

/// A needed block or record is missing.
pub const MISSING: u8 = 1;
/// A wrong number of operands.
pub const COUNT: u8 = 2;
/// A number that names nothing, is above its field, or isn't the one that the table gives.
pub const NUMBER: u8 = 3;
/// A record or block in a place where it can't stand.
pub const PLACE: u8 = 6;
/// A character above 255.
pub const CHARACTER: u8 = 7;
/// A block, code or form of a record that isn't read yet.
pub const UNREAD: u8 = 8;

/// The kind, where the fact doesn't hold.
#[inline(always)]
pub fn unless(holds: bool, kind: u8) -> Option<u8>
    ensures { result ≡ first_kind (kind_unless holds kind) }
{
    if holds { None } else { Some(kind) }
}

/// The kind, where the fact holds.
#[inline(always)]
pub fn when(holds: bool, kind: u8) -> Option<u8>
    ensures { result ≡ first_kind (kind_if holds kind) }
{
    if holds { Some(kind) } else { None }
}

/// The kind of a block where none of its id can stand.
pub fn misplaced_kind(id: u32) -> u8
    ensures { misplaced id ≡ result ∷ [] }
{
    match id {
        MODULE_BLOCK
        | CONSTANTS_BLOCK
        | FUNCTION_BLOCK
        | SYMBOLS_BLOCK
        | METADATA_BLOCK
        | TYPES_BLOCK => PLACE,
        _ => UNREAD,
    }
}

/// Why a walk over blocks stops.
#[derive(Clone, Copy, Drop)]
pub enum Stop {
    /// A fault, which is the first.
    Found(Fault),
    /// Memory is refused.
    Memory,
}

impl From<NoMemory> for Stop {
    ghost from_gives = { λ _ stop. stop ≡ Memory };

    fn from(_refused: NoMemory) -> Stop {
        Stop::Memory
    }
}

/// Goes on where a place has no kind.
#[inline(always)]
pub fn free_at(kind: Option<u8>, block: u32, at: u32) -> Result<(), Stop>
    ensures { Tells result (fault_at block at kind) }
{
    match kind {
        None => Ok(()),
        Some(kind) => Err(Stop::Found(Fault { kind, block, at })),
    }
}
