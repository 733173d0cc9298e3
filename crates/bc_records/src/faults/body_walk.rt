//! A walk over a block FUNCTION.

ghost use Rattle.std.specs.Prelude.{◌≡◌, suc, ◌+◌, ◌<◌, ◌≤◌, ◌^◌, List, length};
ghost use Rattle.bc_stream.specs.Blocks.{parts_contents};
ghost use Rattle.bc_records.specs.BodyPlaces.{IsBehind, place_behind};
ghost use Rattle.bc_records.specs.Entries.{Entry, block_count, entry as an_entry};
ghost use Rattle.bc_records.specs.FaultSearch.{Tells, fault_at, first_fault, first_kind, or_else};
ghost use Rattle.bc_records.specs.FaultSites.{sites};
ghost use Rattle.bc_records.specs.KnownTables.{known_by};
ghost use Rattle.bc_records.specs.RecordFaults.{body_heads, body_inside, body_table};
ghost use Rattle.bc_records.specs.RecordKinds.{Numbers, body_kinds, count_code, is_past, numbers_of};

use crate::codes::{
    CONSTANTS_BLOCK, DECLAREBLOCKS, INST_CALL, INST_RET, METADATA_BLOCK, SYMBOLS_BLOCK,
};
use crate::faults::body::{call_count_fits, call_names_fit, has_value};
use crate::faults::counts::{after_block, parts_of};
use crate::faults::fault::{
    COUNT, Fault, MISSING, NUMBER, PLACE, Stop, UNREAD, free_at, misplaced_kind, unless, when,
};
use crate::faults::flat::{Flat, flat_block};
use crate::faults::numbers::body_numbers;
use crate::faults::operands::{fits_word, operand_at};
use crate::faults::place::Place;
use crate::faults::tables::Tables;
use bc_stream::{BlockTree, Part};

/// Whether all declared basic blocks have ended.
fn have_ended(place: Place) -> bool
    ensures { (before : List Entry) → count_code 10 before ≡ place.returns → result ≡ is_past place.blocks before }
{
    match place.blocks {
        None => false,
        Some(blocks) => blocks <= place.returns,
    }
}

/// The least kind of a record in a body with so many values.
fn body_kind(tables: &Tables, values: u64, place: Place, code: u32, operands: &[u64]) -> Option<u8>
    requires { place.next < 2 ^ 63 }
    ensures { (numbers : Numbers) (before : List Entry) → IsBehind (known_by tables.now) numbers before place → numbers.values ≡ values → result ≡ first_kind (body_kinds (known_by tables.now) numbers before (an_entry code operands.now)) }
{
    match code {
        DECLAREBLOCKS => unless(operands.len() == 1, COUNT)
            .or(unless(fits_word(operand_at(operands, 0)), NUMBER))
            .or(when(place.declared, PLACE)),
        INST_RET => unless(operands.is_empty(), COUNT).or(when(have_ended(place), PLACE)),
        INST_CALL => unless(call_count_fits(tables, place.next, operands), COUNT)
            .or(unless(call_names_fit(tables, values, place.next, operands), NUMBER))
            .or(when(have_ended(place), PLACE))
            .or(unless(operand_at(operands, 1) / 32768 % 2 == 1, UNREAD)),
        _ => Some(UNREAD),
    }
}

/// The place behind a record more.
fn behind_record(tables: &Tables, place: Place, code: u32, operands: &[u64]) -> Place
    requires next { place.next < 2 ^ 63 }
    requires returns { place.returns < 2 ^ 63 }
    ensures value { result ≡ place_behind (known_by tables.now) place (an_entry code operands.now) }
    ensures next { result.next ≤ place.next + 1 }
    ensures returns { result.returns ≤ place.returns + 1 }
{
    let next = if has_value(tables, place.next, code, operands) {
        place.next + 1
    } else {
        place.next
    };
    let returns = if code == INST_RET {
        place.returns + 1
    } else {
        place.returns
    };
    Place {
        next,
        declared: place.declared || code == DECLAREBLOCKS,
        returns,
        blocks: place.blocks,
    }
}

/// Goes on where a block in a body has no fault.
fn body_part(tables: &Tables, number: u32, inner: &BlockTree) -> Result<(), Stop>
    requires { number + block_count (parts_contents inner.now.parts) < 2 ^ 32 }
    ensures { Tells result (or_else (fault_at number 0 (first_kind (body_heads inner.now.id))) (first_fault (body_inside (known_by tables.now) inner.now.id number (parts_contents inner.now.parts)))) }
{
    match inner.id {
        SYMBOLS_BLOCK | METADATA_BLOCK => Ok(()),
        CONSTANTS_BLOCK => {
            let parts = parts_of(&inner.parts)?;
            flat_block(Flat::Constants, tables, number, parts)
        }
        id => Err(Stop::Found(Fault {
            kind: misplaced_kind(id),
            block: number,
            at: 0,
        })),
    }
}

/// Goes on where the body of the function that these operands declare has no fault.
pub fn body_block(
    tables: &Tables,
    function: &[u64],
    number: u32,
    parts: &[Part],
) -> Result<(), Stop>
    requires room { suc (number + block_count (parts_contents parts.now)) < 2 ^ 32 }
    requires records { length parts.now < 2 ^ 31 }
    ensures { Tells result (first_fault (sites (body_table (known_by tables.now) (numbers_of (known_by tables.now) function.now (parts_contents parts.now))) number (parts_contents parts.now))) }
{
    let numbers = body_numbers(tables, function, parts)?;
    let mut place = Place {
        next: numbers.first,
        declared: false,
        returns: 0,
        blocks: numbers.blocks,
    };
    let mut at: u32 = 0;
    let mut next = number + 1;
    for part in parts {
        match part {
            Part::Entry(entry) => {
                let operands = entry.values.as_slice();
                let kind = body_kind(tables, numbers.values, place, entry.code, operands);
                free_at(kind, number, at)?;
                place = behind_record(tables, place, entry.code, operands);
                at += 1;
            }
            Part::Block(inner) => {
                body_part(tables, next, inner)?;
                next = after_block(next, inner);
            }
        }
    }
    free_at(unless(place.declared, MISSING), number, at)
}
