//! The faults of the blocks TYPE_NEW, CONSTANTS and METADATA, which hold records alone.

ghost use Rattle.std.specs.Prelude.{◌≡◌, ◌+◌, ◌<◌, ◌^◌, ◌==◌, ◌||◌, List, drop, length};
ghost use Rattle.bc_stream.specs.Blocks.{Contents, parts_contents};
ghost use Rattle.bc_records.specs.Entries.{Entry as EntryForm, entry as an_entry, entries_in, block_count};
ghost use Rattle.bc_records.specs.FaultSearch.{Tells, first_fault, first_kind};
ghost use Rattle.bc_records.specs.FaultSites.{sites};
ghost use Rattle.bc_records.specs.FlatTables.{flat_table_of};
ghost use Rattle.bc_records.specs.KnownTables.{known_by};
ghost use Rattle.bc_records.specs.RecordKinds.{first_has_code, has_code, last_has_code};

use crate::codes::{METADATA_NAME, METADATA_NAMED_NODE, TYPE_NUMENTRY};
use crate::faults::constants::constant_kind;
use crate::faults::fault::{Fault, MISSING, Stop, free_at, misplaced_kind, unless};
use crate::faults::metadata::metadata_kind;
use crate::faults::tables::Tables;
use crate::faults::types::type_kind;
use bc_stream::{Entry, Part};

/// Which of the blocks that hold records alone.
#[derive(Clone, Copy, Drop)]
pub enum Flat {
    Types,
    Constants,
    Metadata,
}

/// What records have come.
#[derive(Clone, Copy, Drop)]
pub struct Come {
    /// Whether one with the code 1 has come.
    first: bool,
    /// Whether the last one was a NAME.
    name: bool,
}

/// What has come after a record more.
fn come_after(come: Come, code: u32) -> Come
    ensures { result ≡ record { first = come.first || (code == 1); name = code == 4 } }
{
    Come {
        first: come.first || code == TYPE_NUMENTRY,
        name: code == METADATA_NAME,
    }
}

/// The parts behind a place.
fn behind(parts: &[Part], at: usize) -> &[Part]
    requires { at < length parts.now }
    ensures { result.now ≡ drop (at + 1) parts.now }
{
    &parts[at + 1..]
}

/// Whether the first record has a code.
fn begins_with(parts: &[Part], code: u32) -> bool
    ensures { result ≡ first_has_code code (entries_in (parts_contents parts.now)) }
{
    for part in parts {
        if let Part::Entry(entry) = part {
            return entry.code == code;
        }
    }
    false
}

/// The least kind of a record, where these have come, and what follows it.
fn flat_kind(flat: Flat, tables: &Tables, come: Come, entry: &Entry, rest: &[Part]) -> Option<u8>
    ensures { (before : List EntryForm) → has_code 1 before ≡ come.first → last_has_code 4 before ≡ come.name → result ≡ first_kind ((flat_table_of (known_by tables.now) flat).records before (an_entry entry.now.code entry.now.values) (entries_in (parts_contents rest.now))) }
{
    let code = entry.code;
    let operands = entry.values.as_slice();
    let types = tables.types.len() as u64;
    match flat {
        Flat::Types => type_kind(types, come.first, code, operands),
        Flat::Constants => constant_kind(types, come.first, code, operands),
        Flat::Metadata => {
            let followed = begins_with(rest, METADATA_NAMED_NODE);
            metadata_kind(tables, come.name, followed, code, operands)
        }
    }
}

/// The kind of the end of a block.
fn end_kind(flat: Flat, tables: &Tables, come: Come) -> Option<u8>
    ensures { (inner : Contents) → has_code 1 (entries_in inner) ≡ come.first → result ≡ first_kind ((flat_table_of (known_by tables.now) flat).ends inner) }
{
    match flat {
        Flat::Types => unless(come.first, MISSING),
        Flat::Constants => None,
        Flat::Metadata => None,
    }
}

/// Goes on where a block has no fault.
pub fn flat_block(flat: Flat, tables: &Tables, number: u32, parts: &[Part]) -> Result<(), Stop>
    requires blocks { number + block_count (parts_contents parts.now) < 2 ^ 32 }
    requires records { length parts.now < 2 ^ 32 }
    ensures { Tells result (first_fault (sites (flat_table_of (known_by tables.now) flat) number (parts_contents parts.now))) }
{
    let mut come = Come {
        first: false,
        name: false,
    };
    for (at, part) in parts.iter().enumerate() {
        match part {
            Part::Block(inner) => {
                return Err(Stop::Found(Fault {
                    kind: misplaced_kind(inner.id),
                    block: number + 1,
                    at: 0,
                }));
            }
            Part::Entry(entry) => {
                let kind = flat_kind(flat, tables, come, entry, behind(parts, at));
                free_at(kind, number, at as u32)?;
                come = come_after(come, entry.code);
            }
        }
    }
    free_at(end_kind(flat, tables, come), number, parts.len() as u32)
}
