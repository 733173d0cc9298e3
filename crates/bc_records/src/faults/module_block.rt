//! A walk over the block MODULE.

ghost use Rattle.std.specs.Prelude.{◌≡◌, None, suc, ◌+◌, ◌<◌, ◌^◌, ◌==◌, [], IfOk, OnOk, get_or, length, map};
ghost use Rattle.bc_stream.specs.Blocks.{Contents, a_block, append, no_more, parts_contents};
ghost use Rattle.bc_records.specs.Codes.{symbols_block};
ghost use Rattle.bc_records.specs.Entries.{Entry, block_count, entries_in, entry as an_entry};
ghost use Rattle.bc_records.specs.FaultSearch.{MarksNamed, Tells, fault_at, first_fault, first_kind, or_else};
ghost use Rattle.bc_records.specs.FaultSites.{sites};
ghost use Rattle.bc_records.specs.HeldEntries.{operands_form};
ghost use Rattle.bc_records.specs.KnownTables.{known_by};
ghost use Rattle.bc_records.specs.ModuleProgress.{HasCome, MarksBefore, behind_code, behind_id};
ghost use Rattle.bc_records.specs.RecordFaults.{bodies_before, body_count, is_complete, module_heads, module_inside, module_table};
ghost use Rattle.bc_records.specs.RecordKinds.{Known, known_of, module_kinds, with_bodies};

use crate::codes::{
    CONSTANTS_BLOCK, DATALAYOUT, FUNCTION, FUNCTION_BLOCK, METADATA_BLOCK, SYMBOLS_BLOCK, TRIPLE,
    TYPES_BLOCK, VERSION,
};
use crate::faults::body_walk::body_block;
use crate::faults::counts::{after_block, parts_of};
use crate::faults::fault::{
    CHARACTER, COUNT, MISSING, NUMBER, PLACE, Stop, UNREAD, free_at, misplaced_kind, unless, when,
};
use crate::faults::flat::{Flat, flat_block};
use crate::faults::known::is_type_of_function;
use crate::faults::operands::{are_characters, operand_at};
use crate::faults::progress::Progress;
use crate::faults::survey::{body_list, tables_of};
use crate::faults::symbols::symbols_block as check_symbols;
use crate::faults::tables::Tables;
use base_core::NoMemory;
use bc_stream::{BlockTree, Part};
use std::alloc::Global;

/// The least kind of a record, where these have come before.
fn module_kind(tables: &Tables, progress: Progress, code: u32, operands: &[u64]) -> Option<u8>
    ensures { (before : Contents) → HasCome before progress → result ≡ first_kind (module_kinds (known_by tables.now) (entries_in before) (an_entry code operands.now)) }
{
    match code {
        VERSION => unless(operands.len() == 1, COUNT)
            .or(unless(operand_at(operands, 0) == 1, NUMBER))
            .or(when(progress.version, PLACE)),
        TRIPLE => when(progress.triple, PLACE).or(unless(are_characters(operands), CHARACTER)),
        DATALAYOUT => {
            when(progress.layout, PLACE).or(unless(are_characters(operands), CHARACTER))
        }
        FUNCTION => unless(operands.len() >= 4, COUNT).or(unless(
            is_type_of_function(tables, operand_at(operands, 0)) && operand_at(operands, 2) <= 1,
            NUMBER,
        )),
        _ => Some(UNREAD),
    }
}

/// The least kind of the head of a block in a module with so many bodies.
fn head_kind(progress: Progress, bodies: usize, id: u32) -> Option<u8>
    ensures { (known : Known) (before : Contents) → HasCome before progress → body_count known ≡ bodies → result ≡ first_kind (module_heads known before id) }
{
    match id {
        CONSTANTS_BLOCK | SYMBOLS_BLOCK | METADATA_BLOCK => None,
        TYPES_BLOCK => when(progress.types, PLACE),
        FUNCTION_BLOCK => unless(progress.bodies < bodies, PLACE),
        id => Some(misplaced_kind(id)),
    }
}

/// What has come behind a record more.
fn behind_record(progress: Progress, code: u32) -> Progress
    ensures { result ≡ behind_code progress code }
{
    Progress {
        version: progress.version || code == VERSION,
        triple: progress.triple || code == TRIPLE,
        layout: progress.layout || code == DATALAYOUT,
        types: progress.types,
        bodies: progress.bodies,
    }
}

/// What has come behind a block more.
fn behind_block(progress: Progress, id: u32) -> Progress
    requires { progress.bodies < 2 ^ 63 }
    ensures { result ≡ behind_id progress id }
{
    let bodies = if id == FUNCTION_BLOCK {
        progress.bodies + 1
    } else {
        progress.bodies
    };
    Progress {
        version: progress.version,
        triple: progress.triple,
        layout: progress.layout,
        types: progress.types || id == TYPES_BLOCK,
        bodies,
    }
}

/// Whether all that a module with so many bodies needs has come.
fn has_all(progress: Progress, bodies: usize) -> bool
    ensures { (known : Known) (block : Contents) → HasCome block progress → body_count known ≡ bodies → result ≡ is_complete known block }
{
    progress.version
        && progress.triple
        && progress.layout
        && progress.types
        && bodies <= progress.bodies
}

/// The operands of the function that a body belongs to, or none where there is no such function.
fn function_of<'a>(bodies: &[&'a [u64]], place: usize) -> &'a [u64]
    ensures { result.now ≡ get_or (map operands_form bodies.now) place [] }
{
    match bodies.get(place) {
        None => &[],
        Some(operands) => *operands,
    }
}

/// Goes on where no place in a block of MODULE has a fault, with the functions marked that it names.
fn inside_block(
    tables: &Tables,
    bodies: &[&[u64]],
    marks: &mut [bool],
    place: usize,
    number: u32,
    inner: &BlockTree,
) -> Result<(), Stop>
    requires room { suc (number + block_count (parts_contents inner.now.parts)) < 2 ^ 32 }
    requires bodies { map operands_form bodies.now ≡ with_bodies (known_by tables.now).functions }
    requires marks { length marks.old ≡ length (known_by tables.now).functions }
    ensures told { (before : Contents) → bodies_before before ≡ place → MarksBefore before marks.old → Tells result (first_fault (module_inside (known_by tables.now) before inner.now.id number (parts_contents inner.now.parts))) }
    ensures marked { OnOk result ((before : Contents) → MarksBefore before marks.old → MarksBefore (append before (a_block inner.now.id (parts_contents inner.now.parts) no_more)) marks.new) }
{
    let parts = parts_of(&inner.parts)?;
    match inner.id {
        TYPES_BLOCK => flat_block(Flat::Types, tables, number, parts),
        CONSTANTS_BLOCK => flat_block(Flat::Constants, tables, number, parts),
        METADATA_BLOCK => flat_block(Flat::Metadata, tables, number, parts),
        SYMBOLS_BLOCK => check_symbols(marks, number, parts),
        FUNCTION_BLOCK => body_block(tables, function_of(bodies, place), number, parts),
        _ => Ok(()),
    }
}

/// Goes on where neither the head of a block of MODULE nor a place in it has a fault, with the functions marked that
/// it names.
fn module_part(
    tables: &Tables,
    bodies: &[&[u64]],
    marks: &mut [bool],
    progress: Progress,
    number: u32,
    inner: &BlockTree,
) -> Result<(), Stop>
    requires room { suc (number + block_count (parts_contents inner.now.parts)) < 2 ^ 32 }
    requires bodies { map operands_form bodies.now ≡ with_bodies (known_by tables.now).functions }
    requires marks { length marks.old ≡ length (known_by tables.now).functions }
    ensures told { (before : Contents) → HasCome before progress → MarksBefore before marks.old → Tells result (or_else (fault_at number 0 (first_kind (module_heads (known_by tables.now) before inner.now.id))) (first_fault (module_inside (known_by tables.now) before inner.now.id number (parts_contents inner.now.parts)))) }
    ensures marked { OnOk result ((before : Contents) → MarksBefore before marks.old → MarksBefore (append before (a_block inner.now.id (parts_contents inner.now.parts) no_more)) marks.new) }
{
    free_at(head_kind(progress, bodies.len(), inner.id), number, 0)?;
    inside_block(tables, bodies, marks, progress.bodies, number, inner)
}

/// The number that follows a block of MODULE without a fault and those in it. Only a body has blocks in it.
fn number_behind(number: u32, block: &BlockTree) -> u32
    ensures { (known : Known) (before : Contents) → first_fault (module_inside known before block.now.id number (parts_contents block.now.parts)) ≡ None → number + suc (block_count (parts_contents block.now.parts)) < 2 ^ 32 → result ≡ number + suc (block_count (parts_contents block.now.parts)) }
{
    match block.id {
        TYPES_BLOCK => number.saturating_add(1),
        CONSTANTS_BLOCK => number.saturating_add(1),
        METADATA_BLOCK => number.saturating_add(1),
        SYMBOLS_BLOCK => number.saturating_add(1),
        _ => after_block(number, block),
    }
}

/// Goes on where no place of MODULE has a fault.
fn module_parts(
    tables: &Tables,
    bodies: &[&[u64]],
    marks: &mut [bool],
    number: u32,
    parts: &[Part],
) -> Result<(), Stop>
    requires room { suc (number + block_count (parts_contents parts.now)) < 2 ^ 32 }
    requires records { length parts.now < 2 ^ 31 }
    requires bodies { map operands_form bodies.now ≡ with_bodies (known_by tables.now).functions }
    requires marks { length marks.old ≡ length (known_by tables.now).functions }
    requires marked { MarksNamed marks.old [] }
    ensures { Tells result (first_fault (sites (module_table (known_by tables.now)) number (parts_contents parts.now))) }
{
    let mut progress = Progress {
        version: false,
        triple: false,
        layout: false,
        types: false,
        bodies: 0,
    };
    let mut at: u32 = 0;
    let mut next = number + 1;
    for part in parts {
        match part {
            Part::Entry(entry) => {
                let kind = module_kind(tables, progress, entry.code, entry.values.as_slice());
                free_at(kind, number, at)?;
                progress = behind_record(progress, entry.code);
                at += 1;
            }
            Part::Block(inner) => {
                module_part(tables, bodies, marks, progress, next, inner)?;
                progress = behind_block(progress, inner.id);
                next = number_behind(next, inner);
            }
        }
    }
    free_at(unless(has_all(progress, bodies.len()), MISSING), number, at)
}

/// So many marks, none of which is set.
///
/// # Errors
/// `NoMemory` where memory is refused.
fn no_marks(alloc: Global, count: usize) -> Result<Vec<bool>, NoMemory>
    ensures marked { IfOk result (λ marks. MarksNamed marks.items []) }
    ensures count { IfOk result (λ marks. length marks.items ≡ count) }
{
    let marks = vec![in alloc; false; count]?;
    Ok(marks)
}

/// Goes on where no place of the block MODULE that has this number has a fault.
pub fn module_faults(alloc: Global, number: u32, parts: &[Part]) -> Result<(), Stop>
    requires room { suc (number + block_count (parts_contents parts.now)) < 2 ^ 32 }
    requires records { length parts.now < 2 ^ 31 }
    ensures { Tells result (first_fault (sites (module_table (known_of (parts_contents parts.now))) number (parts_contents parts.now))) }
{
    let tables = tables_of(alloc, parts)?;
    let bodies = body_list(alloc, tables.functions.as_slice())?;
    let mut marks = no_marks(alloc, tables.functions.len())?;
    module_parts(
        &tables,
        bodies.as_slice(),
        marks.as_mut_slice(),
        number,
        parts,
    )
}
