//! A survey of what the block MODULE says, before it is judged.

ghost use Rattle.std.specs.Prelude.{◌≡◌, ℕ, ◌+◌, ◌<◌, List, [], ◌∷◌, ◌++◌, IfOk, map};
ghost use Rattle.bc_stream.specs.Blocks.{parts_contents};
ghost use Rattle.bc_records.specs.Entries.{Entry as EntryForm, entries_in, entry as an_entry};
ghost use Rattle.bc_records.specs.HeldEntries.{MarksAmong, MarksPointers, entry_form, is_the, operands_form};
ghost use Rattle.bc_records.specs.KnownTables.{known_by};
ghost use Rattle.bc_records.specs.RecordKinds.{function_entries, has_body, is_type_entry, known_of, same_entry, type_entries, with_bodies};

use crate::codes::{
    CONSTANT_NULL, CONSTANTS_BLOCK, FUNCTION, METADATA_BLOCK, METADATA_STRING, TYPE_NUMENTRY,
    TYPE_POINTER, TYPE_STRUCT_NAME, TYPES_BLOCK,
};
use crate::faults::counts::{count_in_blocks, first_block, sum};
use crate::faults::tables::Tables;
use base_core::NoMemory;
use bc_stream::{Entry, Part};
use std::alloc::Global;

/// Whether a record of the type table is an entry.
fn is_entry(entry: &Entry) -> bool
    ensures { result ≡ is_type_entry (an_entry entry.now.code entry.now.values) }
{
    entry.code != TYPE_NUMENTRY && entry.code != TYPE_STRUCT_NAME
}

/// The entries of a type table.
///
/// # Errors
/// `NoMemory` where memory is refused.
fn type_list<'a>(alloc: Global, parts: &'a [Part]) -> Result<Vec<&'a Entry>, NoMemory>
    ensures { IfOk result (λ types. map entry_form types.items ≡ type_entries (entries_in (parts_contents parts.now))) }
{
    let mut types = Vec::new(alloc);
    for part in parts {
        if let Part::Entry(entry) = part {
            if is_entry(entry) {
                types.push(entry)?;
            }
        }
    }
    Ok(types)
}

/// The operands of the functions of a module.
///
/// # Errors
/// `NoMemory` where memory is refused.
fn function_list<'a>(alloc: Global, parts: &'a [Part]) -> Result<Vec<&'a [u64]>, NoMemory>
    ensures { IfOk result (λ functions. map operands_form functions.items ≡ function_entries (entries_in (parts_contents parts.now))) }
{
    let mut functions = Vec::new(alloc);
    for part in parts {
        if let Part::Entry(entry) = part {
            if entry.code == FUNCTION {
                functions.push(entry.values.as_slice())?;
            }
        }
    }
    Ok(functions)
}

/// Whether the function that these operands declare has a body.
fn declares_body(operands: &[u64]) -> bool
    ensures { result ≡ has_body operands.now }
{
    match operands.get(2) {
        None => false,
        Some(prototype) => *prototype == 0,
    }
}

/// The operands of the functions with bodies.
///
/// # Errors
/// `NoMemory` where memory is refused.
pub fn body_list<'a>(alloc: Global, functions: &[&'a [u64]]) -> Result<Vec<&'a [u64]>, NoMemory>
    ensures { IfOk result (λ bodies. map operands_form bodies.items ≡ with_bodies (map operands_form functions.now)) }
{
    let mut bodies = Vec::new(alloc);
    for operands in functions {
        if declares_body(operands) {
            bodies.push(*operands)?;
        }
    }
    Ok(bodies)
}

/// The type that a pointer in the space of functions points to.
fn pointed_type(entry: &Entry) -> Option<u64>
    ensures { (ty : ℕ) → same_entry (an_entry entry.now.code entry.now.values) (an_entry 8 (ty ∷ 0 ∷ [])) ≡ is_the result ty }
{
    match entry.values.as_slice() {
        [ty, 0] if entry.code == TYPE_POINTER => Some(*ty),
        _ => None,
    }
}

/// Marks the type that an entry points to.
fn mark_pointer(pointed: &mut [bool], entry: &Entry)
    ensures { (before : List EntryForm) → MarksAmong before pointed.old → MarksAmong (before ++ an_entry entry.now.code entry.now.values ∷ []) pointed.new }
{
    if let Some(ty) = pointed_type(entry) {
        if ty < pointed.len() as u64 {
            pointed[ty as usize] = true;
        }
    }
}

/// For each type whether a pointer to it stands in the table.
///
/// # Errors
/// `NoMemory` where memory is refused.
fn pointer_marks(alloc: Global, types: &[&Entry]) -> Result<Vec<bool>, NoMemory>
    ensures { IfOk result (λ pointed. MarksPointers types.now pointed.items) }
{
    let mut pointed = vec![in alloc; false; types.len()]?;
    for entry in types {
        mark_pointer(pointed.as_mut_slice(), entry);
    }
    Ok(pointed)
}

/// What the block MODULE says.
///
/// # Errors
/// `NoMemory` where memory is refused.
pub fn tables_of<'a>(alloc: Global, parts: &'a [Part]) -> Result<Tables<'a>, NoMemory>
    ensures { IfOk result (λ tables. known_by tables ≡ known_of (parts_contents parts.now)) }
{
    let types = type_list(alloc, first_block(TYPES_BLOCK, parts))?;
    let functions = function_list(alloc, parts)?;
    let constants = count_in_blocks(CONSTANTS_BLOCK, CONSTANT_NULL, parts)?;
    let metas = count_in_blocks(METADATA_BLOCK, METADATA_STRING, parts)?;
    let values = sum(functions.len() as u64, constants)?;
    let pointed = pointer_marks(alloc, types.as_slice())?;
    Ok(Tables {
        types,
        functions,
        constants,
        metas,
        values,
        pointed,
    })
}
