//! The functions of a module with their types, and their names of blocks VALUE_SYMTAB.

ghost use Rattle.std.specs.Prelude.{◌≡◌, ◌∷◌, ◌++◌, List, IfOk, OnOk, map};
ghost use Rattle.bc_stream.specs.Blocks.{parts_contents};
ghost use Rattle.bc_records.specs.Entries.{Entry as AnEntry, entries_in, entry as an_entry};
ghost use Rattle.bc_records.specs.Read.{declared, read_functions, read_symbol, with_name, with_names};
ghost use Rattle.bc_records.specs.RecordKinds.{function_entries};
ghost use Rattle.bc_records.specs.SymbolRecords.{SymbolRecord};

use super::blocks::parts_of;
use super::operands::{after, number_at, read_text, word_at};
use crate::codes::{FUNCTION, SYMBOLS_BLOCK};
use base_core::{NoMemory, Text};
use bc_stream::{Entry, Part, Parts};
use ir_core::{Function, Functions};
use std::alloc::Global;

/// Adds the function of a record, where it is a record FUNCTION. It has no name and no body.
fn push_function(
    alloc: Global,
    functions: &mut Vec<Function>,
    entry: &Entry,
) -> Result<(), NoMemory>
    ensures { OnOk result ((rest : List AnEntry) → functions.new.items ++ declared (function_entries rest) ≡ functions.old.items ++ declared (function_entries (an_entry entry.now.code entry.now.values ∷ rest))) }
{
    if entry.code != FUNCTION {
        return Ok(());
    }
    functions.push(Function {
        name: Text::new(alloc),
        ty: word_at(entry.values.as_slice(), 0),
        body: None,
    })?;
    Ok(())
}

/// The functions of the records FUNCTION, without names and bodies.
fn declared_functions(alloc: Global, inner: &Parts) -> Result<Vec<Function>, NoMemory>
    ensures { IfOk result (λ functions. functions.items ≡ declared (function_entries (entries_in (parts_contents inner.now)))) }
{
    let mut functions = Vec::new(alloc);
    for part in inner.as_slice() {
        match part {
            Part::Entry(entry) => push_function(alloc, &mut functions, entry)?,
            Part::Block(_) => {}
        }
    }
    Ok(functions)
}

/// Names the function that has a value number, where there is one.
fn set_name(functions: &mut Vec<Function>, value: u64, name: Text)
    ensures { functions.new.items ≡ with_name functions.old.items value name }
{
    let place = value as usize;
    if place < functions.len() {
        functions[place].name = name;
    }
}

/// Names the function of a record ENTRY.
fn name_function(
    alloc: Global,
    functions: &mut Vec<Function>,
    entry: &Entry,
) -> Result<(), NoMemory>
    ensures { OnOk result ((rest : List SymbolRecord) → with_names functions.new.items rest ≡ with_names functions.old.items (read_symbol (an_entry entry.now.code entry.now.values) ∷ rest)) }
{
    let operands = entry.values.as_slice();
    let name = read_text(alloc, after(operands, 1))?;
    set_name(functions, number_at(operands, 0), name);
    Ok(())
}

/// Names the functions of a block VALUE_SYMTAB.
fn name_functions(
    alloc: Global,
    functions: &mut Vec<Function>,
    parts: &Parts,
) -> Result<(), NoMemory>
    ensures { OnOk result (functions.new.items ≡ with_names functions.old.items (map read_symbol (entries_in (parts_contents parts.now)))) }
{
    for part in parts.as_slice() {
        match part {
            Part::Entry(entry) => name_function(alloc, functions, entry)?,
            Part::Block(_) => {}
        }
    }
    Ok(())
}

/// The functions of a block MODULE with their types and names, without bodies.
///
/// # Errors
/// `NoMemory` where memory is refused.
pub fn functions_in(alloc: Global, inner: &Parts) -> Result<Functions, NoMemory>
    ensures { IfOk result (λ functions. functions ≡ read_functions (parts_contents inner.now)) }
{
    let mut functions = declared_functions(alloc, inner)?;
    for part in inner.as_slice() {
        if let Some(parts) = parts_of(part, SYMBOLS_BLOCK) {
            name_functions(alloc, &mut functions, parts)?;
        }
    }
    Functions::from_vec(functions)
}
