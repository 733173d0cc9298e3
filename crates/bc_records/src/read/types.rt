//! The type table of the block TYPE_NEW.

ghost use Rattle.std.specs.Prelude.{◌≡◌, [], ◌∷◌, ◌++◌, List, IfOk, OnOk, map};
ghost use Rattle.bc_stream.specs.Blocks.{parts_contents};
ghost use Rattle.bc_records.specs.Entries.{entries_in, entry as an_entry};
ghost use Rattle.bc_records.specs.Read.{read_type, read_types};
ghost use Rattle.bc_records.specs.TypeRecords.{TypeRecord, table_of};

use super::blocks::next_block;
use super::operands::{after, read_text, read_words, word_at};
use crate::codes::{
    TYPE_FUNCTION, TYPE_INTEGER, TYPE_METADATA, TYPE_NUMENTRY, TYPE_POINTER, TYPE_STRUCT_NAME,
    TYPE_STRUCT_NAMED, TYPES_BLOCK,
};
use base_core::{NoMemory, Text};
use bc_stream::{Entry, Part, Parts};
use ir_core::{Ty, Types};
use std::alloc::Global;
use std::mem;

/// Adds the entry of a record, where a struct takes the name. A record STRUCT_NAME sets the name.
fn push_type(
    alloc: Global,
    types: &mut Types,
    name: &mut Text,
    entry: &Entry,
) -> Result<(), NoMemory>
    ensures { OnOk result ((rest : List TypeRecord) → types.new ++ table_of name.new rest ≡ types.old ++ table_of name.old (read_type (an_entry entry.now.code entry.now.values) ∷ rest)) }
{
    let operands = entry.values.as_slice();
    match entry.code {
        TYPE_NUMENTRY => Ok(()),
        TYPE_INTEGER => types.push(Ty::Int(word_at(operands, 0))),
        TYPE_POINTER => {
            types.push(Ty::Pointer {
                to: word_at(operands, 0),
                space: word_at(operands, 1),
            })
        }
        TYPE_METADATA => types.push(Ty::Metadata),
        TYPE_STRUCT_NAME => {
            *name = read_text(alloc, operands)?;
            Ok(())
        }
        TYPE_STRUCT_NAMED => {
            let of = read_words(alloc, after(operands, 1))?;
            let name = Some(mem::replace(name, Text::new(alloc)));
            types.push(Ty::Struct { name, of })
        }
        TYPE_FUNCTION => {
            let params = read_words(alloc, after(operands, 2))?;
            types.push(Ty::Function {
                result: word_at(operands, 1),
                params,
            })
        }
        _ => types.push(Ty::Void),
    }
}

/// The type table of a block TYPE_NEW.
fn types_of(alloc: Global, parts: &Parts) -> Result<Types, NoMemory>
    ensures { IfOk result (λ types. types ≡ table_of [] (map read_type (entries_in (parts_contents parts.now)))) }
{
    let mut types = Types::new(alloc);
    let mut name = Text::new(alloc);
    for part in parts.as_slice() {
        match part {
            Part::Entry(entry) => push_type(alloc, &mut types, &mut name, entry)?,
            Part::Block(_) => {}
        }
    }
    Ok(types)
}

/// The type table of the first block TYPE_NEW in a block.
///
/// # Errors
/// `NoMemory` where memory is refused.
pub fn types_in(alloc: Global, inner: &Parts) -> Result<Types, NoMemory>
    ensures { IfOk result (λ types. types ≡ read_types (parts_contents inner.now)) }
{
    match next_block(inner.as_slice(), TYPES_BLOCK) {
        None => Ok(Types::new(alloc)),
        Some((parts, _)) => types_of(alloc, parts),
    }
}
