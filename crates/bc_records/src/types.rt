//! The block TYPE_NEW: the type table.

ghost use Rattle.std.specs.Prelude.{◌≡◌, All, IfOk, OnOk, Some, map};
ghost use Rattle.bc_stream.specs.Blocks.{append, no_more, parts_contents};
ghost use Rattle.bc_records.specs.Entries.{IsText, IsWord};
ghost use Rattle.bc_records.specs.Ranges.{TypeInRange};
ghost use Rattle.bc_records.specs.TypeRecords.{type_entry};
ghost use Rattle.bc_records.specs.Written.{listed, struct_records, type_records, types_contents};

use crate::codes::{
    TYPE_FUNCTION, TYPE_INTEGER, TYPE_METADATA, TYPE_NUMENTRY, TYPE_POINTER, TYPE_STRUCT_NAME,
    TYPE_STRUCT_NAMED, TYPE_VOID,
};
use crate::push::{are_words, push_numbers, push_text, push_words};
use base_core::{NoMemory, Text};
use bc_stream::{Parts, no_parts};
use ir_core::{Ids, Ty, Types};
use std::alloc::Global;

/// Adds the records of a struct with a name: the name, and then its parts.
fn push_struct(alloc: Global, parts: &mut Parts, name: &Text, of: &Ids) -> Result<(), NoMemory>
    ensures ok { OnOk result (parts_contents parts.new ≡ append (parts_contents parts.old) (listed (map type_entry (struct_records name.now of.now)) no_more)) }
    ensures name { OnOk result (IsText name.now) }
    ensures of { OnOk result (All IsWord of.now) }
{
    push_text(alloc, parts, TYPE_STRUCT_NAME, &[], name)?;
    push_words(alloc, parts, TYPE_STRUCT_NAMED, &[0], of)?;
    Ok(())
}

/// Adds the records of one entry.
#[tactic(auto, using(crate::proofs::Steps::append_none))]
fn push_type(alloc: Global, parts: &mut Parts, ty: &Ty) -> Result<(), NoMemory>
    ensures ok { OnOk result (parts_contents parts.new ≡ append (parts_contents parts.old) (listed (map type_entry (type_records ty.now)) no_more)) }
    ensures range { OnOk result (TypeInRange ty.now) }
{
    match ty {
        Ty::Void => push_numbers(alloc, parts, TYPE_VOID, &[]),
        Ty::Int(width) => push_numbers(alloc, parts, TYPE_INTEGER, &[u64::from(*width)]),
        Ty::Pointer { to, space } => {
            push_numbers(
                alloc,
                parts,
                TYPE_POINTER,
                &[u64::from(*to), u64::from(*space)],
            )
        }
        Ty::Metadata => push_numbers(alloc, parts, TYPE_METADATA, &[]),
        Ty::Struct { name, of } => match name {
            Some(text) => push_struct(alloc, parts, text, of),
            None => {
                are_words(of.as_slice());
                Ok(())
            }
        },
        Ty::Function { result, params } => {
            push_words(
                alloc,
                parts,
                TYPE_FUNCTION,
                &[0, u64::from(*result)],
                params,
            )
        }
        Ty::Label => Ok(()),
        Ty::Array { .. } => Ok(()),
        Ty::Vector { .. } => Ok(()),
    }
}

/// The parts of the type table's block.
///
/// # Errors
/// `NoMemory` where memory is refused.
pub fn types_parts(alloc: Global, types: &Types) -> Result<Parts, NoMemory>
    ensures value { IfOk result (λ parts. parts_contents parts ≡ types_contents types.now) }
    ensures range { OnOk result (All TypeInRange types.now) }
{
    let mut parts = no_parts(alloc);
    let entries = types.as_slice();
    push_numbers(alloc, &mut parts, TYPE_NUMENTRY, &[entries.len() as u64])?;
    for ty in entries {
        push_type(alloc, &mut parts, ty)?;
    }
    Ok(parts)
}
