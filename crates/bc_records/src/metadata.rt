//! The block METADATA: metadata, and then named metadata.

ghost use Rattle.std.specs.Prelude.{◌≡◌, All, IfOk, OnOk, flat_map, map};
ghost use Rattle.bc_stream.specs.Blocks.{append, no_more, parts_contents};
ghost use Rattle.bc_records.specs.MetadataRecords.{metadata_entries};
ghost use Rattle.bc_records.specs.Ranges.{MetaInRange, NamedInRange, PartInRange};
ghost use Rattle.bc_records.specs.Written.{listed, meta_record, metadata_contents, named_record, written_part};

use crate::codes::{
    METADATA_NAME, METADATA_NAMED_NODE, METADATA_NODE, METADATA_STRING, METADATA_VALUE,
};
use crate::push::{push_numbers, push_text, push_words};
use base_core::NoMemory;
use bc_stream::{Parts, Values, no_parts, push_entry};
use ir_core::{Meta, MetaIds, Metas, Named, NamedList};
use std::alloc::Global;

/// A part of a node as a record holds it: its number and 1, or 0 for null.
fn part_number(part: &Option<u32>) -> u64
    ensures value { result ≡ written_part part.now }
    ensures range { PartInRange part.now }
{
    match part {
        None => 0,
        Some(id) => u64::from(*id) + 1,
    }
}

/// The parts of a node as a record holds them.
fn part_numbers(alloc: Global, ids: &MetaIds) -> Result<Values, NoMemory>
    ensures value { IfOk result (λ values. values ≡ map written_part ids.now) }
    ensures range { OnOk result (All PartInRange ids.now) }
{
    let mut values = Vec::new(alloc);
    let all = ids.as_slice();
    for part in all {
        values.push(part_number(part))?;
    }
    let values = Values::from_vec(values)?;
    Ok(values)
}

/// Adds the record of a piece of metadata.
fn push_meta(alloc: Global, parts: &mut Parts, meta: &Meta) -> Result<(), NoMemory>
    ensures ok { OnOk result (parts_contents parts.new ≡ append (parts_contents parts.old) (listed (metadata_entries (meta_record meta.now)) no_more)) }
    ensures range { OnOk result (MetaInRange meta.now) }
{
    match meta {
        Meta::Chars(text) => push_text(alloc, parts, METADATA_STRING, &[], text),
        Meta::Value { ty, value } => {
            push_numbers(
                alloc,
                parts,
                METADATA_VALUE,
                &[u64::from(*ty), u64::from(*value)],
            )
        }
        Meta::Node(ids) => {
            let values = part_numbers(alloc, ids)?;
            push_entry(parts, METADATA_NODE, values)?;
            Ok(())
        }
    }
}

/// Adds the two records of named metadata.
fn push_named(alloc: Global, parts: &mut Parts, named: &Named) -> Result<(), NoMemory>
    ensures ok { OnOk result (parts_contents parts.new ≡ append (parts_contents parts.old) (listed (metadata_entries (named_record named.now)) no_more)) }
    ensures range { OnOk result (NamedInRange named.now) }
{
    push_text(alloc, parts, METADATA_NAME, &[], &named.name)?;
    push_words(alloc, parts, METADATA_NAMED_NODE, &[], &named.ids)?;
    Ok(())
}

/// The records of all metadata.
fn metas_parts(alloc: Global, metas: &Metas) -> Result<Parts, NoMemory>
    ensures value { IfOk result (λ parts. parts_contents parts ≡ listed (flat_map (λ m. metadata_entries (meta_record m)) metas.now) no_more) }
    ensures range { OnOk result (All MetaInRange metas.now) }
{
    let mut parts = no_parts(alloc);
    let all = metas.as_slice();
    for meta in all {
        push_meta(alloc, &mut parts, meta)?;
    }
    Ok(parts)
}

/// The parts of the block of metadata.
///
/// # Errors
/// `NoMemory` where memory is refused.
pub fn metadata_parts(alloc: Global, metas: &Metas, named: &NamedList) -> Result<Parts, NoMemory>
    ensures value { IfOk result (λ parts. parts_contents parts ≡ metadata_contents metas.now named.now) }
    ensures metas { OnOk result (All MetaInRange metas.now) }
    ensures named { OnOk result (All NamedInRange named.now) }
{
    let mut parts = metas_parts(alloc, metas)?;
    let all = named.as_slice();
    for one in all {
        push_named(alloc, &mut parts, one)?;
    }
    Ok(parts)
}
