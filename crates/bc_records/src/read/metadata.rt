//! The metadata of blocks METADATA.

ghost use Rattle.std.specs.Prelude.{◌≡◌, [], ◌∷◌, ◌++◌, List, IfOk, OnOk, map};
ghost use Rattle.bc_stream.specs.Blocks.{parts_contents};
ghost use Rattle.bc_records.specs.Entries.{Entry as AnEntry, entries_in, entry as an_entry};
ghost use Rattle.bc_records.specs.MetadataRecords.{metas_of, named_of, node_part};
ghost use Rattle.bc_records.specs.Read.{read_metadata, read_metas, read_named, read_part};

use super::blocks::parts_of;
use super::operands::{low_word, read_text, read_words, word_at};
use crate::codes::{METADATA_BLOCK, METADATA_NAME, METADATA_NODE, METADATA_STRING, METADATA_VALUE};
use base_core::{NoMemory, Text};
use bc_stream::{Entry, Part, Parts};
use ir_core::{Meta, MetaIds, Metas, Named, NamedList};
use std::alloc::Global;

/// The metadata of a module.
#[derive(Drop)]
pub struct Metadata {
    pub metas: Metas,
    pub named: NamedList,
}

/// A part of a node: the number of metadata and 1, or 0 for null.
fn part(number: u64) -> Option<u32>
    ensures { result ≡ node_part (read_part number) }
{
    match number {
        0 => None,
        _ => Some(low_word(number - 1)),
    }
}

/// The parts of a node.
fn parts_of_node(alloc: Global, operands: &[u64]) -> Result<MetaIds, NoMemory>
    ensures { IfOk result (λ ids. ids ≡ map node_part (map read_part operands.now)) }
{
    let mut ids = Vec::with_capacity(alloc, operands.len())?;
    for number in operands {
        ids.push(part(*number))?;
    }
    MetaIds::from_vec(ids)
}

/// Adds the metadata of a record. A record NAME sets the name of the named metadata that follow.
fn push_metadata(
    alloc: Global,
    metadata: &mut Metadata,
    name: &mut Text,
    entry: &Entry,
) -> Result<(), NoMemory>
    ensures metas { OnOk result ((rest : List AnEntry) → metadata.new.metas ++ metas_of (read_metadata name.new rest) ≡ metadata.old.metas ++ metas_of (read_metadata name.old (an_entry entry.now.code entry.now.values ∷ rest))) }
    ensures named { OnOk result ((rest : List AnEntry) → metadata.new.named ++ named_of (read_metadata name.new rest) ≡ metadata.old.named ++ named_of (read_metadata name.old (an_entry entry.now.code entry.now.values ∷ rest))) }
{
    let operands = entry.values.as_slice();
    match entry.code {
        METADATA_STRING => metadata
            .metas
            .push(Meta::Chars(read_text(alloc, operands)?)),
        METADATA_VALUE => {
            metadata.metas.push(Meta::Value {
                ty: word_at(operands, 0),
                value: word_at(operands, 1),
            })
        }
        METADATA_NODE => metadata
            .metas
            .push(Meta::Node(parts_of_node(alloc, operands)?)),
        METADATA_NAME => {
            *name = read_text(alloc, operands)?;
            Ok(())
        }
        _ => {
            metadata.named.push(Named {
                name: Text::from_slice(alloc, name.as_slice())?,
                ids: read_words(alloc, operands)?,
            })
        }
    }
}

/// Adds the metadata of a block METADATA.
fn push_block(alloc: Global, metadata: &mut Metadata, parts: &Parts) -> Result<(), NoMemory>
    ensures metas { OnOk result (metadata.new.metas ≡ metadata.old.metas ++ metas_of (read_metadata [] (entries_in (parts_contents parts.now)))) }
    ensures named { OnOk result (metadata.new.named ≡ metadata.old.named ++ named_of (read_metadata [] (entries_in (parts_contents parts.now)))) }
{
    let mut name = Text::new(alloc);
    for part in parts.as_slice() {
        match part {
            Part::Entry(entry) => push_metadata(alloc, metadata, &mut name, entry)?,
            Part::Block(_) => {}
        }
    }
    Ok(())
}

/// The metadata of the blocks METADATA in a block.
///
/// # Errors
/// `NoMemory` where memory is refused.
pub fn metadata_in(alloc: Global, inner: &Parts) -> Result<Metadata, NoMemory>
    ensures metas { IfOk result (λ metadata. metadata.metas ≡ read_metas (parts_contents inner.now)) }
    ensures named { IfOk result (λ metadata. metadata.named ≡ read_named (parts_contents inner.now)) }
{
    let mut metadata = Metadata {
        metas: Metas::new(alloc),
        named: NamedList::new(alloc),
    };
    for part in inner.as_slice() {
        if let Some(parts) = parts_of(part, METADATA_BLOCK) {
            push_block(alloc, &mut metadata, parts)?;
        }
    }
    Ok(metadata)
}
