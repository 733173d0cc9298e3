//! The module of a block list.

ghost use Rattle.std.specs.Prelude.{◌≡◌, IfOk, MatchOption};
ghost use Rattle.bc_stream.specs.Blocks.{contents_of, no_more, parts_contents};
ghost use Rattle.bc_records.specs.Codes.{module_block};
ghost use Rattle.bc_records.specs.Entries.{blocks_in, entries_in};
ghost use Rattle.bc_records.specs.Read.{inner_of, read_inner, read_module as the_module, read_outline, read_text as the_text};

use super::constants::constants_in;
use super::defined::{blocks_of_bodies, read_bodies, set_bodies};
use super::metadata::metadata_in;
use super::names::functions_in;
use super::operands::read_text;
use super::types::types_in;
use crate::codes::{DATALAYOUT, MODULE_BLOCK, TRIPLE};
use base_core::{NoMemory, Text};
use bc_stream::{BlockList, Part, Parts, no_parts};
use ir_core::{Functions, Globals, Module};
use std::alloc::Global;

/// The characters of the first record of a code.
fn text_in(alloc: Global, inner: &Parts, code: u32) -> Result<Text, NoMemory>
    ensures { IfOk result (λ chars. chars ≡ the_text code (entries_in (parts_contents inner.now))) }
{
    for part in inner.as_slice() {
        match part {
            Part::Entry(entry) => {
                if entry.code == code {
                    return read_text(alloc, entry.values.as_slice());
                }
            }
            Part::Block(_) => {}
        }
    }
    Ok(Text::new(alloc))
}

/// The module of what a block MODULE holds, without its bodies.
fn outline_of(alloc: Global, inner: &Parts) -> Result<Module, NoMemory>
    ensures { IfOk result (λ m. m ≡ read_outline (parts_contents inner.now)) }
{
    let metadata = metadata_in(alloc, inner)?;
    Ok(Module {
        triple: text_in(alloc, inner, TRIPLE)?,
        layout: text_in(alloc, inner, DATALAYOUT)?,
        types: types_in(alloc, inner)?,
        globals: Globals::new(alloc),
        functions: functions_in(alloc, inner)?,
        consts: constants_in(alloc, inner)?,
        metas: metadata.metas,
        named: metadata.named,
    })
}

/// The module of what a block MODULE holds.
fn module_of(alloc: Global, inner: &Parts) -> Result<Module, NoMemory>
    ensures { IfOk result (λ m. m ≡ read_inner (parts_contents inner.now)) }
{
    let outline = outline_of(alloc, inner)?;
    let blocks = blocks_of_bodies(alloc, inner)?;
    let bodies = read_bodies(alloc, &outline, blocks.as_slice())?;
    let mut functions = outline.functions.into_vec();
    set_bodies(&mut functions, bodies);
    Ok(Module {
        functions: Functions::from_vec(functions)?,
        ..outline
    })
}

/// What the first block MODULE holds.
fn module_parts(blocks: &BlockList) -> Option<&Parts>
    ensures { MatchOption result (inner_of (blocks_in module_block (contents_of blocks.now)) ≡ no_more) (λ parts. inner_of (blocks_in module_block (contents_of blocks.now)) ≡ parts_contents parts.now) }
{
    for block in blocks.as_slice() {
        if block.id == MODULE_BLOCK {
            return Some(&block.parts);
        }
    }
    None
}

/// The module that a block list says, whatever is at fault in it.
///
/// # Errors
/// `NoMemory` where memory is refused, or where a list would have more than 2147483647 parts.
pub(crate) fn read_module(alloc: Global, blocks: &BlockList) -> Result<Module, NoMemory>
    ensures { IfOk result (λ m. m ≡ the_module (contents_of blocks.now)) }
{
    match module_parts(blocks) {
        None => module_of(alloc, &no_parts(alloc)),
        Some(inner) => module_of(alloc, inner),
    }
}
