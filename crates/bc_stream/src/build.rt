//! Block lists, built part by part.

ghost use Rattle.std.specs.Prelude.{◌≡◌, OnErr, OnOk};
ghost use Rattle.bc_stream.specs.Blocks.{a_block, a_record, append, contents_of, no_more, parts_contents};

use crate::block::{BlockList, BlockTree, Entry, Part, Parts};
use crate::values::Values;
use base_core::NoMemory;
use sqlite_items::Items;
use std::alloc::Global;

/// The greatest number of parts of a block, and of outermost blocks.
pub(crate) const MOST_PARTS: usize = 2147483647;

/// The parts of an empty block, which take no memory.
pub fn no_parts(alloc: Global) -> Parts
    ensures { parts_contents result ≡ no_more }
{
    Items::new(alloc)
}

/// The list of no outermost blocks, which takes no memory.
pub fn no_blocks(alloc: Global) -> BlockList
    ensures { contents_of result ≡ no_more }
{
    Items::new(alloc)
}

/// Adds a record at the end of the parts of a block.
///
/// # Errors
/// `NoMemory` leaves the parts as they were; it also comes where there are 2147483647 of them.
pub fn push_entry(parts: &mut Parts, code: u32, values: Values) -> Result<(), NoMemory>
    ensures ok { OnOk result (parts_contents parts.new ≡ append (parts_contents parts.old) (a_record code values no_more)) }
    ensures err { OnErr result (parts.new ≡ parts.old) }
{
    if parts.len() >= MOST_PARTS {
        return Err(NoMemory);
    }
    parts.push(Part::Entry(Entry { code, values }))?;
    Ok(())
}

/// Adds a block at the end of the parts of a block.
///
/// # Errors
/// `NoMemory` leaves the parts as they were; it also comes where there are 2147483647 of them.
pub fn push_block(parts: &mut Parts, id: u32, inner: Parts) -> Result<(), NoMemory>
    ensures ok { OnOk result (parts_contents parts.new ≡ append (parts_contents parts.old) (a_block id (parts_contents inner) no_more)) }
    ensures err { OnErr result (parts.new ≡ parts.old) }
{
    if parts.len() >= MOST_PARTS {
        return Err(NoMemory);
    }
    parts.push(Part::Block(BlockTree { id, parts: inner }))?;
    Ok(())
}

/// Adds an outermost block at the end.
///
/// # Errors
/// `NoMemory` leaves the blocks as they were; it also comes where there are 2147483647 of them.
pub fn push_outermost(blocks: &mut BlockList, id: u32, inner: Parts) -> Result<(), NoMemory>
    ensures ok { OnOk result (contents_of blocks.new ≡ append (contents_of blocks.old) (a_block id (parts_contents inner) no_more)) }
    ensures err { OnErr result (blocks.new ≡ blocks.old) }
{
    if blocks.len() >= MOST_PARTS {
        return Err(NoMemory);
    }
    blocks.push(BlockTree { id, parts: inner })?;
    Ok(())
}
