//! Laws of the spelling, each the clause of a function that does nothing, and what is written read again.

ghost use Rattle.std.specs.Prelude.{◌≡◌, ◌≤◌, MatchResult};
ghost use Rattle.bc_stream.specs.declared.fault.StreamFault.TheVariants.{Memory};
ghost use Rattle.bc_stream.specs.Blocks.{HasNoBlockZero, contents_of, levels};
ghost use Rattle.bc_stream.specs.Spelling.{NoFault, OneFault, OneList, most_levels};

use crate::block::BlockList;
use crate::fault::StreamFault;
use crate::read::read_blocks;
use crate::write::write_blocks;
use std::alloc::Global;

/// Bytes spell at most one list of blocks.
pub fn one_list()
    ensures { OneList }
{}

/// Bytes have at most one fault.
pub fn one_fault()
    ensures { OneFault }
{}

/// Bytes that spell a list of blocks have no fault.
pub fn no_fault_in_a_spelling()
    ensures { NoFault }
{}

/// Writes blocks and reads them again.
///
/// # Errors
/// `Memory` where memory is refused, or for more than 2147483647 bytes, and no other.
pub fn read_back(alloc: Global, blocks: &BlockList) -> Result<BlockList, StreamFault>
    requires no_block_zero { HasNoBlockZero (contents_of blocks.now) }
    requires nesting { levels (contents_of blocks.now) ≤ most_levels }
    ensures { MatchResult result (λ again. contents_of again ≡ contents_of blocks.now) (λ fault. fault ≡ Memory) }
{
    let bytes = write_blocks(alloc, blocks)?;
    read_blocks(alloc, bytes.as_slice())
}
