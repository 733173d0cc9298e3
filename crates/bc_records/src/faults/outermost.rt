//! A walk over the outermost blocks.

ghost use Rattle.std.specs.Prelude.{◌≡◌, suc, ◌+◌, ◌<◌, ◌^◌, ◌==◌, ◌||◌};
ghost use Rattle.bc_stream.specs.Blocks.{Contents, contents_of, parts_contents};
ghost use Rattle.bc_records.specs.Codes.{module_block};
ghost use Rattle.bc_records.specs.Entries.{block_count};
ghost use Rattle.bc_records.specs.FaultSearch.{Tells, fault_at, first_fault, first_kind, or_else};
ghost use Rattle.bc_records.specs.RecordFaults.{outer_heads, outer_inside, record_sites};
ghost use Rattle.bc_records.specs.RecordKinds.{has_block};

use crate::codes::MODULE_BLOCK;
use crate::faults::counts::{after_block, parts_of};
use crate::faults::fault::{Fault, MISSING, PLACE, Stop, free_at, misplaced_kind, unless};
use crate::faults::module_block::module_faults;
use bc_stream::BlockTree;
use std::alloc::Global;

/// Whether there is a block MODULE.
fn has_module(blocks: &[BlockTree]) -> bool
    ensures { result ≡ has_block module_block (contents_of blocks.now) }
{
    for block in blocks {
        if block.id == MODULE_BLOCK {
            return true;
        }
    }
    false
}

/// Goes on where an outermost block has no fault, after a MODULE or none.
fn outer_part(alloc: Global, seen: bool, number: u32, block: &BlockTree) -> Result<(), Stop>
    requires { suc (number + block_count (parts_contents block.now.parts)) < 2 ^ 32 }
    ensures { (before : Contents) → has_block module_block before ≡ seen → Tells result (or_else (fault_at number 0 (first_kind (outer_heads before block.now.id))) (first_fault (outer_inside block.now.id number (parts_contents block.now.parts)))) }
{
    if block.id != MODULE_BLOCK {
        return Err(Stop::Found(Fault {
            kind: misplaced_kind(block.id),
            block: number,
            at: 0,
        }));
    }
    if seen {
        return Err(Stop::Found(Fault {
            kind: PLACE,
            block: number,
            at: 0,
        }));
    }
    let parts = parts_of(&block.parts)?;
    module_faults(alloc, number, parts)
}

/// Whether a MODULE has come behind a block more.
fn module_behind(seen: bool, id: u32) -> bool
    ensures { result ≡ (seen || (id == module_block)) }
{
    seen || id == MODULE_BLOCK
}

/// The number that follows a block and those in it, where more blocks are left.
fn number_behind(left: usize, number: u32, block: &BlockTree) -> u32
    ensures { 0 < left → number + suc (block_count (parts_contents block.now.parts)) < 2 ^ 32 → result ≡ number + suc (block_count (parts_contents block.now.parts)) }
{
    if left > 0 {
        after_block(number, block)
    } else {
        number
    }
}

/// Goes on where no place of these outermost blocks has a fault.
pub fn outer_faults(alloc: Global, blocks: &[BlockTree]) -> Result<(), Stop>
    requires { block_count (contents_of blocks.now) < 2 ^ 32 }
    ensures { Tells result (first_fault (record_sites (contents_of blocks.now))) }
{
    free_at(unless(has_module(blocks), MISSING), 0, 0)?;
    let mut seen = false;
    let mut number: u32 = 0;
    let mut left = blocks.len();
    for block in blocks {
        outer_part(alloc, seen, number, block)?;
        seen = module_behind(seen, block.id);
        left -= 1;
        number = number_behind(left, number, block);
    }
    Ok(())
}
