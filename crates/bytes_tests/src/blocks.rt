//! Block lists made of tables of records, written and read again.

ghost use Rattle.std.specs.Prelude.{◌^◌, ◌<◌, IfOk};
ghost use Rattle.bc_stream.specs.Blocks.{block_count, contents_of, parts_contents};
ghost use Rattle.bytes_tests.specs.Writable.{IsWritable};

use base_core::NoMemory;
use bc_stream::{
    BlockList, Parts, Values, no_blocks, no_parts, push_block, push_entry, push_outermost,
    read_blocks, write_blocks,
};
use std::alloc::Global;
use std::test::Fail;

/// The id of the block MODULE.
const MODULE: u32 = 8;

/// A record: its code and its operands.
pub(crate) type Record<'a> = (u32, &'a [u64]);

/// The parts of a block with these records.
fn records(alloc: Global, records: &[Record]) -> Result<Parts, NoMemory>
    ensures { IfOk result (λ parts. IsWritable 0 (parts_contents parts)) }
{
    let mut parts = no_parts(alloc);
    for (code, operands) in records {
        push_entry(&mut parts, *code, Values::from_slice(alloc, operands)?)?;
    }
    Ok(parts)
}

/// A block MODULE with these records, and behind them these blocks, each with its id and its records.
pub(crate) fn module_list(
    rt: &HostRuntime,
    own: &[Record],
    blocks: &[(u32, &[Record])],
) -> Result<BlockList, Fail>
    ensures { IfOk result (λ list. IsWritable 2 (contents_of list)) }
{
    let mut parts = records(rt.alloc(), own)?;
    for (id, inner) in blocks {
        if *id == 0 {
            return Err(Fail::from("the block 0 is that of abbreviations"));
        }
        push_block(&mut parts, *id, records(rt.alloc(), inner)?)?;
    }
    let mut list = no_blocks(rt.alloc());
    push_outermost(&mut list, MODULE, parts)?;
    Ok(list)
}

/// A list of blocks, read from the bytes that are written for it.
pub(crate) fn read_again(rt: &HostRuntime, blocks: &BlockList) -> Result<BlockList, Fail>
    requires { IsWritable 2 (contents_of blocks.now) }
    ensures { IfOk result (λ again. block_count (contents_of again) < 2 ^ 32) }
{
    let bytes = write_blocks(rt.alloc(), blocks)?;
    let again = read_blocks(rt.alloc(), bytes.as_slice())?;
    Ok(again)
}
