//! Where a block list is at fault, as far as records are read.

ghost use Rattle.std.specs.Prelude.{◌<◌, ◌^◌, All, IfOk, MatchOption};
ghost use Rattle.bc_stream.specs.Blocks.{contents_of};
ghost use Rattle.bc_records.specs.Entries.{block_count};
ghost use Rattle.bc_records.specs.FaultSites.{IsFree};
ghost use Rattle.bc_records.specs.RecordFaults.{IsFault, record_sites};

mod body;
mod body_walk;
mod constants;
mod counts;
mod fault;
mod flat;
mod known;
mod metadata;
mod module_block;
mod numbers;
mod operands;
mod outermost;
mod place;
mod progress;
mod survey;
mod symbols;
mod tables;
mod types;

use base_core::NoMemory;
use bc_stream::BlockList;
pub use fault::Fault;
use fault::Stop;
use outermost::outer_faults;
use std::alloc::Global;

/// The fault of a block list, or none.
///
/// # Errors
/// `NoMemory` where memory is refused, where a block has more than 2147483647 parts, where 2^62 values or more stand
/// before the instructions of a body, or where a count of constants or metadata is 2^64 or more.
pub fn record_fault(alloc: Global, blocks: &BlockList) -> Result<Option<Fault>, NoMemory>
    requires { block_count (contents_of blocks.now) < 2 ^ 32 }
    ensures { IfOk result (λ found. MatchOption found (All IsFree (record_sites (contents_of blocks.now))) (λ fault. IsFault (contents_of blocks.now) fault.kind fault.block fault.at)) }
{
    match outer_faults(alloc, blocks.as_slice()) {
        Ok(()) => Ok(None),
        Err(Stop::Found(fault)) => Ok(Some(fault)),
        Err(Stop::Memory) => Err(NoMemory),
    }
}
