//! The module that a block list records.

ghost use Rattle.std.specs.Prelude.{ℕ, ◌^◌, ◌<◌, ◌≤◌, MatchResult, length};
ghost use Rattle.base_core.specs.Limits.{most_parts};
ghost use Rattle.ir_core.specs.declared.module.Module.{Module};
ghost use Rattle.bc_stream.specs.Blocks.{contents_of};
ghost use Rattle.bc_records.specs.Entries.{block_count};
ghost use Rattle.bc_records.specs.RecordAnswers.{GivesModule, IsBadList, NamesFault};
ghost use Rattle.bc_records.specs.RecordFaults.{IsFault};
ghost use Rattle.bc_records.specs.Records.{Recorded};

use crate::fault::RecordFault;
use crate::faults::{Fault, record_fault};
use crate::laws::{no_record_fault, one_module, one_record_fault};
use crate::read::read_module;
use bc_stream::BlockList;
use ir_core::{Module, Types};
use std::alloc::Global;

/// A type table has at most 2147483647 entries.
fn is_limited(types: &Types)
    ensures { length types.now ≤ most_parts }
{
    types.len();
}

/// The module of a block list without a fault, or the fault.
fn read_list(alloc: Global, blocks: &BlockList) -> Result<Module, RecordFault>
    requires { block_count (contents_of blocks.now) < 2 ^ 32 }
    ensures { MatchResult result (λ m. Recorded (contents_of blocks.now) m) (λ fault. IsBadList (contents_of blocks.now) fault) }
{
    match record_fault(alloc, blocks)? {
        Some(Fault { kind, block, at }) => Err(RecordFault::Bad { kind, block, at }),
        None => {
            let module = read_module(alloc, blocks)?;
            is_limited(&module.types);
            Ok(module)
        }
    }
}

/// The module that a block list records (LLVM Bitcode File Format, "LLVM IR Encoding").
///
/// The list has fewer than 2^32 blocks, nested ones counted.
///
/// # Errors
/// `Bad` exactly where the list records no module: the least kind of fault at the first place, in the order of the
/// list, that has one. `Memory` where memory is refused, where a list of the module would have more than 2147483647
/// parts, or where a body declares more than 16777216 basic blocks.
pub fn from_blocks(alloc: Global, blocks: &BlockList) -> Result<Module, RecordFault>
    requires few { block_count (contents_of blocks.now) < 2 ^ 32 }
    // The list records the module that is answered, or has the fault that is answered.
    ensures answer { MatchResult result (λ m. Recorded (contents_of blocks.now) m) (λ fault. IsBadList (contents_of blocks.now) fault) }

    // The module that the list records is answered, unless memory is refused.
    ensures recorded { (m : Module) → Recorded (contents_of blocks.now) m → GivesModule m result }

    // The fault of the list is answered, unless memory is refused.
    ensures faulty { (kind block at : ℕ) → IsFault (contents_of blocks.now) kind block at → NamesFault kind block at result }
{
    one_module();
    one_record_fault();
    no_record_fault();
    read_list(alloc, blocks)
}
