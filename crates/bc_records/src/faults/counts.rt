//! Counts of blocks and records.

ghost use Rattle.std.specs.Prelude.{◌≡◌, suc, ◌+◌, ◌<◌, ◌^◌, IfOk, length};
ghost use Rattle.bc_stream.specs.Blocks.{parts_contents};
ghost use Rattle.bc_records.specs.Entries.{block_count, blocks_in, entries_in};
ghost use Rattle.bc_records.specs.FaultCounts.{codes_from, is_code_from};
ghost use Rattle.bc_records.specs.RecordKinds.{all_of, first_of};

use base_core::NoMemory;
use bc_stream::{BlockTree, Part, Parts};

/// The greatest number of parts of a block, as for a writer of blocks.
const MOST_PARTS: usize = 2147483647;

/// The parts of a block.
///
/// # Errors
/// `NoMemory` where there are more than 2147483647.
pub fn parts_of(parts: &Parts) -> Result<&[Part], NoMemory>
    ensures { IfOk result (λ slice. (slice.now ≡ parts.now) × (length parts.now < 2 ^ 31)) }
{
    if parts.len() > MOST_PARTS {
        return Err(NoMemory);
    }
    Ok(parts.as_slice())
}

/// The number that follows a block and those in it, where the block has this one. Numbers stop at 2^32 - 1.
pub fn after_block(number: u32, block: &BlockTree) -> u32
    ensures { number + suc (block_count (parts_contents block.now.parts)) < 2 ^ 32 → result ≡ number + suc (block_count (parts_contents block.now.parts)) }
{
    let mut next = number.saturating_add(1);
    for part in block.parts.as_slice() {
        if let Part::Block(inner) = part {
            next = after_block(next, inner);
        }
    }
    next
}

/// The sum of two counts.
///
/// # Errors
/// `NoMemory` where it is 2^64 or more.
pub fn sum(a: u64, b: u64) -> Result<u64, NoMemory>
    ensures { IfOk result (λ n. n ≡ a + b) }
{
    match a.checked_add(b) {
        None => Err(NoMemory),
        Some(n) => Ok(n),
    }
}

/// Whether a code is one of three, from the first on.
#[inline(always)]
fn is_from(first: u32, code: u32) -> bool
    requires { first < 2 ^ 31 }
    ensures { result ≡ is_code_from first code }
{
    code == first || code == first + 1 || code == first + 2
}

/// How many records have one of three codes, from the first on.
fn count_from(first: u32, parts: &[Part]) -> u64
    requires { first < 2 ^ 31 }
    ensures value { result ≡ codes_from first (entries_in (parts_contents parts.now)) }
{
    let mut count = 0;
    for part in parts {
        if let Part::Entry(entry) = part {
            if is_from(first, entry.code) {
                count += 1;
            }
        }
    }
    count
}

/// How many records have one of three codes, from the first on, in all blocks of an id.
///
/// # Errors
/// `NoMemory` where there are 2^64 or more.
pub fn count_in_blocks(id: u32, first: u32, parts: &[Part]) -> Result<u64, NoMemory>
    requires { first < 2 ^ 31 }
    ensures { IfOk result (λ count. count ≡ codes_from first (all_of (blocks_in id (parts_contents parts.now)))) }
{
    let mut count: u64 = 0;
    for part in parts {
        if let Part::Block(inner) = part {
            if inner.id == id {
                let more = count_from(first, inner.parts.as_slice());
                count = sum(count, more)?;
            }
        }
    }
    Ok(count)
}

/// What the first block of an id holds, or nothing where there is none.
pub fn first_block(id: u32, parts: &[Part]) -> &[Part]
    ensures { entries_in (parts_contents result.now) ≡ first_of (blocks_in id (parts_contents parts.now)) }
{
    for part in parts {
        if let Part::Block(inner) = part {
            if inner.id == id {
                return inner.parts.as_slice();
            }
        }
    }
    &[]
}
