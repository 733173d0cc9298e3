//! Blocks that bytes spell, read piece by piece.

ghost use Rattle.std.specs.Prelude.{◌≡◌, ◌≢◌, ◌+◌, ◌*◌, ◌-◌, ◌/◌, ◌%◌, ◌^◌, ◌<◌, ◌≤◌, ◌⊎◌, ◌↔◌, [], ◌∷◌, ◌++◌, ℕ, List, length, take, drop, IsTrue, IfOk, OnOk, MatchResult};
ghost use Rattle.std.specs.Bool.{OnTrue, OnFalse};
ghost use Rattle.std.specs.List.{All};
ghost use Rattle.bc_stream.specs.declared.fault.StreamFault.TheVariants.{Bad, Memory};
ghost use Rattle.bc_stream.specs.Bits.{bits_of};
ghost use Rattle.bc_stream.specs.Blocks.{Contents, block_count, contents_of};
ghost use Rattle.bc_stream.specs.Spelling.{Faulty, IsEnd, Spelled, most_levels};
ghost use Rattle.bc_stream.specs.Faults.{IsBad};
ghost use Rattle.bc_stream.specs.Pieces.{state_in};
ghost use Rattle.bc_stream.specs.Bodies.{BlockAt, BodyAt, FaultFrom};

use crate::block::{BlockList, BlockTree, Entry, Part, Parts};
use crate::build::{MOST_PARTS, no_blocks, push_outermost};
use crate::fault::{OUTSIDE_BLOCKS, StreamFault, WRONG_MAGIC, fault};
use crate::few::read_few;
use crate::piece::{Piece, Scope, next_piece};
use crate::values::Values;
use base_core::NoMemory;
use sqlite_items::Items;
use std::alloc::Global;
use std::mem;

/// "BC" and 0xC0DE, with which a stream of blocks begins.
const MAGIC: [u8; 4] = [0x42, 0x43, 0xC0, 0xDE];

/// Where the first piece begins.
const START: usize = 32;

/// The greatest number of parts that are copied rather than handed over with the room for more.
const MOST_COPIED: usize = 64;

/// What stands outside all blocks.
const OUTSIDE: Scope = Scope {
    levels: 0,
    width: 2,
    ends: 0,
};

/// The body of a block that was read, with the place behind its end.
#[derive(Drop)]
struct Body {
    parts: Parts,
    to: usize,
}

/// Whether bytes are all zero.
fn is_zero(bytes: &[u8]) -> bool
    ensures { IsTrue result ↔ All (λ byte. byte ≡ 0) bytes.now }
{
    bytes.iter().all(|byte| *byte == 0)
}

/// Whether there are zero bits alone from a place on that is on a byte.
fn is_zero_from(bytes: &[u8], at: usize) -> bool
    requires within { at ≤ 8 * length bytes.now }
    requires on_byte { at % 8 ≡ 0 }
    ensures { IsTrue result ↔ All (λ bit. bit ≡ 0) (drop at (bits_of bytes.now)) }
{
    is_zero(&bytes[at / 8..])
}

/// Adds a part at the end.
///
/// # Errors
/// `NoMemory` where memory is refused, or where there are 2147483647 of them.
#[inline(always)]
fn push_part(parts: &mut Vec<Part>, part: Part) -> Result<(), NoMemory>
    ensures { OnOk result (parts.new.items ≡ parts.old.items ++ part ∷ []) }
{
    if parts.len() >= MOST_PARTS {
        return Err(NoMemory);
    }
    if parts.len() == parts.capacity() {
        parts.reserve(1)?;
    }
    parts.push_reserved(part);
    Ok(())
}

/// Takes all parts that were gathered. Few of them are copied, so that the room of the vector serves the next block.
///
/// # Errors
/// `NoMemory` where memory is refused.
fn take_parts(alloc: Global, parts: &mut Vec<Part>) -> Result<Parts, NoMemory>
    ensures taken { IfOk result (λ all. all ≡ parts.old.items) }
    ensures left { OnOk result (parts.new.items ≡ []) }
{
    if parts.len() > MOST_COPIED {
        let all = mem::replace(parts, Vec::new(alloc));
        return Ok(Items::from_vec(all));
    }
    let few = parts.split_off(0)?;
    Ok(Items::from_vec(few))
}

/// Reads the body of a block up to its end. It calls itself once for each of the levels, of which there are at most 16.
///
/// The parts are gathered in a vector that is empty before and after, whose room serves one block after the other.
///
/// # Errors
/// The fault of the first piece that has one, or `Memory` where memory is refused.
fn read_body(
    alloc: Global,
    bytes: &[u8],
    scope: Scope,
    parts: &mut Vec<Part>,
    at: usize,
) -> Result<Body, StreamFault>
    requires empty { parts.old.items ≡ [] }
    requires short { length bytes.now < 2 ^ 32 }
    requires inside { 0 < scope.levels }
    requires levels { scope.levels ≤ most_levels }
    requires limit { scope.width ≤ 64 }
    requires within { at ≤ 8 * length bytes.now }
    ensures body { MatchResult result (BodyAt bytes.now scope at) (FaultFrom bytes.now scope at) }
    ensures left { OnOk result (parts.new.items ≡ []) }
{
    let mut inner_parts = Vec::new(alloc);
    let mut to = at;
    loop {
        if let Some(few) = read_few(bytes, scope, to) {
            let values = Values::in_place(few.count as u32, few.places);
            let code = few.code;
            push_part(parts, Part::Entry(Entry { code, values }))?;
            to = few.to;
            continue;
        }
        match next_piece(alloc, bytes, scope, to)? {
            Piece::Leave { to } => {
                let parts = take_parts(alloc, parts)?;
                return Ok(Body { parts, to });
            }
            Piece::Record {
                code,
                values,
                to: behind,
            } => {
                push_part(parts, Part::Entry(Entry { code, values }))?;
                to = behind;
            }
            Piece::Enter {
                id,
                inner,
                to: behind,
            } => {
                let body = read_body(alloc, bytes, inner, &mut inner_parts, behind)?;
                push_part(
                    parts,
                    Part::Block(BlockTree {
                        id,
                        parts: body.parts,
                    }),
                )?;
                to = body.to;
            }
        }
    }
}

/// Reads an outermost block, puts it behind others, and answers the place behind it.
///
/// # Errors
/// The fault of the first piece that has one, or `Memory` where memory is refused.
fn read_outermost(
    alloc: Global,
    bytes: &[u8],
    blocks: &mut BlockList,
    at: usize,
) -> Result<usize, StreamFault>
    requires short { length bytes.now < 2 ^ 32 }
    requires within { at ≤ 8 * length bytes.now }
    requires goes_on { IsEnd (state_in bytes.now [] at) → ⊥ }
    ensures { MatchResult result (BlockAt bytes.now at (contents_of blocks.old) (contents_of blocks.new)) (FaultFrom bytes.now OUTSIDE at) }
{
    let Piece::Enter { id, inner, to } = next_piece(alloc, bytes, OUTSIDE, at)? else {
        return Err(fault(OUTSIDE_BLOCKS, at));
    };
    let mut parts = Vec::new(alloc);
    let body = read_body(alloc, bytes, inner, &mut parts, to)?;
    push_outermost(blocks, id, body.parts)?;
    Ok(body.to)
}

/// Reads all blocks behind the magic number.
fn read_all(alloc: Global, bytes: &[u8]) -> Result<BlockList, StreamFault>
    requires short { length bytes.now < 2 ^ 32 }
    requires magic { bytes.now ≡ 66 ∷ 67 ∷ 192 ∷ 222 ∷ drop 4 bytes.now }
    ensures { MatchResult result (λ blocks. Spelled bytes.now (contents_of blocks)) (IsBad bytes.now) }
{
    let mut blocks = no_blocks(alloc);
    let mut at = START;
    while !is_zero_from(bytes, at) {
        at = read_outermost(alloc, bytes, &mut blocks, at)?;
    }
    Ok(blocks)
}

/// Whether bytes begin with the magic number.
fn has_magic(bytes: &[u8]) -> bool
    ensures yes { OnTrue result (bytes.now ≡ 66 ∷ 67 ∷ 192 ∷ 222 ∷ drop 4 bytes.now) }
    ensures no { OnFalse result ((behind : List ℕ) → bytes.now ≡ 66 ∷ 67 ∷ 192 ∷ 222 ∷ behind → ⊥) }
{
    bytes.len() >= MAGIC.len() && &bytes[..MAGIC.len()] == MAGIC.as_slice()
}

/// The blocks that bytes spell, in order, with their records (LLVM Bitcode File Format, "Bitstream Format").
///
/// Alignment bits may be any, a number may have any number of chunks, and zero bytes behind the last block are skipped.
/// Abbreviations aren't read yet.
///
/// # Errors
/// - `Bad` where the bytes spell no blocks, with the fault of the first piece that has one. Where a piece has more than
///   one it is that of the least kind.
/// - `Memory` where memory is refused, or for more than 2147483647 parts of a block or values of a record.
pub fn read_blocks(alloc: Global, bytes: &[u8]) -> Result<BlockList, StreamFault>
    requires { length bytes.now < 2 ^ 32 }
    // The bytes spell the blocks that are answered, or have the fault that is answered.
    ensures answer { MatchResult result (λ blocks. Spelled bytes.now (contents_of blocks)) (IsBad bytes.now) }

    // Each block has a word for its length, so there are fewer than 2^32.
    ensures few { IfOk result (λ blocks. block_count (contents_of blocks) < 2 ^ 32) }

    // The blocks that the bytes spell are answered, unless memory runs out.
    ensures spelled { (blocks : Contents) → Spelled bytes.now blocks → MatchResult result (λ found. contents_of found ≡ blocks) (λ fault. fault ≡ Memory) }

    // The fault of the bytes is answered, unless memory runs out.
    ensures faulty { (kind bit : ℕ) → Faulty bytes.now kind bit → (result ≡ Err (Bad kind bit)) ⊎ (result ≡ Err Memory) }
{
    if !has_magic(bytes) {
        return Err(fault(WRONG_MAGIC, 0));
    }
    read_all(alloc, bytes)
}
