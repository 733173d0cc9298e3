//! The bodies of blocks FUNCTION.

ghost use Rattle.std.specs.Prelude.{◌≡◌, ◌-◌, [], ◌∷◌, ◌++◌, List, IfOk, OnOk, drop, length, map, replicate};
ghost use Rattle.ir_core.specs.Soundness.{ends_block};
ghost use Rattle.ir_core.specs.declared.instruction.Inst.TheVariants.{Call};
ghost use Rattle.ir_core.specs.declared.instruction.Inst.{Inst as AnInst};
ghost use Rattle.bc_stream.specs.Blocks.{parts_contents};
ghost use Rattle.bc_records.specs.BodyRecords.{absolute, filled_blocks};
ghost use Rattle.bc_records.specs.Entries.{Entry as AnEntry, entries_in, entry as an_entry};
ghost use Rattle.bc_records.specs.Read.{block_of, read_body, read_count, read_instructions, up_to, word, words};
ghost use Rattle.bc_records.specs.ReadBodies.{blocks_with, filled_after, unless_empty};
ghost use Rattle.bc_records.specs.RecordKinds.{operand};

use super::constants::constants_in;
use super::operands::{after, low_word, word_at};
use crate::code::CALL_FRONT;
use crate::codes::{DECLAREBLOCKS, INST_RET};
use crate::values::{after_inst, first_of_body};
use base_core::NoMemory;
use bc_stream::{Entry, Part, Parts};
use ir_core::{Block, Blocks, Body, Function, Ids, Inst, Insts, Module};
use std::alloc::Global;
use std::mem;

/// The place of the function's operand in a CALL.
const CALLED: usize = 3;

/// The greatest number of basic blocks that a body may declare: few bytes may ask for many.
const MOST_BLOCKS: usize = 16777216;

/// The value that an operand names, where the next value has the number `next` modulo 2^32.
#[inline]
fn value_at(next: u32, operand: u64) -> u32
    ensures { result ≡ absolute next (word operand) }
{
    next.wrapping_sub(low_word(operand))
}

/// The call of a record CALL.
fn read_call(alloc: Global, next: u32, operands: &[u64]) -> Result<Inst, NoMemory>
    ensures { IfOk result (λ inst. inst ≡ Call (absolute next (word (operand operands.now 3))) (map (absolute next) (words (drop 4 operands.now)))) }
{
    let arguments = after(operands, CALL_FRONT);
    let mut args = Vec::with_capacity(alloc, arguments.len())?;
    for argument in arguments {
        args.push(value_at(next, *argument))?;
    }
    Ok(Inst::Call {
        function: value_at(next, u64::from(word_at(operands, CALLED))),
        args: Ids::from_vec(args)?,
    })
}

/// Whether an instruction is the last of its block.
fn is_last(inst: &Inst) -> bool
    ensures { result ≡ ends_block inst.now }
{
    match inst {
        Inst::Jump { .. } => true,
        Inst::Branch { .. } => true,
        Inst::Ret => true,
        _ => false,
    }
}

/// Adds an instruction to the open block, which is whole after a jump, a branch or a return.
fn push_inst(
    alloc: Global,
    blocks: &mut Blocks,
    insts: &mut Insts,
    inst: Inst,
) -> Result<(), NoMemory>
    ensures { OnOk result ((rest : List AnInst) → blocks.new ++ map block_of (filled_after insts.new rest) ≡ blocks.old ++ map block_of (filled_after insts.old (inst ∷ rest))) }
{
    let last = is_last(&inst);
    insts.push(inst)?;
    if !last {
        return Ok(());
    }
    blocks.push(Block {
        insts: mem::replace(insts, Insts::new(alloc)),
    })
}

/// Adds the instruction of a record, where the next value has the number `next` modulo 2^32.
fn push_record(
    alloc: Global,
    module: &Module,
    blocks: &mut Blocks,
    insts: &mut Insts,
    next: &mut u32,
    entry: &Entry,
) -> Result<(), NoMemory>
    ensures { OnOk result ((rest : List AnEntry) → blocks_with «module».now blocks.new insts.new next.new rest ≡ blocks_with «module».now blocks.old insts.old next.old (an_entry entry.now.code entry.now.values ∷ rest)) }
{
    match entry.code {
        DECLAREBLOCKS => Ok(()),
        INST_RET => push_inst(alloc, blocks, insts, Inst::Ret),
        _ => {
            let call = read_call(alloc, *next, entry.values.as_slice())?;
            *next = low_word(after_inst(module, u64::from(*next), &call));
            push_inst(alloc, blocks, insts, call)
        }
    }
}

/// The blocks, and last the open block where it has an instruction.
fn close(mut blocks: Blocks, insts: Insts) -> Result<Blocks, NoMemory>
    ensures { IfOk result (λ all. all ≡ blocks ++ map block_of (unless_empty insts)) }
{
    if insts.is_empty() {
        return Ok(blocks);
    }
    blocks.push(Block { insts })?;
    Ok(blocks)
}

/// The blocks that the instructions of a body fill, where its first value has the number `first`.
fn filled(alloc: Global, module: &Module, first: u64, parts: &Parts) -> Result<Blocks, NoMemory>
    ensures { IfOk result (λ blocks. blocks ≡ map block_of (filled_blocks (read_instructions «module».now first (entries_in (parts_contents parts.now))))) }
{
    let mut blocks = Blocks::new(alloc);
    let mut insts = Insts::new(alloc);
    let mut next = low_word(first);
    for part in parts.as_slice() {
        match part {
            Part::Entry(entry) => push_record(
                alloc,
                module,
                &mut blocks,
                &mut insts,
                &mut next,
                entry,
            )?,
            Part::Block(_) => {}
        }
    }
    close(blocks, insts)
}

/// The number of blocks that a body declares first, and 0 where it declares none.
fn block_count(parts: &Parts) -> u32
    ensures { result ≡ read_count (entries_in (parts_contents parts.now)) }
{
    for part in parts.as_slice() {
        match part {
            Part::Entry(entry) => {
                if entry.code == DECLAREBLOCKS {
                    return word_at(entry.values.as_slice(), 0);
                }
            }
            Part::Block(_) => {}
        }
    }
    0
}

/// Adds empty blocks up to a number of blocks.
fn pad(alloc: Global, blocks: &mut Blocks, count: usize) -> Result<(), NoMemory>
    ensures { OnOk result (blocks.new ≡ blocks.old ++ replicate (count - length blocks.old) (block_of [])) }
{
    let more = count.saturating_sub(blocks.len());
    blocks.reserve(more)?;
    for _ in 0..more {
        blocks.push(Block {
            insts: Insts::new(alloc),
        })?;
    }
    Ok(())
}

/// The blocks of a body whose first value has the number `first`.
fn read_blocks(
    alloc: Global,
    module: &Module,
    first: u64,
    parts: &Parts,
) -> Result<Blocks, NoMemory>
    ensures { IfOk result (λ blocks. blocks ≡ up_to (read_count (entries_in (parts_contents parts.now))) (filled_blocks (read_instructions «module».now first (entries_in (parts_contents parts.now))))) }
{
    let count = block_count(parts) as usize;
    if count > MOST_BLOCKS {
        return Err(NoMemory);
    }
    let mut blocks = filled(alloc, module, first, parts)?;
    pad(alloc, &mut blocks, count)?;
    Ok(blocks)
}

/// The body of a function that a block FUNCTION holds.
///
/// # Errors
/// `NoMemory` where memory is refused.
pub fn body_of(
    alloc: Global,
    module: &Module,
    function: &Function,
    parts: &Parts,
) -> Result<Body, NoMemory>
    ensures { IfOk result (λ body. body ≡ read_body «module».now function.now (parts_contents parts.now)) }
{
    let mut body = Body {
        consts: constants_in(alloc, parts)?,
        blocks: Blocks::new(alloc),
    };
    let first = first_of_body(module, function, &body);
    body.blocks = read_blocks(alloc, module, first, parts)?;
    Ok(body)
}
