//! The block FUNCTION: a body.

ghost use Rattle.std.specs.Prelude.{◌≡◌, ◌∷◌, ◌+◌, ◌^◌, ◌<◌, ◌≤◌, All, IfOk, OnOk, flat_map, map};
ghost use Rattle.bc_stream.specs.Blocks.{append, no_more, parts_contents};
ghost use Rattle.bc_records.specs.BodyRecords.{body_entry};
ghost use Rattle.bc_records.specs.Ranges.{BlockInRange, BodyInRange, InstInRange};
ghost use Rattle.bc_records.specs.Entries.{IsWord};
ghost use Rattle.bc_records.specs.Written.{body_contents, call_records, inst_records, listed, relative, type_number, value_after, written_code};

use crate::codes::{CONSTANTS_BLOCK, DECLAREBLOCKS, INST_CALL, INST_RET};
use crate::constants::constants_parts;
use crate::push::{are_words, push_numbers};
use crate::values::{after_inst, first_of_body, function_type};
use base_core::NoMemory;
use bc_stream::{Parts, Values, no_parts, push_block, push_entry};
use ir_core::{Blocks, Body, Function, Ids, Inst, Insts, Module};
use std::alloc::Global;

/// Bit 15 of a calling convention: the function type is given.
const EXPLICIT_TYPE: u64 = 32768;

/// How many operands a call has before its arguments.
pub const CALL_FRONT: usize = 4;

/// Differences of value numbers are taken modulo this.
const MODULUS: u64 = 4294967296;

/// A value as an operand, where the next value has the number `next`.
fn difference(next: u64, value: u32) -> u64
    requires { next < 2 ^ 63 }
    ensures { result ≡ relative next value }
{
    (next + MODULUS - u64::from(value)) % MODULUS
}

/// The operands of a call: no attributes, the convention, the function's type, the function and the arguments.
fn call_operands(
    alloc: Global,
    module: &Module,
    next: u64,
    function: u32,
    args: &[u32],
) -> Result<Values, NoMemory>
    requires { next < 2 ^ 63 }
    ensures { IfOk result (λ values. values ≡ 0 ∷ 2 ^ 15 ∷ type_number «module».now function ∷ relative next function ∷ map (relative next) args.now) }
{
    let ty = u64::from(function_type(module, function));
    let mut values = Vec::with_capacity(alloc, args.len() + CALL_FRONT)?;
    values.extend_from_slice(&[0, EXPLICIT_TYPE, ty, difference(next, function)])?;
    for arg in args {
        values.push(difference(next, *arg))?;
    }
    Values::from_vec(values)
}

/// Adds the record of a call.
fn push_call(
    alloc: Global,
    parts: &mut Parts,
    module: &Module,
    next: u64,
    function: u32,
    args: &Ids,
) -> Result<(), NoMemory>
    requires { next < 2 ^ 63 }
    ensures ok { OnOk result (parts_contents parts.new ≡ append (parts_contents parts.old) (listed (map body_entry (call_records «module».now next function args.now)) no_more)) }
    ensures range { OnOk result (All IsWord args.now) }
{
    let numbers = args.as_slice();
    are_words(numbers);
    let values = call_operands(alloc, module, next, function, numbers)?;
    push_entry(parts, INST_CALL, values)?;
    Ok(())
}

/// Adds the record of an instruction, where the next value has the number `next`.
#[tactic(auto, using(crate::proofs::Steps::append_none))]
fn push_inst(
    alloc: Global,
    parts: &mut Parts,
    module: &Module,
    next: u64,
    inst: &Inst,
) -> Result<(), NoMemory>
    requires { next < 2 ^ 63 }
    ensures ok { OnOk result (parts_contents parts.new ≡ append (parts_contents parts.old) (listed (map body_entry (inst_records «module».now next inst.now)) no_more)) }
    ensures range { OnOk result (InstInRange inst.now) }
{
    match inst {
        Inst::Call { function, args } => push_call(alloc, parts, module, next, *function, args),
        Inst::Ret => push_numbers(alloc, parts, INST_RET, &[]),
        Inst::Bin { .. } => Ok(()),
        Inst::Cast { .. } => Ok(()),
        Inst::Cmp { .. } => Ok(()),
        Inst::Select { .. } => Ok(()),
        Inst::Phi { .. } => Ok(()),
        Inst::Alloca { .. } => Ok(()),
        Inst::Gep { .. } => Ok(()),
        Inst::Load { .. } => Ok(()),
        Inst::Store { .. } => Ok(()),
        Inst::Extract { .. } => Ok(()),
        Inst::Rmw { .. } => Ok(()),
        Inst::CmpXchg { .. } => Ok(()),
        Inst::Jump { .. } => Ok(()),
        Inst::Branch { .. } => Ok(()),
    }
}

/// Adds the records of the instructions of a block, and says the number of the next value after them.
fn push_insts(
    alloc: Global,
    parts: &mut Parts,
    module: &Module,
    first: u64,
    insts: &Insts,
) -> Result<u64, NoMemory>
    requires { first < 2 ^ 62 + 2 ^ 35 }
    ensures ok { OnOk result (parts_contents parts.new ≡ append (parts_contents parts.old) (listed (map body_entry (written_code «module».now first insts.now)) no_more)) }
    ensures after { IfOk result (λ after. after ≡ value_after «module».now first insts.now) }
    ensures limit { IfOk result (λ after. after ≤ first + 2147483647) }
    ensures range { OnOk result (All InstInRange insts.now) }
{
    let mut next = first;
    let all = insts.as_slice();
    for inst in all {
        push_inst(alloc, parts, module, next, inst)?;
        next = after_inst(module, next, inst);
    }
    Ok(next)
}

/// Adds the records of all instructions of a body, where the first value has the number `first`.
fn push_blocks(
    alloc: Global,
    parts: &mut Parts,
    module: &Module,
    first: u64,
    blocks: &Blocks,
) -> Result<(), NoMemory>
    requires { first < 2 ^ 34 }
    ensures ok { OnOk result (parts_contents parts.new ≡ append (parts_contents parts.old) (listed (map body_entry (written_code «module».now first (flat_map (λ k. k.insts) blocks.now))) no_more)) }
    ensures range { OnOk result (All BlockInRange blocks.now) }
{
    let mut next = first;
    let all = blocks.as_slice();
    for block in all {
        next = push_insts(alloc, parts, module, next, &block.insts)?;
    }
    Ok(())
}

/// The parts of the block of a body.
///
/// # Errors
/// `NoMemory` where memory is refused.
pub fn body_parts(
    alloc: Global,
    module: &Module,
    function: &Function,
    body: &Body,
) -> Result<Parts, NoMemory>
    ensures value { IfOk result (λ parts. parts_contents parts ≡ body_contents «module».now function.now body.now) }
    ensures range { OnOk result (BodyInRange body.now) }
{
    let mut parts = no_parts(alloc);
    push_numbers(
        alloc,
        &mut parts,
        DECLAREBLOCKS,
        &[body.blocks.len() as u64],
    )?;
    let constants = constants_parts(alloc, &body.consts)?;
    push_block(&mut parts, CONSTANTS_BLOCK, constants)?;
    let first = first_of_body(module, function, body);
    push_blocks(alloc, &mut parts, module, first, &body.blocks)?;
    Ok(parts)
}
