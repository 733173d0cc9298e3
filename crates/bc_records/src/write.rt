//! The block MODULE, and with it the block list of a module.

ghost use Rattle.std.specs.Prelude.{◌≡◌, [], ◌∷◌, ◌^◌, ◌<◌, ◌≤◌, All, IfOk, IfSome, OnOk, map};
ghost use Rattle.ir_core.specs.Soundness.{IsWhole};
ghost use Rattle.ir_core.specs.Values.{bodies};
ghost use Rattle.bc_stream.specs.Blocks.{HasNoBlockZero, append, contents_of, levels, no_more, parts_contents};
ghost use Rattle.bc_stream.specs.Spelling.{most_levels};
ghost use Rattle.bc_records.specs.Entries.{IsText, IsWord, block_count};
ghost use Rattle.bc_records.specs.FirstList.{IsListed};
ghost use Rattle.bc_records.specs.Ranges.{BodyInRange, ConstInRange, IsInRange, MetaInRange, NamedInRange, TypeInRange};
ghost use Rattle.bc_records.specs.Records.{Recorded};
ghost use Rattle.bc_records.specs.Written.{bodies_contents, function_entry, header_contents, listed, module_contents, tables_contents};

use crate::code::body_parts;
use crate::codes::{
    CONSTANTS_BLOCK, DATALAYOUT, FUNCTION, FUNCTION_BLOCK, METADATA_BLOCK, MODULE_BLOCK,
    SYMBOLS_BLOCK, TRIPLE, TYPES_BLOCK, VERSION,
};
use crate::constants::constants_parts;
use crate::metadata::metadata_parts;
use crate::push::{push_numbers, push_text};
use crate::symbols::symbols_parts;
use crate::types::types_parts;
use base_core::NoMemory;
use bc_stream::{BlockList, Parts, no_blocks, no_parts, push_block, push_outermost};
use ir_core::{Function, Functions, Module};
use std::alloc::Global;

/// The version of the records: operands of instructions are differences.
const RELATIVE_OPERANDS: u64 = 1;

/// Adds the record of a function.
fn push_function(alloc: Global, parts: &mut Parts, function: &Function) -> Result<(), NoMemory>
    ensures ok { OnOk result (parts_contents parts.new ≡ append (parts_contents parts.old) (listed (function_entry function.now ∷ []) no_more)) }
    ensures range { OnOk result (IsWord function.now.ty) }
{
    let ty = u64::from(function.ty);
    let prototype = match &function.body {
        None => 1,
        Some(_) => 0,
    };
    push_numbers(
        alloc,
        parts,
        FUNCTION,
        &[ty, 0, prototype, 0, 0, 0, 0, 0, 0, 0, 0, 0, 0, 0, 0],
    )?;
    Ok(())
}

/// Adds the records of all functions.
fn push_functions(alloc: Global, parts: &mut Parts, functions: &Functions) -> Result<(), NoMemory>
    ensures ok { OnOk result (parts_contents parts.new ≡ append (parts_contents parts.old) (listed (map function_entry functions.now) no_more)) }
    ensures range { OnOk result (All (λ f. IsWord f.ty) functions.now) }
{
    let all = functions.as_slice();
    for function in all {
        push_function(alloc, parts, function)?;
    }
    Ok(())
}

/// The first parts: version, type table, triple and data layout.
fn header_parts(alloc: Global, module: &Module) -> Result<Parts, NoMemory>
    ensures value { IfOk result (λ parts. parts_contents parts ≡ header_contents «module».now no_more) }
    ensures types { OnOk result (All TypeInRange «module».now.types) }
    ensures triple { OnOk result (IsText «module».now.triple) }
    ensures layout { OnOk result (IsText «module».now.layout) }
{
    let mut parts = no_parts(alloc);
    push_numbers(alloc, &mut parts, VERSION, &[RELATIVE_OPERANDS])?;
    let types = types_parts(alloc, &module.types)?;
    push_block(&mut parts, TYPES_BLOCK, types)?;
    push_text(alloc, &mut parts, TRIPLE, &[], &module.triple)?;
    push_text(alloc, &mut parts, DATALAYOUT, &[], &module.layout)?;
    Ok(parts)
}

/// Adds the blocks of constants, metadata and names.
fn push_tables(alloc: Global, parts: &mut Parts, module: &Module) -> Result<(), NoMemory>
    ensures ok { OnOk result (parts_contents parts.new ≡ append (parts_contents parts.old) (tables_contents «module».now no_more)) }
    ensures consts { OnOk result (All ConstInRange «module».now.consts) }
    ensures metas { OnOk result (All MetaInRange «module».now.metas) }
    ensures named { OnOk result (All NamedInRange «module».now.named) }
    ensures names { OnOk result (All (λ f. IsText f.name) «module».now.functions) }
{
    let constants = constants_parts(alloc, &module.consts)?;
    push_block(parts, CONSTANTS_BLOCK, constants)?;
    let metadata = metadata_parts(alloc, &module.metas, &module.named)?;
    push_block(parts, METADATA_BLOCK, metadata)?;
    let symbols = symbols_parts(alloc, &module.functions)?;
    push_block(parts, SYMBOLS_BLOCK, symbols)?;
    Ok(())
}

/// Adds the block of a function's body, where it has one.
#[tactic(auto, using(crate::proofs::Steps::append_none))]
fn push_body(
    alloc: Global,
    parts: &mut Parts,
    module: &Module,
    function: &Function,
) -> Result<(), NoMemory>
    ensures ok { OnOk result (parts_contents parts.new ≡ append (parts_contents parts.old) (bodies_contents «module».now (bodies (function.now ∷ [])))) }
    ensures range { OnOk result (IfSome function.now.body BodyInRange) }
{
    match &function.body {
        None => Ok(()),
        Some(body) => {
            let inner = body_parts(alloc, module, function, body)?;
            push_block(parts, FUNCTION_BLOCK, inner)?;
            Ok(())
        }
    }
}

/// Adds the blocks of all bodies.
fn push_bodies(alloc: Global, parts: &mut Parts, module: &Module) -> Result<(), NoMemory>
    ensures ok { OnOk result (parts_contents parts.new ≡ append (parts_contents parts.old) (bodies_contents «module».now (bodies «module».now.functions))) }
    ensures range { OnOk result (All (λ f. IfSome f.body BodyInRange) «module».now.functions) }
{
    let all = module.functions.as_slice();
    for function in all {
        push_body(alloc, parts, module, function)?;
    }
    Ok(())
}

/// The parts of the block MODULE.
fn module_parts(alloc: Global, module: &Module) -> Result<Parts, NoMemory>
    ensures value { IfOk result (λ parts. parts_contents parts ≡ module_contents «module».now) }
    ensures range { OnOk result (IsInRange «module».now) }
{
    let mut parts = header_parts(alloc, module)?;
    push_functions(alloc, &mut parts, &module.functions)?;
    push_tables(alloc, &mut parts, module)?;
    push_bodies(alloc, &mut parts, module)?;
    Ok(parts)
}

/// The block list of a module: one block MODULE, in the order that LLVM's readers need.
///
/// The module is whole and has only what records are written for so far: no variables, and as instructions
/// calls and returns.
///
/// # Errors
/// `NoMemory` where memory is refused.
pub fn to_blocks(alloc: Global, module: &Module) -> Result<BlockList, NoMemory>
    requires whole { IsWhole «module».now }
    requires listed { IsListed «module».now }
    ensures recorded { IfOk result (λ blocks. Recorded (contents_of blocks) «module».now) }
    ensures no_block_zero { IfOk result (λ blocks. HasNoBlockZero (contents_of blocks)) }
    ensures nesting { IfOk result (λ blocks. levels (contents_of blocks) ≤ most_levels) }
    ensures few { IfOk result (λ blocks. block_count (contents_of blocks) < 2 ^ 32) }
{
    let parts = module_parts(alloc, module)?;
    let mut blocks = no_blocks(alloc);
    push_outermost(&mut blocks, MODULE_BLOCK, parts)?;
    Ok(blocks)
}
