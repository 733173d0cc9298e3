//! Functions, and the body of the entry.

ghost use Rattle.std.specs.Prelude.{◌≡◌, ◌++◌, ◌<◌, ◌^◌, IfOk, OnOk, map, length};
ghost use Rattle.dxil_driver.specs.Emitted.{create_handle, buffer_store, emitted_instructions, one_block, emitted_body, declared_functions, emitted_functions};
ghost use Rattle.dxil_driver.specs.Places.{AreShort};

use super::constants;
use base_core::{NoMemory, Sequence, Text};
use ir_core::{Block, Blocks, Body, Function, Functions, Inst, Insts};
use std::alloc::Global;

/// Function numbers, which are value numbers too.
const CREATE_HANDLE: u32 = 1;

const BUFFER_STORE: u32 = 2;

/// Value numbers of constants.
const ZERO: u32 = 4;

const NO: u32 = 12;

const MASK: u32 = 14;

const CREATE_HANDLE_CODE: u32 = 15;

const BUFFER_STORE_CODE: u32 = 16;

const UNDEFINED: u32 = 17;

/// The value number of the first word.
const FIRST_WORD: u32 = 18;

/// The call that makes the handle of the buffer: class 1, which has the number of the mask, id 0 and
/// register 0.
fn create_handle_call(alloc: Global) -> Result<Inst, NoMemory>
    ensures { IfOk result (λ inst. inst ≡ create_handle) }
{
    let args = [CREATE_HANDLE_CODE, MASK, ZERO, ZERO, NO];
    Ok(Inst::Call {
        function: CREATE_HANDLE,
        args: Sequence::from_slice(alloc, &args)?,
    })
}

/// The call that stores one word, by the places of its address and of itself among the words.
fn store_call(alloc: Global, handle: u32, pair: (u32, u32)) -> Result<Inst, NoMemory>
    requires { (pair.0 < 2 ^ 31) × (pair.1 < 2 ^ 31) }
    ensures { IfOk result (λ inst. inst ≡ buffer_store handle pair) }
{
    let address = FIRST_WORD + pair.0;
    let word = FIRST_WORD + pair.1;
    let args = [
        BUFFER_STORE_CODE,
        handle,
        address,
        UNDEFINED,
        word,
        UNDEFINED,
        UNDEFINED,
        UNDEFINED,
        MASK,
    ];
    Ok(Inst::Call {
        function: BUFFER_STORE,
        args: Sequence::from_slice(alloc, &args)?,
    })
}

/// Adds a store for each pair.
fn push_stores(
    alloc: Global,
    insts: &mut Insts,
    handle: u32,
    pairs: &[(u32, u32)],
) -> Result<(), NoMemory>
    requires { AreShort pairs.now }
    ensures { OnOk result (insts.new ≡ insts.old ++ map (buffer_store handle) pairs.now) }
{
    for pair in pairs {
        insts.push(store_call(alloc, handle, *pair)?)?;
    }
    Ok(())
}

/// The instructions of a body with a buffer.
fn emit_instructions(alloc: Global, words: &[u32], pairs: &[(u32, u32)]) -> Result<Insts, NoMemory>
    requires words { length words.now < 2 ^ 31 }
    requires pairs { AreShort pairs.now }
    ensures { IfOk result (λ insts. insts ≡ emitted_instructions words.now pairs.now) }
{
    let handle = FIRST_WORD + words.len() as u32;
    let mut insts = Sequence::new(alloc);
    insts.push(create_handle_call(alloc)?)?;
    push_stores(alloc, &mut insts, handle, pairs)?;
    insts.push(Inst::Ret)?;
    Ok(insts)
}

/// A body's only block.
fn only_block(alloc: Global, insts: Insts) -> Result<Blocks, NoMemory>
    ensures { IfOk result (λ blocks. blocks ≡ one_block insts) }
{
    let mut blocks = Sequence::new(alloc);
    blocks.push(Block { insts })?;
    Ok(blocks)
}

/// The body of the entry.
///
/// # Errors
/// `NoMemory` where memory is refused.
pub fn emit_body(
    alloc: Global,
    buffer: &Option<Text>,
    words: &[u32],
    pairs: &[(u32, u32)],
) -> Result<Body, NoMemory>
    requires words { length words.now < 2 ^ 31 }
    requires pairs { AreShort pairs.now }
    ensures { IfOk result (λ body. body ≡ emitted_body buffer.now words.now pairs.now) }
{
    match buffer {
        None => {
            let mut insts = Sequence::new(alloc);
            insts.push(Inst::Ret)?;
            Ok(Body {
                consts: Sequence::new(alloc),
                blocks: only_block(alloc, insts)?,
            })
        }
        Some(_) => {
            let consts = constants::emit_body_constants(alloc, words)?;
            let insts = emit_instructions(alloc, words, pairs)?;
            let blocks = only_block(alloc, insts)?;
            Ok(Body { consts, blocks })
        }
    }
}

/// A function without a body.
fn declaration(alloc: Global, name: &[u8], ty: u32) -> Result<Function, NoMemory>
    ensures { IfOk result (λ function. function ≡ record { name = name.now; ty = ty; body = None }) }
{
    Ok(Function {
        name: Sequence::from_slice(alloc, name)?,
        ty,
        body: None,
    })
}

/// Adds the functions that a kernel with a buffer calls.
fn push_declared(alloc: Global, functions: &mut Functions) -> Result<(), NoMemory>
    ensures { OnOk result (functions.new ≡ functions.old ++ declared_functions) }
{
    functions.push(declaration(alloc, b"dx.op.createHandle", 9)?)?;
    functions.push(declaration(alloc, b"dx.op.bufferStore.i32", 11)?)?;
    Ok(())
}

/// The functions of a kernel, whose entry alone has a body.
///
/// # Errors
/// `NoMemory` where memory is refused.
pub fn emit_functions(
    alloc: Global,
    entry: &[u8],
    buffer: &Option<Text>,
    body: Body,
) -> Result<Functions, NoMemory>
    ensures { IfOk result (λ functions. functions ≡ emitted_functions entry.now buffer.now body) }
{
    let mut functions = Sequence::new(alloc);
    functions.push(Function {
        name: Sequence::from_slice(alloc, entry)?,
        ty: 3,
        body: Some(body),
    })?;
    match buffer {
        None => Ok(functions),
        Some(_) => {
            push_declared(alloc, &mut functions)?;
            Ok(functions)
        }
    }
}
