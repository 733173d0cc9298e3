//! Constants of the module and of its body.

ghost use Rattle.std.specs.Prelude.{◌≡◌, ◌++◌, IfOk, OnOk, map, pos};
ghost use Rattle.dxil_driver.specs.Emitted.{integer, undefined, word_constant, number_constants, thread_constants, plain_constants, buffer_constants, emitted_constants, opcode_constants, body_constants};

use base_core::{NoMemory, Sequence, Text};
use ir_core::{Const, ConstValue, Consts};
use std::alloc::Global;

/// Type numbers of constants.
const I32: u32 = 1;

const I64: u32 = 2;

const I8: u32 = 5;

const I1: u32 = 6;

const I32_POINTER: u32 = 13;

/// The feature flags of a kernel with a raw or structured buffer.
const BUFFER_FLAGS: u16 = 16;

/// The opcodes of the calls that make a handle and that store to a buffer.
const CREATE_HANDLE: u16 = 57;

const BUFFER_STORE: u16 = 69;

/// The kind of a byte-address buffer.
const RAW_BUFFER: u16 = 11;

/// An integer that isn't negative.
fn small_integer(ty: u32, value: u16) -> Const
    ensures { result ≡ integer ty (pos value) }
{
    Const {
        ty,
        value: ConstValue::Int(i64::from(value)),
    }
}

/// A constant without a value.
fn undefined_of(ty: u32) -> Const
    ensures { result ≡ undefined ty }
{
    Const {
        ty,
        value: ConstValue::Undef,
    }
}

/// An i32 whose bits are a word's.
fn constant_of_word(word: u32) -> Const
    ensures { result ≡ word_constant word }
{
    let unsigned = i64::from(word);
    let value = if word < 0x8000_0000 {
        unsigned
    } else {
        unsigned - 0x1_0000_0000
    };
    Const {
        ty: I32,
        value: ConstValue::Int(value),
    }
}

/// Adds the numbers of the version, of the shader model and of the properties.
fn push_numbers(consts: &mut Consts) -> Result<(), NoMemory>
    ensures { OnOk result (consts.new ≡ consts.old ++ number_constants) }
{
    consts.push(small_integer(I32, 1))?;
    consts.push(small_integer(I32, 0))?;
    consts.push(small_integer(I32, 6))?;
    consts.push(small_integer(I32, 4))?;
    Ok(())
}

/// Adds the threads of a group.
fn push_threads(consts: &mut Consts, threads: &[u32; 3]) -> Result<(), NoMemory>
    ensures { OnOk result (consts.new ≡ consts.old ++ thread_constants threads.now) }
{
    let x = constant_of_word(threads[0]);
    let y = constant_of_word(threads[1]);
    let z = constant_of_word(threads[2]);
    consts.push(x)?;
    consts.push(y)?;
    consts.push(z)?;
    Ok(())
}

/// Adds the constants of every kernel.
fn push_plain_constants(consts: &mut Consts, threads: &[u32; 3], flags: u16) -> Result<(), NoMemory>
    ensures { OnOk result (consts.new ≡ consts.old ++ plain_constants threads.now flags) }
{
    push_numbers(consts)?;
    push_threads(consts, threads)?;
    consts.push(small_integer(I64, flags))?;
    Ok(())
}

/// Adds the constants of a kernel with a buffer.
fn push_buffer_constants(consts: &mut Consts) -> Result<(), NoMemory>
    ensures { OnOk result (consts.new ≡ consts.old ++ buffer_constants) }
{
    consts.push(small_integer(I32, RAW_BUFFER))?;
    consts.push(small_integer(I1, 0))?;
    consts.push(undefined_of(I32_POINTER))?;
    Ok(())
}

/// The constants of the module of a kernel.
///
/// # Errors
/// `NoMemory` where memory is refused.
pub fn emit_constants(
    alloc: Global,
    buffer: &Option<Text>,
    threads: &[u32; 3],
) -> Result<Consts, NoMemory>
    ensures { IfOk result (λ consts. consts ≡ emitted_constants buffer.now threads.now) }
{
    let mut consts = Sequence::new(alloc);
    match buffer {
        None => {
            push_plain_constants(&mut consts, threads, 0)?;
            Ok(consts)
        }
        Some(_) => {
            push_plain_constants(&mut consts, threads, BUFFER_FLAGS)?;
            push_buffer_constants(&mut consts)?;
            Ok(consts)
        }
    }
}

/// Adds the constants that every body with a buffer begins with.
fn push_opcode_constants(consts: &mut Consts) -> Result<(), NoMemory>
    ensures { OnOk result (consts.new ≡ consts.old ++ opcode_constants) }
{
    consts.push(small_integer(I8, 1))?;
    consts.push(small_integer(I32, CREATE_HANDLE))?;
    consts.push(small_integer(I32, BUFFER_STORE))?;
    consts.push(undefined_of(I32))?;
    Ok(())
}

/// Adds an i32 for each word.
fn push_words(consts: &mut Consts, words: &[u32]) -> Result<(), NoMemory>
    ensures { OnOk result (consts.new ≡ consts.old ++ map word_constant words.now) }
{
    for word in words {
        consts.push(constant_of_word(*word))?;
    }
    Ok(())
}

/// The constants of a body with a buffer, whose stores use these words.
///
/// # Errors
/// `NoMemory` where memory is refused.
pub fn emit_body_constants(alloc: Global, words: &[u32]) -> Result<Consts, NoMemory>
    ensures { IfOk result (λ consts. consts ≡ body_constants words.now) }
{
    let mut consts = Sequence::new(alloc);
    push_opcode_constants(&mut consts)?;
    push_words(&mut consts, words)?;
    Ok(consts)
}
