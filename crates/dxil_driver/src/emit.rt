//! The module of a kernel of literal stores, table by table.

mod body;
mod constants;
mod metadata;
mod types;
mod words;

ghost use Rattle.std.specs.Prelude.{◌≡◌, [], IfOk, false};
ghost use Rattle.lane_core.specs.SameLane.{SameLane};
ghost use Rattle.ir_core.specs.Metadata.{HasMetadata};
ghost use Rattle.ir_core.specs.ModuleLane.{module_lane};
ghost use Rattle.ir_core.specs.Soundness.{IsWhole};
ghost use Rattle.bc_records.specs.FirstList.{IsListed};
ghost use Rattle.ir_core.specs.Waves.{uses_waves};
ghost use Rattle.dxil_driver.specs.Emitted.{IsEmitted};
ghost use Rattle.dxil_driver.specs.KernelMetadata.{kernel_resources, kernel_threads};
ghost use Rattle.dxil_driver.specs.LiteralLane.{literal_stores};

use crate::stores::{FirstForm, LiteralStore};
use base_core::{NoMemory, Sequence, Text};
use ir_core::Module;
use std::alloc::Global;

/// The target triple of DXIL.
const TRIPLE: [u8; 10] = *b"dxil-ms-dx";

/// The data layout of DXIL.
const LAYOUT: [u8; 79] =
    *b"e-m:e-p:32:32-i1:32-i8:32-i16:32-i32:32-i64:64-f16:32-f32:32-f64:64-n8:16:32:64";

/// The module of a kernel with this entry, this buffer, these threads and these stores.
fn emit_module(
    alloc: Global,
    entry: &[u8],
    buffer: &Option<Text>,
    threads: &[u32; 3],
    stores: &[LiteralStore],
) -> Result<Module, NoMemory>
    ensures emitted { IfOk result (λ m. IsEmitted entry.now buffer.now threads.now stores.now m) }
    ensures metadata { IfOk result (λ m. HasMetadata m (kernel_resources buffer.now) (kernel_threads threads.now) entry.now) }
{
    let (words, pairs) = words::pool_stores(alloc, stores)?;
    let body = body::emit_body(alloc, buffer, words.as_slice(), pairs.as_slice())?;
    Ok(Module {
        triple: Sequence::from_slice(alloc, &TRIPLE)?,
        layout: Sequence::from_slice(alloc, &LAYOUT)?,
        types: types::emit_types(alloc, buffer)?,
        globals: Sequence::new(alloc),
        functions: body::emit_functions(alloc, entry, buffer, body)?,
        consts: constants::emit_constants(alloc, buffer, threads)?,
        metas: metadata::emit_metas(alloc, entry, buffer)?,
        named: metadata::emit_named(alloc, buffer)?,
    })
}

/// The module of a kernel of literal stores.
///
/// It is whole, and its records are among those that are written. It has the metadata of the kernel and
/// no wave operation. Each of its lanes asks the stores in order and ends, where stores are there only
/// with a buffer.
///
/// # Errors
/// `NoMemory` where memory is refused.
pub fn emit(alloc: Global, form: &FirstForm) -> Result<Module, NoMemory>
    ensures emitted { IfOk result (λ m. IsEmitted form.now.entry form.now.buffer form.now.threads form.now.stores m) }
    ensures whole { IfOk result IsWhole }
    ensures listed { IfOk result IsListed }
    ensures metadata { IfOk result (λ m. HasMetadata m (kernel_resources form.now.buffer) (kernel_threads form.now.threads) form.now.entry) }
    ensures waves { IfOk result (λ m. uses_waves m ≡ false) }
    ensures lane { IfOk result (λ m. (form.now.buffer ≡ None → form.now.stores ≡ []) → SameLane (literal_stores form.now.stores) (module_lane m)) }
{
    emit_module(
        alloc,
        form.entry.as_slice(),
        &form.buffer,
        &form.threads,
        form.stores.as_slice(),
    )
}
