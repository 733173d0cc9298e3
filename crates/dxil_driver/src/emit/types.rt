//! The type table.

ghost use Rattle.std.specs.Prelude.{◌≡◌, ◌++◌, IfOk, OnOk};
ghost use Rattle.dxil_driver.specs.Emitted.{plain_types, handle_struct, buffer_types, emitted_types};

use base_core::{NoMemory, Sequence, Text};
use ir_core::{Ty, Types};
use std::alloc::Global;

/// The parameters of `dx.op.createHandle`: the opcode, and the class, the id, the register and the
/// uniformity of the resource.
const CREATE_HANDLE: [u32; 5] = [1, 5, 1, 1, 6];

/// The parameters of `dx.op.bufferStore.i32`: the opcode, the handle, the index, the offset, four
/// words and their mask.
const BUFFER_STORE: [u32; 9] = [1, 8, 1, 1, 1, 1, 1, 1, 5];

/// A function type.
fn function_type(alloc: Global, returned: u32, params: &[u32]) -> Result<Ty, NoMemory>
    ensures { IfOk result (λ ty. ty ≡ Ty.Function returned params.now) }
{
    Ok(Ty::Function {
        result: returned,
        params: Sequence::from_slice(alloc, params)?,
    })
}

/// The struct that holds a handle.
fn handle_type(alloc: Global) -> Result<Ty, NoMemory>
    ensures { IfOk result (λ ty. ty ≡ handle_struct) }
{
    Ok(Ty::Struct {
        name: Some(Sequence::from_slice(alloc, b"dx.types.Handle")?),
        of: Sequence::from_slice(alloc, &[7])?,
    })
}

/// Adds the types of every kernel.
fn push_plain_types(alloc: Global, types: &mut Types) -> Result<(), NoMemory>
    ensures { OnOk result (types.new ≡ types.old ++ plain_types) }
{
    types.push(Ty::Void)?;
    types.push(Ty::Int(32))?;
    types.push(Ty::Int(64))?;
    types.push(function_type(alloc, 0, &[])?)?;
    types.push(Ty::Pointer { to: 3, space: 0 })?;
    Ok(())
}

/// Adds the types of a kernel with a buffer.
fn push_buffer_types(alloc: Global, types: &mut Types) -> Result<(), NoMemory>
    ensures { OnOk result (types.new ≡ types.old ++ buffer_types) }
{
    types.push(Ty::Int(8))?;
    types.push(Ty::Int(1))?;
    types.push(Ty::Pointer { to: 5, space: 0 })?;
    types.push(handle_type(alloc)?)?;
    types.push(function_type(alloc, 8, &CREATE_HANDLE)?)?;
    types.push(Ty::Pointer { to: 9, space: 0 })?;
    types.push(function_type(alloc, 0, &BUFFER_STORE)?)?;
    types.push(Ty::Pointer { to: 11, space: 0 })?;
    types.push(Ty::Pointer { to: 1, space: 0 })?;
    Ok(())
}

/// The type table of a kernel with or without a buffer.
///
/// # Errors
/// `NoMemory` where memory is refused.
pub fn emit_types(alloc: Global, buffer: &Option<Text>) -> Result<Types, NoMemory>
    ensures { IfOk result (λ types. types ≡ emitted_types buffer.now) }
{
    let mut types = Sequence::new(alloc);
    push_plain_types(alloc, &mut types)?;
    match buffer {
        None => Ok(types),
        Some(_) => {
            push_buffer_types(alloc, &mut types)?;
            Ok(types)
        }
    }
}
