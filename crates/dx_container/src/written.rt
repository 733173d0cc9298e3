//! Writes a container (LLVM, "DirectX Container").

ghost use Rattle.std.specs.Prelude.{◌≡◌, ◌^◌, ◌<◌, ◌≤◌, ◌%◌, ◌++◌, length, IfOk, OnOk};
ghost use Rattle.byteorder.specs.Endian.{little_bytes};
ghost use Rattle.dx_container.specs.Container.{written_form, written_header, written_part, program_body, program_name};

use base_core::{Bytes, NoMemory};
use byteorder::{ByteOrder, LittleEndian};
use std::alloc::Global;

/// What a container says beside its bitcode.
#[derive(Clone, Copy, Debug, PartialEq, Eq)]
pub struct PackInfo {
    /// The minor version of the shader model 6, and of DXIL 1: at most 15.
    pub minor: u8,
    /// Whether the shader uses wave operations.
    pub waves: bool,
}

/// What the header begins with: `DXBC`, a digest of zeros, and the versions 1 and 0.
const HEADER: [u8; 24] = [
    68, 88, 66, 67, 0, 0, 0, 0, 0, 0, 0, 0, 0, 0, 0, 0, 0, 0, 0, 0, 1, 0, 0, 0,
];

/// The features of a shader without wave operations.
const NO_FEATURES: [u8; 8] = [0; 8];

/// The features of a shader with wave operations.
const WAVE_OPERATIONS: [u8; 8] = [0, 64, 0, 0, 0, 0, 0, 0];

/// A signature without elements.
const NO_ELEMENTS: [u8; 8] = [0, 0, 0, 0, 8, 0, 0, 0];

/// The names of the four parts: `SFI0`, `ISG1`, `OSG1` and `DXIL`.
const FEATURES: [u8; 4] = [83, 70, 73, 48];

const INPUTS: [u8; 4] = [73, 83, 71, 49];

const OUTPUTS: [u8; 4] = [79, 83, 71, 49];

const PROGRAM: [u8; 4] = [68, 88, 73, 76];

/// The kind of a compute shader and the major version 6, as the program version holds them.
const COMPUTE_MODEL_6: u32 = 5 * 65536 + 6 * 16;

/// The major version 1 of DXIL, as its version holds it.
const DXIL_1: u32 = 256;

/// How many bytes of the container stand in front of the bitcode.
const FRONT: u32 = 128;

/// How many bytes of the body of the part `DXIL` stand in front of the bitcode.
const PROGRAM_FRONT: u32 = 24;

/// A container with a bitcode of shader model 6, in four parts.
///
/// # Errors
/// `NoMemory` where memory is refused, or the container is longer than a list may be.
pub fn pack(alloc: Global, bitcode: &[u8], info: &PackInfo) -> Result<Bytes, NoMemory>
    requires words { length bitcode.now % 4 ≡ 0 }
    requires size { length bitcode.now < 2 ^ 31 }
    requires minor { info.now.minor ≤ 15 }
    ensures { IfOk result (λ bytes. bytes ≡ written_form bitcode.now info.now.minor info.now.waves) }
{
    let mut bytes = Vec::with_capacity(alloc, FRONT as usize + bitcode.len())?;
    put_header(&mut bytes, bitcode.len() as u32)?;
    let features = if info.waves {
        WAVE_OPERATIONS
    } else {
        NO_FEATURES
    };
    put_part(&mut bytes, &FEATURES, &features)?;
    put_part(&mut bytes, &INPUTS, &NO_ELEMENTS)?;
    put_part(&mut bytes, &OUTPUTS, &NO_ELEMENTS)?;
    put_program(&mut bytes, bitcode, info.minor)?;
    Bytes::from_vec(bytes)
}

/// Adds the header, for a bitcode of `size` bytes.
fn put_header(bytes: &mut Vec<u8>, size: u32) -> Result<(), NoMemory>
    requires { size < 2 ^ 31 }
    ensures { OnOk result (bytes.new.items ≡ bytes.old.items ++ written_header size) }
{
    bytes.extend_from_slice(&HEADER)?;
    put_word(bytes, FRONT + size)?;
    put_word(bytes, 4)?;
    put_word(bytes, 48)?;
    put_word(bytes, 64)?;
    put_word(bytes, 80)?;
    put_word(bytes, 96)?;
    Ok(())
}

/// Adds the part `DXIL`, for a minor version of the shader model.
fn put_program(bytes: &mut Vec<u8>, bitcode: &[u8], minor: u8) -> Result<(), NoMemory>
    requires size { length bitcode.now < 2 ^ 31 }
    requires minor { minor ≤ 15 }
    ensures { OnOk result
        (bytes.new.items ≡ bytes.old.items ++ written_part program_name (program_body bitcode.now minor)) }
{
    bytes.extend_from_slice(&PROGRAM)?;
    put_word(bytes, PROGRAM_FRONT + bitcode.len() as u32)?;
    put_program_body(bytes, bitcode, minor)?;
    Ok(())
}

/// Adds the body of the part `DXIL`, for a minor version of the shader model.
fn put_program_body(bytes: &mut Vec<u8>, bitcode: &[u8], minor: u8) -> Result<(), NoMemory>
    requires size { length bitcode.now < 2 ^ 31 }
    requires minor { minor ≤ 15 }
    ensures { OnOk result (bytes.new.items ≡ bytes.old.items ++ program_body bitcode.now minor) }
{
    let size = bitcode.len() as u32;
    put_word(bytes, COMPUTE_MODEL_6 + minor as u32)?;
    put_word(bytes, (PROGRAM_FRONT + size) / 4)?;
    bytes.extend_from_slice(&PROGRAM)?;
    put_word(bytes, DXIL_1 + minor as u32)?;
    put_word(bytes, 16)?;
    put_word(bytes, size)?;
    bytes.extend_from_slice(bitcode)?;
    Ok(())
}

/// Adds a part: its name, the size of its body, and the body.
fn put_part(bytes: &mut Vec<u8>, name: &[u8], body: &[u8]) -> Result<(), NoMemory>
    requires { length body.now < 2 ^ 32 }
    ensures { OnOk result (bytes.new.items ≡ bytes.old.items ++ written_part name.now body.now) }
{
    bytes.extend_from_slice(name)?;
    put_word(bytes, body.len() as u32)?;
    bytes.extend_from_slice(body)?;
    Ok(())
}

/// Adds a number of 32 bits.
fn put_word(bytes: &mut Vec<u8>, word: u32) -> Result<(), NoMemory>
    ensures { OnOk result (bytes.new.items ≡ bytes.old.items ++ little_bytes 4 word) }
{
    let mut field = [0u8; 4];
    LittleEndian::write_u32(&mut field, word);
    bytes.extend_from_slice(&field)?;
    Ok(())
}
