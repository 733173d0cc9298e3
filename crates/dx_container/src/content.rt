//! Reads a container (LLVM, "DirectX Container").

ghost use Rattle.std.specs.Prelude.{◌≡◌, ◌+◌, ◌*◌, ◌^◌, ◌<◌, ◌≤◌, ℕ, length, IfOk, IfErr, OnOk, MatchOption, MatchResult};
ghost use Rattle.std.specs.Bool.{OnTrue, OnFalse};
ghost use Rattle.dx_container.specs.Container.{Contained, FaultIs, FirstProgramFault, NoFaultBelow, ProgramFault, StandsAt, bitcode_at, body_size, major_version, minor_version, part_count, part_place};

use crate::field::{half, is_name, word};

/// What a container holds.
#[derive(Clone, Copy, Debug)]
pub struct Unpacked<'a> {
    /// The bitcode.
    pub bitcode: &'a [u8],
    /// The major version of the shader model, which is 6.
    pub major: u8,
    /// The minor version of the shader model: at most 15.
    pub minor: u8,
}

/// The first fault of bytes that are no container.
#[derive(Clone, Copy, Debug, PartialEq, Eq)]
pub struct ContainerFault {
    /// The kind of the fault, from 1 to 8.
    pub kind: u8,
    /// The place of the field that has it, in bytes.
    pub offset: u64,
}

/// The letters `DXBC`.
const CONTAINER: [u8; 4] = [68, 88, 66, 67];

/// The letters `DXIL`.
const PROGRAM: [u8; 4] = [68, 88, 73, 76];

/// How many bytes the header has in front of the places of the parts.
const HEADER_SIZE: usize = 32;

/// How many bytes a part has in front of its body.
const PART_HEADER_SIZE: usize = 8;

/// How many bytes the body of the part `DXIL` has in front of the bitcode.
const PROGRAM_HEADER_SIZE: usize = 24;

/// The kind of a compute shader.
const COMPUTE: usize = 5;

/// The major version of the shader model.
const MAJOR_VERSION: u8 = 6;

/// How far the bitcode stands from the second name of the part `DXIL` on.
const BITCODE_PLACE: usize = 16;

/// The bitcode that a container holds, and its versions. It takes no memory.
///
/// # Errors
/// The first fault, where the bytes are no container.
pub fn unpack<'a>(bytes: &'a [u8]) -> Result<Unpacked<'a>, ContainerFault>
    ensures { MatchResult result
        (λ content. Contained bytes.now content.bitcode.now content.major content.minor)
        (λ fault. FaultIs bytes.now fault.kind fault.offset) }
{
    check_header(bytes)?;
    check_parts(bytes)?;
    let part = find_program(bytes)?;
    match program_fault(bytes, part) {
        Some(offset) => Err(fault(8, offset)),
        None => Ok(content(bytes, part)),
    }
}

/// What the part `DXIL` that stands at a place holds.
fn content<'a>(bytes: &'a [u8], part: usize) -> Unpacked<'a>
    requires room { part + 8 + body_size bytes.now part ≤ length bytes.now }
    requires faultless { (offset : ℕ) → ¬ ProgramFault bytes.now part offset }
    ensures bitcode { result.bitcode.now ≡ bitcode_at bytes.now part }
    ensures major { result.major ≡ major_version bytes.now part }
    ensures minor { result.minor ≡ minor_version bytes.now part }
{
    let size = word(bytes, part + 28);
    let minor = (word(bytes, part + 8) % 16) as u8;
    Unpacked {
        bitcode: &bytes[part + 32..][..size],
        major: MAJOR_VERSION,
        minor,
    }
}

/// A fault of a kind at a place.
fn fault(kind: u8, offset: usize) -> ContainerFault
    ensures kind { result.kind ≡ kind }
    ensures offset { result.offset ≡ offset }
{
    ContainerFault {
        kind,
        offset: offset as u64,
    }
}

/// Looks at the header.
///
/// # Errors
/// The first fault, where it is one of the header's.
fn check_header(bytes: &[u8]) -> Result<(), ContainerFault>
    ensures ok { OnOk result (NoFaultBelow bytes.now 6) }
    ensures err { IfErr result (λ fault. FaultIs bytes.now fault.kind fault.offset) }
{
    if bytes.len() < HEADER_SIZE {
        return Err(fault(1, bytes.len()));
    }
    if !is_name(bytes, 0, &CONTAINER) {
        return Err(fault(2, 0));
    }
    if half(bytes, 20) != 1 || half(bytes, 22) != 0 {
        return Err(fault(3, 20));
    }
    if word(bytes, 24) != bytes.len() {
        return Err(fault(4, 24));
    }
    if bytes.len() < HEADER_SIZE + 4 * word(bytes, 28) {
        return Err(fault(5, 28));
    }
    Ok(())
}

/// Looks at where each part ends.
///
/// # Errors
/// The first fault, where it is that a part passes the end.
fn check_parts(bytes: &[u8]) -> Result<(), ContainerFault>
    requires { NoFaultBelow bytes.now 6 }
    ensures ok { OnOk result (NoFaultBelow bytes.now 7) }
    ensures err { IfErr result (λ fault. FaultIs bytes.now fault.kind fault.offset) }
{
    for k in 0..word(bytes, 28) {
        let entry = HEADER_SIZE + 4 * k;
        if passes_end(bytes, word(bytes, entry)) {
            return Err(fault(6, entry));
        }
    }
    Ok(())
}

/// Whether the part at a place passes the end.
fn passes_end(bytes: &[u8], part: usize) -> bool
    requires { part < 2 ^ 32 }
    ensures yes { OnTrue result (length bytes.now < part + 8 + body_size bytes.now part) }
    ensures no { OnFalse result (part + 8 + body_size bytes.now part ≤ length bytes.now) }
{
    bytes.len() < part + PART_HEADER_SIZE
        || bytes.len() < part + PART_HEADER_SIZE + word(bytes, part + 4)
}

/// The place of the one part with the name `DXIL`.
///
/// # Errors
/// The first fault, where no part has that name, or several have.
fn find_program(bytes: &[u8]) -> Result<usize, ContainerFault>
    requires { NoFaultBelow bytes.now 7 }
    ensures ok { IfOk result (λ part. StandsAt bytes.now part) }
    ensures err { IfErr result (λ fault. FaultIs bytes.now fault.kind fault.offset) }
{
    let mut found = None;
    for k in 0..word(bytes, 28) {
        let part = word(bytes, HEADER_SIZE + 4 * k);
        if is_name(bytes, part, &PROGRAM) {
            if found.is_some() {
                return Err(fault(7, 28));
            }
            found = Some(part);
        }
    }
    match found {
        Some(part) => Ok(part),
        None => Err(fault(7, 28)),
    }
}

/// The place of the first field with a fault in the part `DXIL` that stands at a place.
fn program_fault(bytes: &[u8], part: usize) -> Option<usize>
    requires { part + 8 + body_size bytes.now part ≤ length bytes.now }
    ensures { MatchOption result
        ((offset : ℕ) → ¬ ProgramFault bytes.now part offset)
        (λ offset. FirstProgramFault bytes.now part offset) }
{
    let size = word(bytes, part + 4);
    if size < PROGRAM_HEADER_SIZE {
        return Some(part);
    }
    let version = word(bytes, part + 8);
    if version / 65536 != COMPUTE || version / 16 % 4096 != MAJOR_VERSION as usize {
        return Some(part + 8);
    }
    if size < 4 * word(bytes, part + 12) {
        return Some(part + 12);
    }
    if !is_name(bytes, part + 16, &PROGRAM) {
        return Some(part + 16);
    }
    if word(bytes, part + 24) != BITCODE_PLACE {
        return Some(part + 24);
    }
    if size < PROGRAM_HEADER_SIZE + word(bytes, part + 28) {
        return Some(part + 28);
    }
    None
}
