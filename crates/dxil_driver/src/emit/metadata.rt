//! Metadata: the version, the shader model, the entry and the buffer.

ghost use Rattle.std.specs.Prelude.{◌≡◌, ◌+◌, ◌<◌, ◌++◌, IfOk, OnOk};
ghost use Rattle.dxil_driver.specs.Emitted.{version_metas, function_metas, plain_metas, property_metas, buffer_metas, resource_metas, entry_meta, emitted_metas, named_node, version_names, emitted_named};

use base_core::{NoMemory, Sequence, Text};
use ir_core::{Meta, Metas, Named, NamedList};
use std::alloc::Global;

/// Type numbers of values.
const I32: u32 = 1;

const I64: u32 = 2;

const ENTRY_POINTER: u32 = 4;

const I1: u32 = 6;

const I32_POINTER: u32 = 13;

/// The numbers of the first module constant without and with a buffer.
const FIRST_CONSTANT: u32 = 1;

const FIRST_CONSTANT_WITH_BUFFER: u32 = 3;

/// Value numbers of the constants that describe a buffer: its kind, an i1 0 and an undefined pointer.
const RAW_BUFFER: u32 = 11;

const NO: u32 = 12;

const POINTER: u32 = 13;

/// The number of the node of the resources.
const RESOURCES: u32 = 21;

/// A node.
fn node(alloc: Global, parts: &[Option<u32>]) -> Result<Meta, NoMemory>
    ensures { IfOk result (λ meta. meta ≡ Meta.Node parts.now) }
{
    Ok(Meta::Node(Sequence::from_slice(alloc, parts)?))
}

/// A text.
fn chars(alloc: Global, text: &[u8]) -> Result<Meta, NoMemory>
    ensures { IfOk result (λ meta. meta ≡ Meta.Chars text.now) }
{
    Ok(Meta::Chars(Sequence::from_slice(alloc, text)?))
}

/// A value of a type.
fn value(ty: u32, number: u32) -> Meta
    ensures { result ≡ Meta.Value ty number }
{
    Meta::Value { ty, value: number }
}

/// Adds the version and the shader model.
fn push_version(alloc: Global, metas: &mut Metas, first: u32) -> Result<(), NoMemory>
    requires { first < 1000 }
    ensures { OnOk result (metas.new ≡ metas.old ++ version_metas first) }
{
    metas.push(value(I32, first))?;
    metas.push(value(I32, first + 1))?;
    metas.push(node(alloc, &[Some(0), Some(1)])?)?;
    metas.push(chars(alloc, b"cs")?)?;
    metas.push(value(I32, first + 2))?;
    metas.push(node(alloc, &[Some(3), Some(4), Some(1)])?)?;
    Ok(())
}

/// Adds the entry's function and name.
fn push_function(alloc: Global, metas: &mut Metas, entry: &[u8]) -> Result<(), NoMemory>
    ensures { OnOk result (metas.new ≡ metas.old ++ function_metas entry.now) }
{
    metas.push(value(ENTRY_POINTER, 0))?;
    metas.push(chars(alloc, entry)?)?;
    Ok(())
}

/// Adds the entry's properties.
fn push_properties(alloc: Global, metas: &mut Metas, first: u32) -> Result<(), NoMemory>
    requires { first < 1000 }
    ensures { OnOk result (metas.new ≡ metas.old ++ property_metas first) }
{
    metas.push(value(I64, first + 7))?;
    metas.push(value(I32, first + 3))?;
    metas.push(value(I32, first + 4))?;
    metas.push(value(I32, first + 5))?;
    metas.push(value(I32, first + 6))?;
    metas.push(node(alloc, &[Some(10), Some(11), Some(12)])?)?;
    metas.push(node(alloc, &[Some(1), Some(8), Some(9), Some(13)])?)?;
    Ok(())
}

/// The parts of the node of a raw buffer at register 0: the id, the undefined variable, the name, the
/// space, the register, the count, the kind, three flags and the tags.
const BUFFER_PARTS: [Option<u32>; 11] = [
    Some(1),
    Some(15),
    Some(16),
    Some(1),
    Some(1),
    Some(0),
    Some(17),
    Some(18),
    Some(18),
    Some(18),
    None,
];

/// Adds the buffer.
fn push_buffer(alloc: Global, metas: &mut Metas, name: &[u8]) -> Result<(), NoMemory>
    ensures { OnOk result (metas.new ≡ metas.old ++ buffer_metas name.now) }
{
    metas.push(value(I32_POINTER, POINTER))?;
    metas.push(chars(alloc, name)?)?;
    metas.push(value(I32, RAW_BUFFER))?;
    metas.push(value(I1, NO))?;
    metas.push(node(alloc, &BUFFER_PARTS)?)?;
    Ok(())
}

/// Adds the resources: the buffer is the only one that is written.
fn push_resources(alloc: Global, metas: &mut Metas) -> Result<(), NoMemory>
    ensures { OnOk result (metas.new ≡ metas.old ++ resource_metas) }
{
    metas.push(node(alloc, &[Some(19)])?)?;
    metas.push(node(alloc, &[None, Some(20), None, None])?)?;
    Ok(())
}

/// The node of the entry.
fn entry_node(alloc: Global, resources: Option<u32>) -> Result<Meta, NoMemory>
    ensures { IfOk result (λ meta. meta ≡ entry_meta resources) }
{
    node(alloc, &[Some(6), Some(7), None, resources, Some(14)])
}

/// Adds what every kernel's metadata begins with.
fn push_plain(alloc: Global, metas: &mut Metas, entry: &[u8], first: u32) -> Result<(), NoMemory>
    requires { first < 1000 }
    ensures { OnOk result (metas.new ≡ metas.old ++ plain_metas entry.now first) }
{
    push_version(alloc, metas, first)?;
    push_function(alloc, metas, entry)?;
    push_properties(alloc, metas, first)?;
    Ok(())
}

/// The metadata of a kernel.
///
/// # Errors
/// `NoMemory` where memory is refused.
pub fn emit_metas(alloc: Global, entry: &[u8], buffer: &Option<Text>) -> Result<Metas, NoMemory>
    ensures { IfOk result (λ metas. metas ≡ emitted_metas entry.now buffer.now) }
{
    let mut metas = Sequence::new(alloc);
    match buffer {
        None => {
            push_plain(alloc, &mut metas, entry, FIRST_CONSTANT)?;
            metas.push(entry_node(alloc, None)?)?;
            Ok(metas)
        }
        Some(name) => {
            push_plain(alloc, &mut metas, entry, FIRST_CONSTANT_WITH_BUFFER)?;
            push_buffer(alloc, &mut metas, name.as_slice())?;
            push_resources(alloc, &mut metas)?;
            metas.push(entry_node(alloc, Some(RESOURCES))?)?;
            Ok(metas)
        }
    }
}

/// Named metadata with one node.
fn named(alloc: Global, name: &[u8], number: u32) -> Result<Named, NoMemory>
    ensures { IfOk result (λ named. named ≡ named_node name.now number) }
{
    Ok(Named {
        name: Sequence::from_slice(alloc, name)?,
        ids: Sequence::from_slice(alloc, &[number])?,
    })
}

/// Adds the names of the version and the shader model.
fn push_version_names(alloc: Global, names: &mut NamedList) -> Result<(), NoMemory>
    ensures { OnOk result (names.new ≡ names.old ++ version_names) }
{
    names.push(named(alloc, b"dx.version", 2)?)?;
    names.push(named(alloc, b"dx.shaderModel", 5)?)?;
    Ok(())
}

/// The named metadata of a kernel.
///
/// # Errors
/// `NoMemory` where memory is refused.
pub fn emit_named(alloc: Global, buffer: &Option<Text>) -> Result<NamedList, NoMemory>
    ensures { IfOk result (λ names. names ≡ emitted_named buffer.now) }
{
    let mut names = Sequence::new(alloc);
    push_version_names(alloc, &mut names)?;
    match buffer {
        None => {
            names.push(named(alloc, b"dx.entryPoints", 15)?)?;
            Ok(names)
        }
        Some(_) => {
            names.push(named(alloc, b"dx.resources", RESOURCES)?)?;
            names.push(named(alloc, b"dx.entryPoints", 22)?)?;
            Ok(names)
        }
    }
}
