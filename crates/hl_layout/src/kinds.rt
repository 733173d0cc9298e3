//! Of which kinds the words of types are.

ghost use Rattle.std.specs.Prelude.{◌≡◌, [], IfOk, map, replicate, slice_get, unwrap_or};
ghost use Rattle.hl_meaning.specs.Layout.{kinds_in, member_kinds, repeated, struct_kinds_after};
ghost use Rattle.hl_meaning.specs.Views.{plain_member, plain_structs, plain_ty};

use base_core::{NoMemory, Sequence};
use hl_meaning::{HlType, Kind, Member, StructDef};
use std::alloc::Global;

/// The kinds of words, in order.
pub type Kinds = Sequence<Kind>;

/// The kinds of the words of each struct, behind those of the structs before it.
///
/// # Errors
/// `NoMemory` where memory is refused, as in each function below.
pub fn struct_kinds(alloc: Global, structs: &[StructDef]) -> Result<Sequence<Kinds>, NoMemory>
    ensures { IfOk result (λ all. all ≡ struct_kinds_after [] (plain_structs structs.now)) }
{
    let mut all = Sequence::new(alloc);
    for structure in structs {
        let kinds = member_kinds(alloc, all.as_slice(), structure.members.as_slice())?;
        all.push(kinds)?;
    }
    Ok(all)
}

/// The kinds of the words of members, given those of each struct.
fn member_kinds(alloc: Global, structs: &[Kinds], members: &[Member]) -> Result<Kinds, NoMemory>
    ensures { IfOk result (λ kinds. kinds ≡ member_kinds structs.now (map plain_member members.now)) }
{
    let mut kinds = Sequence::new(alloc);
    for member in members {
        let more = kinds_in(alloc, structs, &member.ty)?;
        kinds.extend_from_slice(more.as_slice())?;
    }
    Ok(kinds)
}

/// The kinds of the words of a type, given those of each struct.
pub fn kinds_in(alloc: Global, structs: &[Kinds], ty: &HlType) -> Result<Kinds, NoMemory>
    ensures { IfOk result (λ kinds. kinds ≡ kinds_in structs.now (plain_ty ty.now)) }
{
    match ty {
        HlType::Void => Ok(Sequence::new(alloc)),
        HlType::Scalar(kind) => same(alloc, *kind, 1),
        HlType::Vector(kind, size) => same(alloc, *kind, *size),
        HlType::Array(element, length) => {
            let kinds = kinds_in(alloc, structs, element.get())?;
            repeated(alloc, kinds.as_slice(), *length)
        }
        HlType::Struct(number) => struct_at(alloc, structs, *number as usize),
    }
}

/// A kind so many times.
fn same(alloc: Global, kind: Kind, count: u8) -> Result<Kinds, NoMemory>
    ensures { IfOk result (λ kinds. kinds ≡ replicate count kind) }
{
    let mut kinds = Sequence::new(alloc);
    for _turn in 0..count {
        kinds.push(kind)?;
    }
    Ok(kinds)
}

/// Kinds one behind the other so many times.
fn repeated(alloc: Global, kinds: &[Kind], count: u32) -> Result<Kinds, NoMemory>
    ensures { IfOk result (λ all. all ≡ repeated count kinds.now) }
{
    let mut all = Sequence::new(alloc);
    for _turn in 0..count {
        all.extend_from_slice(kinds)?;
    }
    Ok(all)
}

/// The kinds of the struct of a number, and none where it isn't there.
fn struct_at(alloc: Global, structs: &[Kinds], number: usize) -> Result<Kinds, NoMemory>
    ensures { IfOk result (λ kinds. kinds ≡ unwrap_or (slice_get structs.now number) []) }
{
    if number < structs.len() {
        Sequence::from_slice(alloc, structs[number].as_slice())
    } else {
        Ok(Sequence::new(alloc))
    }
}
