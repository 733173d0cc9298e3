//! Kinds that are known by hand.

use base_core::{NoMemory, Sequence};
use hl_layout::{kinds_in, struct_kinds};
use hl_meaning::{HlType, Kind, Member, StructDef};
use sqlite_items::Boxed;
use std::alloc::Global;
use std::test::Fail;

/// `struct { bool a; int2 b; }`
fn part(alloc: Global) -> Result<StructDef, NoMemory> {
    let mut members = Sequence::new(alloc);
    for (ty, offset) in [
        (HlType::Scalar(Kind::Bool), 0),
        (HlType::Vector(Kind::Int, 2), 1),
    ] {
        members.push(Member {
            name: Sequence::new(alloc),
            ty,
            offset,
        })?;
    }
    Ok(StructDef {
        name: Sequence::new(alloc),
        members,
        words: 3,
    })
}

#[test]
fn an_array_has_the_kinds_of_its_struct_again_and_again(rt: HostRuntime) -> Result<(), Fail> {
    let structs = [part(rt.alloc())?];
    let known = struct_kinds(rt.alloc(), &structs)?;
    let element = Boxed::new(rt.alloc(), HlType::Struct(0))?;
    let kinds = kinds_in(rt.alloc(), known.as_slice(), &HlType::Array(element, 2))?;
    let kinds = kinds.as_slice();
    assert_eq!(rt; kinds.len(), 6);
    assert_eq!(rt; kinds[0], Kind::Bool);
    assert_eq!(rt; kinds[2], Kind::Int);
    assert_eq!(rt; kinds[3], Kind::Bool);
    Ok(())
}
