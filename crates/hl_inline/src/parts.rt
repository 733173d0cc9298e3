//! Copies of the parts that a program without calls has in common with its program.

ghost use Rattle.std.specs.Prelude.{◌≡◌, IfOk, map};
ghost use Rattle.hl_meaning.specs.Views.{plain_member, plain_resource, plain_struct, plain_variable};

use crate::fresh::copied_variable;
use base_core::{NoMemory, Text};
use hl_meaning::{Member, Members, Resource, Resources, StructDef, StructDefs, Variables};
use std::alloc::Global;

/// A copy of structs.
///
/// # Errors
/// `NoMemory` where memory is refused, as in each call below.
pub(crate) fn copied_structs(alloc: Global, structs: &StructDefs) -> Result<StructDefs, NoMemory>
    ensures { IfOk result (λ copies. map plain_struct copies ≡ map plain_struct structs.now) }
{
    let mut copies = StructDefs::new(alloc);
    for structure in structs.as_slice() {
        let copy = copied_struct(alloc, structure)?;
        copies.push(copy)?;
    }
    Ok(copies)
}

/// A copy of a struct.
fn copied_struct(alloc: Global, structure: &StructDef) -> Result<StructDef, NoMemory>
    ensures { IfOk result (λ copy. plain_struct copy ≡ plain_struct structure.now) }
{
    let name = Text::from_slice(alloc, structure.name.as_slice())?;
    let members = copied_members(alloc, &structure.members)?;
    Ok(StructDef {
        name,
        members,
        words: structure.words,
    })
}

/// A copy of members.
fn copied_members(alloc: Global, members: &Members) -> Result<Members, NoMemory>
    ensures { IfOk result (λ copies. map plain_member copies ≡ map plain_member members.now) }
{
    let mut copies = Members::new(alloc);
    for member in members.as_slice() {
        let copy = copied_member(alloc, member)?;
        copies.push(copy)?;
    }
    Ok(copies)
}

/// A copy of a member.
fn copied_member(alloc: Global, member: &Member) -> Result<Member, NoMemory>
    ensures { IfOk result (λ copy. plain_member copy ≡ plain_member member.now) }
{
    let name = Text::from_slice(alloc, member.name.as_slice())?;
    let ty = member.ty.copied(alloc)?;
    Ok(Member {
        name,
        ty,
        offset: member.offset,
    })
}

/// A copy of buffers.
pub(crate) fn copied_resources(alloc: Global, resources: &Resources) -> Result<Resources, NoMemory>
    ensures { IfOk result (λ copies. map plain_resource copies ≡ map plain_resource resources.now) }
{
    let mut copies = Resources::new(alloc);
    for resource in resources.as_slice() {
        let copy = copied_resource(alloc, resource)?;
        copies.push(copy)?;
    }
    Ok(copies)
}

/// A copy of a buffer.
fn copied_resource(alloc: Global, resource: &Resource) -> Result<Resource, NoMemory>
    ensures { IfOk result (λ copy. plain_resource copy ≡ plain_resource resource.now) }
{
    let name = Text::from_slice(alloc, resource.name.as_slice())?;
    let element = resource.element.copied(alloc)?;
    Ok(Resource {
        name,
        class: resource.class,
        raw: resource.raw,
        element,
        words: resource.words,
        register: resource.register,
        space: resource.space,
        at: resource.at,
    })
}

/// A copy of variables.
pub(crate) fn copied_variables(alloc: Global, variables: &Variables) -> Result<Variables, NoMemory>
    ensures { IfOk result (λ copies. map plain_variable copies ≡ map plain_variable variables.now) }
{
    let mut copies = Variables::new(alloc);
    for variable in variables.as_slice() {
        let copy = copied_variable(alloc, variable)?;
        copies.push(copy)?;
    }
    Ok(copies)
}
