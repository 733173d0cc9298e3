//! The structs of a program, and where their members stand.

ghost use Rattle.std.specs.Prelude.{◌≡◌, ◌+◌, ◌++◌, ◌∷◌, [], Some, map, slice_get, unwrap_or, IfOk, OnOk};
ghost use Rattle.hl_meaning.specs.Types.{void_type};
ghost use Rattle.hl_meaning.specs.Views.{plain_member as program_member, plain_struct as program_struct, plain_ty};
ghost use Rattle.hl_rules.specs.Scopes as scopes;
ghost use Rattle.hl_rules.specs.Statements as statements;
ghost use Rattle.hl_values.specs.StructTables.{plain_member, plain_structs};
ghost use Rattle.hl_values.specs.Views.{plain_type_if};

use crate::sizes::few_words;
use base_core::{NoMemory, Sequence, Text};
use hl_meaning::{HlType, Member, Members, StructDef, StructDefs};
use hl_values::{MemberTable, Structs};
use std::alloc::Global;

/// A copy of a type, and `Void` for none.
pub(crate) fn type_or_void(ty: &Option<HlType>, alloc: Global) -> Result<HlType, NoMemory>
    ensures { IfOk result (λ held. plain_ty held ≡ unwrap_or (plain_type_if ty.now) void_type) }
{
    match ty {
        Some(ty) => ty.copied(alloc),
        None => Ok(HlType::Void),
    }
}

/// The words of a type, and 0 where it isn't known.
///
/// # Errors
/// `NoMemory` for 4294967296 words or more.
fn words_of(structs: &Structs, ty: &Option<HlType>) -> Result<u32, NoMemory>
    ensures { IfOk result (λ words. words ≡ unwrap_or (scopes.type_words (plain_structs structs.now) (unwrap_or (plain_type_if ty.now) void_type)) 0) }
{
    let words = few_words(structs.words_if(ty))?;
    Ok(words)
}

/// The words of several members together.
///
/// # Errors
/// `NoMemory` for 4294967296 words or more.
fn behind(offset: u32, words: u32) -> Result<u32, NoMemory>
    ensures { IfOk result (λ next. next ≡ offset + words) }
{
    match offset.checked_add(words) {
        Some(next) => Ok(next),
        None => Err(NoMemory),
    }
}

/// Adds the member at a place behind others with so many words, and answers how many these are then.
///
/// # Errors
/// `NoMemory` where memory is refused, or there are 4294967296 words or more.
fn add_member(
    structs: &Structs,
    table: &MemberTable,
    at: usize,
    offset: u32,
    made: &mut Members,
    alloc: Global,
) -> Result<u32, NoMemory>
    ensures made { OnOk result ((m : scopes.MemberInfo) → slice_get (map plain_member table.now) at ≡ Some m → map program_member made.new ≡ map program_member made.old ++ record { name = m.name; ty = unwrap_or m.ty void_type; offset = offset } ∷ []) }
    ensures next { IfOk result (λ next. (m : scopes.MemberInfo) → slice_get (map plain_member table.now) at ≡ Some m → next ≡ offset + unwrap_or (scopes.type_words (plain_structs structs.now) (unwrap_or m.ty void_type)) 0) }
{
    let Some(name) = table.name_at(at) else {
        return Ok(offset);
    };
    let Some(ty) = table.value_at(at) else {
        return Ok(offset);
    };
    let words = words_of(structs, ty)?;
    let name = Text::from_slice(alloc, name)?;
    let ty = type_or_void(ty, alloc)?;
    made.push(Member { name, ty, offset })?;
    let next = behind(offset, words)?;
    Ok(next)
}

/// The members of a struct, each behind the words of those before it.
///
/// # Errors
/// `NoMemory` where memory is refused, or there are 4294967296 words or more.
fn members_of(structs: &Structs, table: &MemberTable, alloc: Global) -> Result<Members, NoMemory>
    ensures { IfOk result (λ made. map program_member made ≡ statements.members_from (plain_structs structs.now) 0 (map plain_member table.now)) }
{
    let mut made = Sequence::new(alloc);
    let mut offset = 0;
    for at in 0..table.len() {
        offset = add_member(structs, table, at, offset, &mut made, alloc)?;
    }
    Ok(made)
}

/// Adds the struct of a number behind others.
///
/// # Errors
/// `NoMemory` where memory is refused, or there are 4294967296 words or more.
fn add_struct(
    structs: &Structs,
    number: usize,
    made: &mut StructDefs,
    alloc: Global,
) -> Result<(), NoMemory>
    ensures { OnOk result ((d : scopes.StructInfo) → slice_get (plain_structs structs.now) number ≡ Some d → map program_struct made.new ≡ map program_struct made.old ++ statements.struct_def (plain_structs structs.now) d ∷ []) }
{
    let Some(name) = structs.name(number) else {
        return Ok(());
    };
    let Some(table) = structs.members(number) else {
        return Ok(());
    };
    let words = few_words(structs.words(number))?;
    let name = Text::from_slice(alloc, name)?;
    let members = members_of(structs, table, alloc)?;
    made.push(StructDef {
        name,
        members,
        words,
    })?;
    Ok(())
}

/// The structs of a program.
///
/// # Errors
/// `NoMemory` where memory is refused, or a struct has 4294967296 words or more: such a one breaks a rule.
pub(crate) fn struct_defs(structs: &Structs, alloc: Global) -> Result<StructDefs, NoMemory>
    ensures { IfOk result (λ made. map program_struct made ≡ statements.struct_defs (plain_structs structs.now)) }
{
    let mut made = Sequence::new(alloc);
    for number in 0..structs.len() {
        add_struct(structs, number, &mut made, alloc)?;
    }
    Ok(made)
}
