//! Steps into places and values: members, indexes and swizzles.

ghost use Rattle.std.specs.Prelude.{◌≡◌, IfOk, List, Some, map, slice_index_or, [], ◌∷◌, ◌++◌};
ghost use Rattle.hl_meaning.specs.Trees.{more_parts, no_parts, swizzle_part};
ghost use Rattle.hl_meaning.specs.Views.{plain_expr, plain_part, plain_parts, plain_ty};
ghost use Rattle.hl_rules.specs.Nodes.{a_value_code, and_part, joined, with_part};
ghost use Rattle.hl_rules.specs.Values.{is_longer, merged_letters};
ghost use Rattle.hl_values.specs.Steps.{joined_as, picked_as};
ghost use Rattle.hl_values.specs.Views.{plain_code};

use crate::nodes::{location, node, value_node};
use crate::typed::Code;
use base_core::{Bytes, NoMemory};
use hl_meaning::{Expr, Form, HlType, Location, PathPart, PathParts};
use sqlite_items::{Boxed, Items};
use std::alloc::Global;

/// Whether a swizzle has several letters.
pub fn is_longer(letters: &Bytes) -> bool
    ensures { result ≡ is_longer letters.now }
{
    1 < letters.len()
}

/// The letter at a place, or 0 past the end.
pub fn letter_at(letters: &Bytes, at: usize) -> u8
    ensures { result ≡ slice_index_or letters.now at 0 }
{
    match letters.get(at) {
        Some(letter) => *letter,
        None => 0,
    }
}

/// The letter at a place, as a swizzle.
pub fn one_letter(letters: &Bytes, at: usize, alloc: Global) -> Result<Bytes, NoMemory>
    ensures { IfOk result (λ letter. letter ≡ slice_index_or letters.now at 0 ∷ []) }
{
    let mut letter = Bytes::new(alloc);
    letter.push(letter_at(letters, at))?;
    Ok(letter)
}

/// The letters that a swizzle picks behind another one: among those of a longer one.
///
/// # Errors
/// `NoMemory` where memory is refused.
pub fn merged_letters(before: &Bytes, letters: &Bytes, alloc: Global) -> Result<Bytes, NoMemory>
    ensures { IfOk result (λ merged. merged ≡ merged_letters before.now letters.now) }
{
    if !is_longer(before) {
        return Bytes::from_slice(alloc, letters.as_slice());
    }
    picked_letters(before, letters, alloc)
}

/// The letters among others.
fn picked_letters(before: &Bytes, letters: &Bytes, alloc: Global) -> Result<Bytes, NoMemory>
    ensures { IfOk result (λ picked. picked ≡ map (λ letter. slice_index_or before.now letter 0) letters.now) }
{
    let mut picked = Bytes::new(alloc);
    for letter in letters.as_slice() {
        picked.push(letter_at(before, usize::from(*letter)))?;
    }
    Ok(picked)
}

/// The letters of the one swizzle that two steps behind one another are, where they are one.
fn merged(before: &PathPart, part: &PathPart, alloc: Global) -> Result<Option<Bytes>, NoMemory>
    ensures { IfOk result (λ letters. joined (plain_part before.now) (plain_part part.now) ≡ joined_as (plain_part before.now) (plain_part part.now) letters) }
{
    match before {
        PathPart::Swizzle(letters) => merged_behind(letters, part, alloc),
        _ => Ok(None),
    }
}

/// The letters of the one swizzle that a swizzle and a step behind it are, where they are one.
fn merged_behind(letters: &Bytes, part: &PathPart, alloc: Global) -> Result<Option<Bytes>, NoMemory>
    ensures { IfOk result (λ merged. joined (swizzle_part letters.now) (plain_part part.now) ≡ joined_as (swizzle_part letters.now) (plain_part part.now) merged) }
{
    if !is_longer(letters) {
        return Ok(None);
    }
    match part {
        PathPart::Swizzle(behind) => Ok(Some(merged_letters(letters, behind, alloc)?)),
        PathPart::Index(index) => picked_letter(letters, index.get(), alloc),
        PathPart::Member(_) => Ok(None),
    }
}

/// The letter that an index picks among several, where it is a literal.
fn picked_letter(letters: &Bytes, index: &Expr, alloc: Global) -> Result<Option<Bytes>, NoMemory>
    ensures { IfOk result (λ letter. letter ≡ picked_as letters.now (plain_expr index.now)) }
{
    match &index.form {
        Form::Literal(number) => Ok(Some(one_letter(letters, *number as usize, alloc)?)),
        _ => Ok(None),
    }
}

/// Steps with one more behind them.
fn and_part(parts: PathParts, part: PathPart, alloc: Global) -> Result<PathParts, NoMemory>
    ensures { IfOk result (λ all. plain_parts all ≡ and_part (plain_parts parts) (plain_part part)) }
{
    let mut all = parts;
    match all.pop() {
        Some(before) => joined(all, before, part, alloc),
        None => {
            all.push(part)?;
            Ok(all)
        }
    }
}

/// Steps with two more behind them, which may be one.
fn joined(
    front: PathParts,
    before: PathPart,
    part: PathPart,
    alloc: Global,
) -> Result<PathParts, NoMemory>
    ensures { IfOk result (λ all. plain_parts all ≡ and_part (plain_parts (front ++ before ∷ [])) (plain_part part)) }
{
    let mut all = front;
    match merged(&before, &part, alloc)? {
        Some(letters) => {
            all.push(PathPart::Swizzle(letters))?;
            Ok(all)
        }
        None => {
            all.push(before)?;
            all.push(part)?;
            Ok(all)
        }
    }
}

/// A step into a place, or into a value, which is picked out of it.
///
/// # Errors
/// `NoMemory` where memory is refused.
pub fn with_part(
    at: usize,
    part: PathPart,
    ty: HlType,
    code: Code,
    alloc: Global,
) -> Result<Code, NoMemory>
    ensures { IfOk result (λ stepped. plain_code stepped ≡ with_part at (plain_part part) (plain_ty ty) (plain_code code)) }
{
    match code {
        Code::Place { place, .. } => {
            let Location { root, parts, .. } = place.into_inner();
            let parts = and_part(parts, part, alloc)?;
            let place = Boxed::new(alloc, location(ty, root, parts))?;
            Ok(Code::Place { at, place })
        }
        Code::Value(value) => with_pick(at, part, ty, value.into_inner(), alloc),
    }
}

/// A step into a value, which is picked out of it.
fn with_pick(
    at: usize,
    part: PathPart,
    ty: HlType,
    value: Expr,
    alloc: Global,
) -> Result<Code, NoMemory>
    ensures { IfOk result (λ picked. plain_code picked ≡ with_part at (plain_part part) (plain_ty ty) (a_value_code (plain_expr value))) }
{
    let Expr {
        ty: own,
        at: first,
        form,
    } = value;
    match form {
        Form::Pick { value, parts } => {
            let parts = and_part(parts, part, alloc)?;
            value_node(ty, at, Form::Pick { value, parts }, alloc)
        }
        form => {
            let value = Boxed::new(alloc, node(own, first, form))?;
            let parts = one_part(part, alloc)?;
            value_node(ty, at, Form::Pick { value, parts }, alloc)
        }
    }
}

/// A step alone.
fn one_part(part: PathPart, alloc: Global) -> Result<PathParts, NoMemory>
    ensures { IfOk result (λ parts. plain_parts parts ≡ more_parts (plain_part part) no_parts) }
{
    let mut parts = Items::new(alloc);
    parts.push(part)?;
    Ok(parts)
}
