//! Where places stand, and what parts of values steps pick.

ghost use Rattle.std.specs.Prelude.{◌≡◌, ◌++◌, ◌≤◌, ℕ, List, IfOk, OnOk, drop, map, option_and_then, option_map, slice_get, slice_index, take, unwrap_or};
ghost use Rattle.hl_meaning.specs.Layout.{kinds_of, words_of};
ghost use Rattle.hl_meaning.specs.Places.{element_type, root_type, variable_type};
ghost use Rattle.hl_meaning.specs.Trees.{PathParts, more_parts};
ghost use Rattle.hl_meaning.specs.Types.{struct_type, void_type};
ghost use Rattle.hl_meaning.specs.Views.{plain_constant, plain_expr, plain_location, plain_member, plain_part, plain_parts, plain_resource, plain_root, plain_structs, plain_ty, plain_variable};
ghost use Rattle.hl_source.specs.Offsets.{element_of, further, holder_of, indexes_of_steps, literal_indexes, literal_word, member_of, picked_words, place_of, reached, slot_of, start_of, step_to_element, step_to_letters, step_to_member};
ghost use Rattle.hl_source.specs.Operations.{component_kind};
ghost use Rattle.hl_interpreter.specs.HeldPlaces.{index_count, literal_of, plain_holder, plain_place, plain_reached, plain_type};
ghost use Rattle.hl_interpreter.specs.Runs.{context_of, run_context};

use crate::components::{pick_words, word_at};
use crate::operations::component_kind;
use crate::run::{Context, Run};
use base_core::{NoMemory, Sequence, Words};
use hl_layout::{Kinds, kinds_in, words_of};
use hl_meaning::{
    Constant, Expr, Form, HlType, Kind, Location, Member, PathPart, Program, Resource, Root,
    StructDef, Variable,
};
use lane_core::Slot;
use std::alloc::Global;

/// The type of what steps lead to: one that is held, a component of a kind, or none.
#[derive(Clone, Copy)]
pub(crate) enum ReachedType<'a> {
    Held(&'a HlType),
    Component(Kind),
    Nothing,
}

/// Where steps lead: the type of what stands there, the word that it begins at, and, behind a swizzle of more than one
/// letter, its letters. The type and the word are then those of the vector.
#[derive(Clone, Copy)]
pub(crate) struct Reached<'a> {
    pub ty: ReachedType<'a>,
    pub offset: u32,
    pub letters: &'a [u8],
}

/// What a place stands in.
#[derive(Clone, Copy)]
pub(crate) enum Holder {
    Variable(u32),
    Constant(u32),
    Shared(u32),
    Element { slot: Slot, index: u32 },
}

/// A place: what it stands in, and where in it its steps lead.
#[derive(Clone, Copy)]
pub(crate) struct Place<'a> {
    pub holder: Holder,
    pub reached: Reached<'a>,
}

/// The start of something of a type.
fn start_of<'a>(ty: ReachedType<'a>) -> Reached<'a>
    ensures { plain_reached result ≡ start_of (plain_type ty.entry) }
{
    Reached {
        ty,
        offset: 0,
        letters: &[],
    }
}

/// Something of a type, which begins so many words behind what was reached.
fn further<'a>(from: Reached<'a>, ty: ReachedType<'a>, words: u32) -> Reached<'a>
    ensures { plain_reached result ≡ further (plain_reached from.entry) (plain_type ty.entry) words }
{
    Reached {
        ty,
        offset: from.offset.wrapping_add(words),
        letters: &[],
    }
}

/// The words of what was reached.
///
/// # Errors
/// `NoMemory` where they are too many to be held.
pub(crate) fn reached_words(program: &Program, ty: ReachedType) -> Result<u32, NoMemory>
    ensures { IfOk result (λ words. words ≡ words_of (plain_structs program.now.structs) (plain_type ty.entry)) }
{
    match ty {
        ReachedType::Held(ty) => words_of(program, ty),
        ReachedType::Component(_) => Ok(1),
        ReachedType::Nothing => Ok(0),
    }
}

/// The kinds of the words of a type.
///
/// # Errors
/// `NoMemory` where memory is refused.
pub(crate) fn kinds_of(run: &Run, ty: &HlType) -> Result<Kinds, NoMemory>
    ensures { IfOk result (λ kinds. kinds ≡ kinds_of (plain_structs run.now.program.now.structs) (plain_ty ty.now)) }
{
    kinds_in(run.alloc, run.kinds, ty)
}

/// The kinds of the words of what was reached.
///
/// # Errors
/// `NoMemory` where memory is refused.
pub(crate) fn reached_kinds(run: &Run, ty: ReachedType) -> Result<Kinds, NoMemory>
    ensures { IfOk result (λ kinds. kinds ≡ kinds_of (plain_structs run.now.program.now.structs) (plain_type ty.entry)) }
{
    match ty {
        ReachedType::Held(ty) => kinds_of(run, ty),
        ReachedType::Component(kind) => {
            let mut kinds = Sequence::new(run.alloc);
            kinds.push(kind)?;
            Ok(kinds)
        }
        ReachedType::Nothing => Ok(Sequence::new(run.alloc)),
    }
}

/// The kind of the components of what was reached.
fn reached_kind(ty: ReachedType) -> Kind
    ensures { result ≡ component_kind (plain_type ty.entry) }
{
    match ty {
        ReachedType::Held(ty) => component_kind(ty),
        ReachedType::Component(kind) => kind,
        ReachedType::Nothing => Kind::Uint,
    }
}

/// The member of a number of a struct.
fn member_of<'a>(program: &'a Program, ty: ReachedType, number: u32) -> Option<&'a Member>
    ensures { option_map (λ m. plain_member m.now) result ≡ member_of (plain_structs program.now.structs) (plain_type ty.entry) number }
{
    match ty {
        ReachedType::Held(ty) => held_member(program, ty, number),
        ReachedType::Component(_) => None,
        ReachedType::Nothing => None,
    }
}

/// The member of a number of a type that is a struct, and none of any other type.
fn held_member<'a>(program: &'a Program, ty: &HlType, number: u32) -> Option<&'a Member>
    ensures { option_map (λ m. plain_member m.now) result ≡ member_of (plain_structs program.now.structs) (plain_ty ty.now) number }
{
    match ty {
        HlType::Struct(structure) => {
            struct_member(
                program.structs.as_slice(),
                *structure as usize,
                number as usize,
            )
        }
        _ => None,
    }
}

/// The member of a number of the struct of a number.
fn struct_member<'a>(
    structs: &'a [StructDef],
    structure: usize,
    number: usize,
) -> Option<&'a Member>
    ensures { option_map (λ m. plain_member m.now) result ≡ member_of (plain_structs structs.now) (struct_type structure) number }
{
    match structs.get(structure) {
        Some(structure) => structure.members.get(number),
        None => None,
    }
}

/// A member stands at its offset in its struct.
fn step_to_member<'a>(program: &'a Program, from: Reached<'a>, number: u32) -> Reached<'a>
    ensures { plain_reached result ≡ step_to_member (plain_reached from.entry) (member_of (plain_structs program.now.structs) (plain_type from.entry.ty) number) }
{
    match member_of(program, from.ty, number) {
        Some(member) => further(from, ReachedType::Held(&member.ty), member.offset),
        None => from,
    }
}

/// The type of the elements of an array, or of the components of a vector.
fn element_of<'a>(ty: ReachedType<'a>) -> ReachedType<'a>
    ensures { plain_type result ≡ element_of (plain_type ty.entry) }
{
    match ty {
        ReachedType::Held(ty) => held_element(ty),
        ReachedType::Component(kind) => ReachedType::Component(kind),
        ReachedType::Nothing => ReachedType::Component(Kind::Uint),
    }
}

/// The type of the elements of an array, and else of the components.
fn held_element<'a>(ty: &'a HlType) -> ReachedType<'a>
    ensures { plain_type result ≡ element_of (plain_ty ty.now) }
{
    match ty {
        HlType::Array(element, _) => ReachedType::Held(element.get()),
        _ => ReachedType::Component(component_kind(ty)),
    }
}

/// An element stands at its index times the words of an element.
fn step_to_element<'a>(
    program: &'a Program,
    from: Reached<'a>,
    index: u32,
) -> Result<Reached<'a>, NoMemory>
    ensures { IfOk result (λ there. plain_reached there ≡ step_to_element (plain_structs program.now.structs) (plain_reached from.entry) index) }
{
    let element = element_of(from.ty);
    let words = reached_words(program, element)?;
    Ok(further(from, element, index.wrapping_mul(words)))
}

/// A swizzle of one letter leads to the component of the letter; a longer one stays at its vector.
fn step_to_letters<'a>(from: Reached<'a>, letters: &'a [u8]) -> Reached<'a>
    ensures { plain_reached result ≡ step_to_letters (plain_reached from.entry) letters.now }
{
    if letters.len() == 1 {
        let kind = reached_kind(from.ty);
        further(from, ReachedType::Component(kind), u32::from(letters[0]))
    } else {
        Reached {
            ty: from.ty,
            offset: from.offset,
            letters,
        }
    }
}

/// Where one step leads that isn't an index, or is one of this word.
fn follow_step<'a>(
    program: &'a Program,
    from: Reached<'a>,
    part: &'a PathPart,
    index: u32,
) -> Result<Reached<'a>, NoMemory>
    ensures { IfOk result (λ there. (rest : PathParts) (indexes : List ℕ) → slice_index indexes 0 ≡ index →
        reached (plain_structs program.now.structs) (plain_reached from.entry) (more_parts (plain_part part.now) rest) indexes
        ≡ reached (plain_structs program.now.structs) (plain_reached there) rest (drop (index_count (plain_part part.now)) indexes)) }
{
    match part {
        PathPart::Member(number) => Ok(step_to_member(program, from, *number)),
        PathPart::Index(_) => step_to_element(program, from, index),
        PathPart::Swizzle(letters) => Ok(step_to_letters(from, letters.as_slice())),
    }
}

/// How many indexes a step takes.
fn index_count(part: &PathPart) -> usize
    ensures value { result ≡ index_count (plain_part part.now) }
    ensures limit { result ≤ 1 }
{
    match part {
        PathPart::Index(_) => 1,
        PathPart::Member(_) => 0,
        PathPart::Swizzle(_) => 0,
    }
}

/// Where steps lead to, with the words of the indexes in them.
fn follow_steps<'a>(
    program: &'a Program,
    start: ReachedType<'a>,
    parts: &'a [PathPart],
    indexes: &[u32],
) -> Result<Reached<'a>, NoMemory>
    ensures { IfOk result (λ there. plain_reached there ≡ reached (plain_structs program.now.structs) (start_of (plain_type start.entry)) (plain_parts parts.now) indexes.now) }
{
    let mut from = start_of(start);
    let mut next = 0;
    for part in parts {
        from = follow_step(program, from, part, word_at(indexes, next))?;
        next += index_count(part);
    }
    Ok(from)
}

/// The type of a root.
fn root_type<'a>(context: &Context<'a>, root: &Root) -> ReachedType<'a>
    ensures { plain_type result ≡ unwrap_or (root_type (context_of context.now).scope (plain_root root.now)) void_type }
{
    let program = context.run.program;
    match root {
        Root::Variable(number) => {
            variable_type(context.function.variables.as_slice(), *number as usize)
        }
        Root::Constant(number) => constant_type(program.constants.as_slice(), *number as usize),
        Root::Shared(number) => variable_type(program.shared.as_slice(), *number as usize),
        Root::Element { resource, .. } => {
            element_type(program.resources.as_slice(), *resource as usize)
        }
    }
}

/// The type of the variable of a number.
fn variable_type<'a>(variables: &'a [Variable], number: usize) -> ReachedType<'a>
    ensures { plain_type result ≡ unwrap_or (variable_type (map plain_variable variables.now) number) void_type }
{
    match variables.get(number) {
        Some(variable) => ReachedType::Held(&variable.ty),
        None => ReachedType::Nothing,
    }
}

/// The type of the constant of a number.
fn constant_type<'a>(constants: &'a [Constant], number: usize) -> ReachedType<'a>
    ensures { plain_type result ≡ unwrap_or (option_map (λ k. k.variable.ty) (slice_get (map plain_constant constants.now) number)) void_type }
{
    match constants.get(number) {
        Some(constant) => ReachedType::Held(&constant.variable.ty),
        None => ReachedType::Nothing,
    }
}

/// The type of the elements of the structured buffer of a number.
fn element_type<'a>(resources: &'a [Resource], number: usize) -> ReachedType<'a>
    ensures { plain_type result ≡ unwrap_or (option_and_then element_type (slice_get (map plain_resource resources.now) number)) void_type }
{
    match resources.get(number) {
        Some(resource) => {
            if resource.raw {
                ReachedType::Nothing
            } else {
                ReachedType::Held(&resource.element)
            }
        }
        None => ReachedType::Nothing,
    }
}

/// The slot of a buffer. One that isn't there, which no well-formed program names, has the class 0, the space 0 and the
/// register 0.
pub(crate) fn slot_of(run: &Run, resource: u32) -> Slot
    ensures { result ≡ slot_of (run_context run.now) resource }
{
    match run.slots.get(resource as usize) {
        Some(slot) => *slot,
        None => Slot {
            class: 0,
            space: 0,
            register: 0,
        },
    }
}

/// What a root is, with the words of the indexes of its place.
fn holder_of(run: &Run, root: &Root, indexes: &[u32]) -> Holder
    ensures { plain_holder result ≡ holder_of (run_context run.now) (plain_root root.now) indexes.now }
{
    match root {
        Root::Variable(number) => Holder::Variable(*number),
        Root::Constant(number) => Holder::Constant(*number),
        Root::Shared(number) => Holder::Shared(*number),
        Root::Element { resource, .. } => Holder::Element {
            slot: slot_of(run, *resource),
            index: word_at(indexes, 0),
        },
    }
}

/// The indexes of the steps: all but that of an element.
fn indexes_of_steps<'a>(root: &Root, indexes: &'a [u32]) -> &'a [u32]
    ensures { result.now ≡ indexes_of_steps (plain_root root.now) indexes.now }
{
    match root {
        Root::Element { .. } => {
            if indexes.is_empty() {
                indexes
            } else {
                &indexes[1..]
            }
        }
        Root::Variable(_) => indexes,
        Root::Constant(_) => indexes,
        Root::Shared(_) => indexes,
    }
}

/// The place of a location, with the words of its indexes.
///
/// # Errors
/// `NoMemory` where a part has too many words to be held.
pub(crate) fn place_of<'a>(
    context: &Context<'a>,
    location: &'a Location,
    indexes: &[u32],
) -> Result<Place<'a>, NoMemory>
    ensures { IfOk result (λ place. plain_place place ≡ place_of (context_of context.now) (plain_location location.now) indexes.now) }
{
    let steps = indexes_of_steps(&location.root, indexes);
    let start = root_type(context, &location.root);
    let at = follow_steps(context.run.program, start, location.parts.as_slice(), steps)?;
    Ok(Place {
        holder: holder_of(context.run, &location.root, indexes),
        reached: at,
    })
}

/// The word of a literal, and 0 for any other expression.
fn literal_word(expr: &Expr) -> u32
    ensures { result ≡ literal_word (plain_expr expr.now) }
{
    match &expr.form {
        Form::Literal(word) => *word,
        _ => 0,
    }
}

/// The words of indexes that are literals.
fn literal_indexes(alloc: Global, parts: &[PathPart]) -> Result<Words, NoMemory>
    ensures { IfOk result (λ indexes. indexes ≡ literal_indexes (plain_parts parts.now)) }
{
    let mut indexes = Words::new(alloc);
    for part in parts {
        add_literal(part, &mut indexes)?;
    }
    Ok(indexes)
}

/// Adds the word of a step that is an index.
fn add_literal(part: &PathPart, indexes: &mut Words) -> Result<(), NoMemory>
    ensures { OnOk result (indexes.new ≡ indexes.old ++ literal_of (plain_part part.now)) }
{
    match part {
        PathPart::Index(index) => indexes.push(literal_word(index.get())),
        PathPart::Member(_) => Ok(()),
        PathPart::Swizzle(_) => Ok(()),
    }
}

/// The words of what was reached among the words of a value.
fn words_at<'a>(words: &'a [u32], offset: u32, count: u32) -> &'a [u32]
    ensures { result.now ≡ take count (drop offset words.now) }
{
    let first = (offset as usize).min(words.len());
    let rest = &words[first..];
    &rest[..(count as usize).min(rest.len())]
}

/// What steps pick of the words of a value. Their indexes are literals.
///
/// # Errors
/// `NoMemory` where memory is refused.
pub(crate) fn picked_words(
    run: &Run,
    ty: &HlType,
    parts: &[PathPart],
    words: &[u32],
) -> Result<Words, NoMemory>
    ensures { IfOk result (λ found. found ≡ picked_words (plain_structs run.now.program.now.structs) (plain_ty ty.now) (plain_parts parts.now) words.now) }
{
    let indexes = literal_indexes(run.alloc, parts)?;
    let start = ReachedType::Held(ty);
    let at = follow_steps(run.program, start, parts, indexes.as_slice())?;
    let count = reached_words(run.program, at.ty)?;
    pick_words(run.alloc, at.letters, words_at(words, at.offset, count))
}
