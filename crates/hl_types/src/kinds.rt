//! The kinds of the words of types.
//!
//! A member without a type has no word. What is left to list stands in a list of steps, so that nothing recurses along
//! structs that are nested in one another.

ghost use Rattle.std.specs.Prelude.{◌≡◌, ℕ, ◌+◌, ◌++◌, ◌==◌, ◌<◌, ◌≤◌, List, Option, IfOk, OnOk, drop, length, option_map, replicate, unwrap_or};
ghost use Rattle.hl_meaning.specs.declared.ty.Kind.{Kind as PlainKind};
ghost use Rattle.hl_meaning.specs.Layout as layout;
ghost use Rattle.hl_meaning.specs.Types.{struct_type, void_type};
ghost use Rattle.hl_meaning.specs.Views.{plain_ty};
ghost use Rattle.hl_rules.specs.DeclarationRules as rules;
ghost use Rattle.hl_rules.specs.Scopes.{type_words};
ghost use Rattle.hl_types.specs.Kinds as spec;
ghost use Rattle.hl_types.specs.Kinds.{has_count, kinds_front};
ghost use Rattle.hl_types.specs.Listing.{finished, listed, step_weight, steps_weight, type_weight, weights_front};
ghost use Rattle.hl_values.specs.StructTables.{Members, plain_structs};
ghost use Rattle.hl_values.specs.Views.{plain_type_if};
ghost use Rattle.hl_values.specs.WordCounts.{counted};

use base_core::{NoMemory, Sequence};
use hl_meaning::{HlType, Kind};
use hl_values::{Structs, WordCount};
use std::alloc::Global;

/// The kinds of words, in order.
pub(crate) type Kinds = Sequence<Kind>;

/// What is left to list. Of several steps the last comes first.
#[derive(Clone, Copy)]
enum Step {
    /// The kinds of the members of the struct of a number, from one on.
    Members { number: usize, at: usize },
    /// The kinds from a place on, so many times more.
    Repeat { start: usize, more: u32 },
}

/// Adds a kind so many times.
fn add(kinds: &mut Kinds, kind: Kind, count: u8) -> Result<(), NoMemory>
    ensures { OnOk result (kinds.new ≡ kinds.old ++ replicate count kind) }
{
    for _turn in 0..count {
        kinds.push(kind)?;
    }
    Ok(())
}

/// The kinds from a place on.
fn kinds_from(kinds: &[Kind], start: usize, alloc: Global) -> Result<Kinds, NoMemory>
    ensures { IfOk result (λ part. part ≡ drop start kinds.now) }
{
    if start < kinds.len() {
        Sequence::from_slice(alloc, &kinds[start..])
    } else {
        Ok(Sequence::new(alloc))
    }
}

/// Adds kinds so many times.
fn add_all(kinds: &mut Kinds, part: &[Kind], count: u32) -> Result<(), NoMemory>
    ensures { OnOk result (kinds.new ≡ kinds.old ++ layout.repeated count part.now) }
{
    for _turn in 0..count {
        kinds.extend_from_slice(part)?;
    }
    Ok(())
}

/// Adds the kinds from a place on so many times more.
fn repeat(kinds: &mut Kinds, start: usize, more: u32, alloc: Global) -> Result<(), NoMemory>
    ensures { OnOk result (kinds.new ≡ kinds.old ++ layout.repeated more (drop start kinds.old)) }
{
    let part = kinds_from(kinds.as_slice(), start, alloc)?;
    add_all(kinds, part.as_slice(), more)
}

/// Whether there are so many words.
fn is_count(words: WordCount, count: usize) -> bool
    ensures { (known : ℕ) → words ≡ counted known → result ≡ (count == known) }
{
    match words {
        WordCount::Few(words) => count as u64 == words,
        WordCount::Many => false,
    }
}

/// Whether the struct of a number is known to have no words.
fn is_empty(structs: &Structs, number: usize) -> bool
    ensures { result ≡ has_count 0 (type_words (plain_structs structs.now) (struct_type number)) }
{
    match structs.words(number) {
        Some(words) => is_count(words, 0),
        None => false,
    }
}

/// Begins a struct that stands before a number; one from there on has no kinds. One that is known to have no words is left
/// out at once, however many structs are nested in it. Where no rule is broken all structs have known words.
fn begin_struct(
    structs: &Structs,
    bound: usize,
    number: usize,
    steps: &mut Vec<Step>,
) -> Result<(), NoMemory>
    requires { bound ≤ length structs.now }
    ensures listed { OnOk result ((kinds : List PlainKind) → finished structs.now steps.new.items kinds ≡ finished structs.now steps.old.items (kinds ++ layout.kinds_in (kinds_front structs.now bound) (struct_type number))) }
    ensures weight { OnOk result (steps_weight structs.now steps.new.items ≤ steps_weight structs.now steps.old.items + type_weight (weights_front structs.now bound) (struct_type number)) }
{
    if bound <= number {
        return Ok(());
    }
    if is_empty(structs, number) {
        return Ok(());
    }
    match structs.innermost(number) {
        Some(innermost) => {
            steps.push(Step::Members {
                number: innermost,
                at: 0,
            })?;
            Ok(())
        }
        None => Ok(()),
    }
}

/// Begins an array of so many elements, at least one, whose first element begins behind so many kinds.
fn begin_array(count: u32, start: usize, steps: &mut Vec<Step>) -> Result<(), NoMemory>
    requires { 1 ≤ count }
    ensures listed { OnOk result ((structs : List Members) (kinds more : List PlainKind) → length kinds ≡ start → finished structs steps.new.items (kinds ++ more) ≡ finished structs steps.old.items (kinds ++ layout.repeated count more)) }
    ensures weight { OnOk result ((structs : List Members) → steps_weight structs steps.new.items ≤ steps_weight structs steps.old.items + 1) }
{
    if count > 1 {
        steps.push(Step::Repeat {
            start,
            more: count - 1,
        })?;
    }
    Ok(())
}

/// Lists a type that names structs before a number alone, up to its first struct.
fn begin_type(
    structs: &Structs,
    bound: usize,
    ty: &HlType,
    kinds: &mut Kinds,
    steps: &mut Vec<Step>,
) -> Result<(), NoMemory>
    requires { bound ≤ length structs.now }
    ensures listed { OnOk result (finished structs.now steps.new.items kinds.new ≡ finished structs.now steps.old.items (kinds.old ++ layout.kinds_in (kinds_front structs.now bound) (plain_ty ty.now))) }
    ensures weight { OnOk result (steps_weight structs.now steps.new.items ≤ steps_weight structs.now steps.old.items + type_weight (weights_front structs.now bound) (plain_ty ty.now)) }
{
    match ty {
        HlType::Void => Ok(()),
        HlType::Scalar(kind) => add(kinds, *kind, 1),
        HlType::Vector(kind, size) => add(kinds, *kind, *size),
        HlType::Array(element, count) => {
            if *count == 0 {
                return Ok(());
            }
            begin_array(*count, kinds.len(), steps)?;
            begin_type(structs, bound, element.get(), kinds, steps)
        }
        HlType::Struct(number) => begin_struct(structs, bound, *number as usize, steps),
    }
}

/// Lists such a type that may not be known, up to its first struct.
fn begin_type_if(
    structs: &Structs,
    bound: usize,
    ty: &Option<HlType>,
    kinds: &mut Kinds,
    steps: &mut Vec<Step>,
) -> Result<(), NoMemory>
    requires { bound ≤ length structs.now }
    ensures listed { OnOk result (finished structs.now steps.new.items kinds.new ≡ finished structs.now steps.old.items (kinds.old ++ layout.kinds_in (kinds_front structs.now bound) (unwrap_or (plain_type_if ty.now) void_type))) }
    ensures weight { OnOk result (steps_weight structs.now steps.new.items ≤ steps_weight structs.now steps.old.items + type_weight (weights_front structs.now bound) (unwrap_or (plain_type_if ty.now) void_type)) }
{
    match ty {
        Some(ty) => begin_type(structs, bound, ty, kinds, steps),
        None => Ok(()),
    }
}

/// Lists the members of a struct from one on, up to the first struct in the first of them.
fn begin_members(
    structs: &Structs,
    number: usize,
    at: usize,
    kinds: &mut Kinds,
    steps: &mut Vec<Step>,
) -> Result<(), NoMemory>
    ensures listed { OnOk result (finished structs.now steps.new.items kinds.new ≡ finished structs.now steps.old.items (listed structs.now (Step.Members number at) kinds.old)) }
    ensures weight { OnOk result (steps_weight structs.now steps.new.items < steps_weight structs.now steps.old.items + step_weight structs.now (Step.Members number at)) }
{
    let Some(members) = structs.members(number) else {
        return Ok(());
    };
    if members.len() <= at {
        return Ok(());
    }
    steps.push(Step::Members { number, at: at + 1 })?;
    match members.value_at(at) {
        Some(ty) => begin_type_if(structs, number, ty, kinds, steps),
        None => Ok(()),
    }
}

/// Does a step, or the first part of it.
fn begin(
    structs: &Structs,
    step: Step,
    kinds: &mut Kinds,
    steps: &mut Vec<Step>,
    alloc: Global,
) -> Result<(), NoMemory>
    ensures listed { OnOk result (finished structs.now steps.new.items kinds.new ≡ finished structs.now steps.old.items (listed structs.now step kinds.old)) }
    ensures weight { OnOk result (steps_weight structs.now steps.new.items < steps_weight structs.now steps.old.items + step_weight structs.now step) }
{
    match step {
        Step::Members { number, at } => begin_members(structs, number, at, kinds, steps),
        Step::Repeat { start, more } => repeat(kinds, start, more, alloc),
    }
}

/// Whether words that may not be known are other than so many.
pub(crate) fn is_other(count: usize, words: Option<WordCount>) -> bool
    ensures { (known : Option ℕ) → words ≡ option_map counted known → result ≡ rules.is_other count known }
{
    match words {
        Some(words) => !is_count(words, count),
        None => false,
    }
}

/// The kinds of a type, in order.
///
/// # Errors
/// `NoMemory` where memory is refused.
pub(crate) fn kinds_of(structs: &Structs, ty: &HlType, alloc: Global) -> Result<Kinds, NoMemory>
    ensures { IfOk result (λ kinds. kinds ≡ spec.type_kinds structs.now (plain_ty ty.now)) }
{
    let mut kinds = Sequence::new(alloc);
    let mut steps = Vec::new(alloc);
    begin_type(structs, structs.len(), ty, &mut kinds, &mut steps)?;
    while let Some(step) = steps.pop() {
        begin(structs, step, &mut kinds, &mut steps, alloc)?;
    }
    Ok(kinds)
}

/// The kinds of a type, in order, where there are so many. Those of a type that is known to have other words aren't listed.
///
/// # Errors
/// `NoMemory` where memory is refused.
pub(crate) fn kinds_if(
    structs: &Structs,
    ty: &HlType,
    count: usize,
    alloc: Global,
) -> Result<Option<Kinds>, NoMemory>
    ensures { IfOk result (λ kinds. kinds ≡ spec.kinds_if count (spec.type_kinds structs.now (plain_ty ty.now))) }
{
    if is_other(count, structs.type_words(ty)) {
        return Ok(None);
    }
    let kinds = kinds_of(structs, ty, alloc)?;
    if kinds.len() == count {
        Ok(Some(kinds))
    } else {
        Ok(None)
    }
}
