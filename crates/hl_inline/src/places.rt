//! What becomes of places. Their indexes are operands.

ghost use Rattle.std.specs.Prelude.{◌≡◌, ◌∷◌, ℕ, List, IfOk};
ghost use Rattle.hl_meaning.specs.Views.{plain_location, plain_maybe_location, plain_part, plain_parts, plain_root, plain_target};
ghost use Rattle.hl_inline.specs.Building.{callees_in, filled_part, instance_in, made, made_behind, plain_code, plain_fresh};
ghost use Rattle.hl_inline.specs.EmittedExpressions.{part_emitters, parts_emitters, place_emitters, place_if_emitters, root_emitters, target_emitters};
ghost use Rattle.hl_inline.specs.Emitting.{emit_all};
ghost use Rattle.hl_inline.specs.LastCalls.{Knows, part_path, parts_paths, path_among, place_if_path, place_path, root_path, target_path};
ghost use Rattle.hl_inline.specs.Operands.{filled_parts, filled_place, filled_place_if, filled_root, filled_target};

use crate::context::{Context, shifted};
use crate::emitting::emit_boxed;
use crate::flat::FlatStmts;
use crate::fresh::Fresh;
use crate::last_call::{LastCall, Operand};
use crate::searching::path_to_call_in_place;
use base_core::{Bytes, NoMemory};
use hl_meaning::{Location, PathPart, PathParts, Root, Target};

/// A place. Its indexes are saved where statements come behind it that may change their values.
///
/// # Errors
/// `NoMemory` where memory is refused, as in each call below.
#[cycle(inlining)]
pub(crate) fn emit_place(
    context: &Context,
    further: bool,
    place: &Location,
    fresh: &mut Fresh,
    code: &mut FlatStmts,
) -> Result<Location, NoMemory>
    ensures { IfOk result (λ value. made_behind (plain_code code.old) (filled_place (instance_in context.now).first (plain_location place.now)) (emit_all further (place_emitters (callees_in context.now) (instance_in context.now) (plain_location place.now)) (plain_fresh fresh.old)) ≡ made (plain_code code.new) (plain_location value) (plain_fresh fresh.new)) }
{
    let numbers = path_to_call_in_place(context.alloc, place)?;
    let last_call = LastCall {
        numbers: numbers.as_slice(),
    };
    emit_place_along(context, further, last_call, place, fresh, code)
}

/// The same along the path to its last call.
#[cycle(inlining)]
pub(crate) fn emit_place_along(
    context: &Context,
    further: bool,
    last_call: LastCall,
    place: &Location,
    fresh: &mut Fresh,
    code: &mut FlatStmts,
) -> Result<Location, NoMemory>
    ensures { last_call.entry.numbers.now ≡ place_path (plain_location place.now) → IfOk result (λ value. made_behind (plain_code code.old) (filled_place (instance_in context.now).first (plain_location place.now)) (emit_all further (place_emitters (callees_in context.now) (instance_in context.now) (plain_location place.now)) (plain_fresh fresh.old)) ≡ made (plain_code code.new) (plain_location value) (plain_fresh fresh.new)) }
{
    let operand = last_call.operand(further, 1);
    let root = emit_root(context, operand, &place.root, fresh, code)?;
    let parts = emit_parts(context, further, last_call, &place.parts, fresh, code)?;
    let ty = place.ty.copied(context.alloc)?;
    Ok(Location { ty, root, parts })
}

/// A place that is an operand. It is searched by itself where its last call isn't known.
#[cycle(inlining)]
pub(crate) fn emit_operand_place(
    context: &Context,
    operand: Operand,
    place: &Location,
    fresh: &mut Fresh,
    code: &mut FlatStmts,
) -> Result<Location, NoMemory>
    ensures { Knows operand.entry (place_path (plain_location place.now)) → IfOk result (λ value. made_behind (plain_code code.old) (filled_place (instance_in context.now).first (plain_location place.now)) (emit_all operand.entry.further (place_emitters (callees_in context.now) (instance_in context.now) (plain_location place.now)) (plain_fresh fresh.old)) ≡ made (plain_code code.new) (plain_location value) (plain_fresh fresh.new)) }
{
    match operand.last_call {
        Some(last_call) => {
            emit_place_along(context, operand.further, last_call, place, fresh, code)
        }
        None => emit_place(context, operand.further, place, fresh, code),
    }
}

/// The root of a place.
#[cycle(inlining)]
fn emit_root(
    context: &Context,
    operand: Operand,
    root: &Root,
    fresh: &mut Fresh,
    code: &mut FlatStmts,
) -> Result<Root, NoMemory>
    ensures { Knows operand.entry (root_path (plain_root root.now)) → IfOk result (λ value. made_behind (plain_code code.old) (filled_root (instance_in context.now).first (plain_root root.now)) (emit_all operand.entry.further (root_emitters (callees_in context.now) (instance_in context.now) (plain_root root.now)) (plain_fresh fresh.old)) ≡ made (plain_code code.new) (plain_root value) (plain_fresh fresh.new)) }
{
    match root {
        Root::Variable(number) => {
            let number = shifted(context.first, *number)?;
            Ok(Root::Variable(number))
        }
        Root::Constant(number) => Ok(Root::Variable(*number)),
        Root::Shared(number) => Ok(Root::Shared(*number)),
        Root::Element { resource, index } => {
            let index = emit_boxed(context, operand, index.get(), fresh, code)?;
            Ok(Root::Element {
                resource: *resource,
                index,
            })
        }
    }
}

/// The steps of a place, which stand behind its root.
#[cycle(inlining)]
fn emit_parts(
    context: &Context,
    further: bool,
    last_call: LastCall,
    parts: &PathParts,
    fresh: &mut Fresh,
    code: &mut FlatStmts,
) -> Result<PathParts, NoMemory>
    ensures { (root : List ℕ) → last_call.entry.numbers.now ≡ path_among (root ∷ parts_paths (plain_parts parts.now)) → IfOk result (λ value. made_behind (plain_code code.old) (filled_parts (plain_parts parts.now)) (emit_all further (parts_emitters (callees_in context.now) (instance_in context.now) (plain_parts parts.now)) (plain_fresh fresh.old)) ≡ made (plain_code code.new) (plain_parts value) (plain_fresh fresh.new)) }
{
    let mut made = PathParts::new(context.alloc);
    for (index, part) in parts.as_slice().iter().enumerate() {
        let operand = last_call.operand(further, index + 2);
        let part = emit_part(context, operand, part, fresh, code)?;
        made.push(part)?;
    }
    Ok(made)
}

/// A step.
#[cycle(inlining)]
fn emit_part(
    context: &Context,
    operand: Operand,
    part: &PathPart,
    fresh: &mut Fresh,
    code: &mut FlatStmts,
) -> Result<PathPart, NoMemory>
    ensures { Knows operand.entry (part_path (plain_part part.now)) → IfOk result (λ value. made_behind (plain_code code.old) (filled_part (plain_part part.now)) (emit_all operand.entry.further (part_emitters (callees_in context.now) (instance_in context.now) (plain_part part.now)) (plain_fresh fresh.old)) ≡ made (plain_code code.new) (plain_part value) (plain_fresh fresh.new)) }
{
    match part {
        PathPart::Member(number) => Ok(PathPart::Member(*number)),
        PathPart::Index(index) => {
            let index = emit_boxed(context, operand, index.get(), fresh, code)?;
            Ok(PathPart::Index(index))
        }
        PathPart::Swizzle(letters) => {
            let letters = Bytes::from_slice(context.alloc, letters.as_slice())?;
            Ok(PathPart::Swizzle(letters))
        }
    }
}

/// A place that may be there.
#[cycle(inlining)]
pub(crate) fn emit_place_if(
    context: &Context,
    operand: Operand,
    place: &Option<Location>,
    fresh: &mut Fresh,
    code: &mut FlatStmts,
) -> Result<Option<Location>, NoMemory>
    ensures { Knows operand.entry (place_if_path (plain_maybe_location place.now)) → IfOk result (λ value. made_behind (plain_code code.old) (filled_place_if (instance_in context.now).first (plain_maybe_location place.now)) (emit_all operand.entry.further (place_if_emitters (callees_in context.now) (instance_in context.now) (plain_maybe_location place.now)) (plain_fresh fresh.old)) ≡ made (plain_code code.new) (plain_maybe_location value) (plain_fresh fresh.new)) }
{
    match place {
        Some(place) => {
            let place = emit_operand_place(context, operand, place, fresh, code)?;
            Ok(Some(place))
        }
        None => Ok(None),
    }
}

/// The target of an atomic operation.
#[cycle(inlining)]
pub(crate) fn emit_target(
    context: &Context,
    operand: Operand,
    target: &Target,
    fresh: &mut Fresh,
    code: &mut FlatStmts,
) -> Result<Target, NoMemory>
    ensures { Knows operand.entry (target_path (plain_target target.now)) → IfOk result (λ value. made_behind (plain_code code.old) (filled_target (instance_in context.now).first (plain_target target.now)) (emit_all operand.entry.further (target_emitters (callees_in context.now) (instance_in context.now) (plain_target target.now)) (plain_fresh fresh.old)) ≡ made (plain_code code.new) (plain_target value) (plain_fresh fresh.new)) }
{
    match target {
        Target::Place(place) => {
            let place = emit_operand_place(context, operand, place, fresh, code)?;
            Ok(Target::Place(place))
        }
        Target::Bytes { resource, address } => {
            let address = emit_boxed(context, operand, address.get(), fresh, code)?;
            Ok(Target::Bytes {
                resource: *resource,
                address,
            })
        }
    }
}
