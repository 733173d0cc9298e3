//! Interlocked operations (DirectX HLSL, "Interlocked Functions").

ghost use Rattle.std.specs.Prelude.{◌≡◌, IfOk, is_some, length, map, option_and_then, option_map};
ghost use Rattle.std.specs.Option.{option_copied};
ghost use Rattle.hl_meaning.specs.Trees.{place_target, place_type};
ghost use Rattle.hl_meaning.specs.Views.{plain_expr, plain_form, plain_location, plain_target, plain_ty};
ghost use Rattle.hl_rules.specs.Expressions.{interlocked_code};
ghost use Rattle.hl_rules.specs.Intrinsics.{may_be_absent, may_be_present, operands_behind, operands_compared, operands_of};
ghost use Rattle.hl_rules.specs.Nodes.{converted_code, interlocked, kind_for, perhaps, place_of_code};
ghost use Rattle.hl_rules.specs.Values.{atomic_fits, is_basic_value, is_known, is_word, is_written_place, target_operands_fit};
ghost use Rattle.hl_values.specs.Atomics.{are_operands_fit, converted_operands, converted_values, atomic_of, is_right_count, original_test, plain_converted, plain_operands, plain_values, with_original};
ghost use Rattle.hl_values.specs.Views.{plain_code, plain_code_if, plain_type_if, plain_value};

use crate::basic::{is_of, is_scalar};
use crate::few::{first_and_rest, one, two};
use crate::nodes::{converted_code, value_node};
use crate::operators::{is_basic, is_numeric};
use crate::typed::{Code, Typed};
use base_core::NoMemory;
use hl_meaning::{Expr, Form, HlType, Kind, Location, Target};
use hl_rules::{Interlocked, Presence};
use lane_core::AtomicKind;
use sqlite_items::Boxed;
use std::alloc::Global;

/// What stands behind the target or the address of an interlocked operation.
#[derive(Drop)]
pub(crate) struct Operands {
    pub compare: Option<Code>,
    pub value: Code,
    pub original: Option<Code>,
}

/// Whether a place for an original may be left out.
fn may_be_absent(presence: Presence) -> bool
    ensures { result ≡ may_be_absent presence }
{
    match presence {
        Presence::Always => false,
        Presence::Perhaps | Presence::Never => true,
    }
}

/// Whether a place for an original may be there.
fn may_be_present(presence: Presence) -> bool
    ensures { result ≡ may_be_present presence }
{
    match presence {
        Presence::Never => false,
        Presence::Perhaps | Presence::Always => true,
    }
}

// ---- whether they fit

/// Whether the arguments of an interlocked function fit: their number is right, and where its target is an int or a
/// uint, the others fit it.
pub(crate) fn atomic_fits(form: Interlocked, args: &[Typed]) -> bool
    ensures { result ≡ atomic_fits form (map plain_value args.now) }
{
    match args.split_first() {
        Some((target, values)) => target_operands_fit(form, &target.ty, values),
        None => false,
    }
}

/// Whether what stands behind a target of a type fits.
fn target_operands_fit(form: Interlocked, target: &Option<HlType>, values: &[Typed]) -> bool
    ensures { result ≡ target_operands_fit (plain_type_if target.now) (operands_of form (map plain_value values.now)) }
{
    match target {
        Some(ty) => {
            if is_word(ty) {
                operands_fit(form, Some(ty), values)
            } else {
                are_operands(form, values)
            }
        }
        None => are_operands(form, values),
    }
}

/// Whether operands are right in number.
fn are_operands(form: Interlocked, values: &[Typed]) -> bool
    ensures { result ≡ is_some (operands_of form (map plain_value values.now)) }
{
    if form.compares {
        match values.split_first() {
            Some((_compare, rest)) => is_right_count(form.original, rest.len()),
            None => false,
        }
    } else {
        is_right_count(form.original, values.len())
    }
}

/// Whether so many are a value and its original, as far as that may or must be there.
fn is_right_count(presence: Presence, count: usize) -> bool
    ensures { result ≡ is_right_count presence count }
{
    match count {
        1 => may_be_absent(presence),
        2 => may_be_present(presence),
        _ => false,
    }
}

/// Whether operands are right in number and fit: values are scalars or vectors, and an original can be written and has
/// the type of the target, or without one is an int or a uint.
pub(crate) fn operands_fit(form: Interlocked, target: Option<&HlType>, values: &[Typed]) -> bool
    ensures { result ≡ are_operands_fit (original_test (plain_type_if (option_copied target.entry))) (operands_of form (map plain_value values.now)) }
{
    if form.compares {
        match values.split_first() {
            Some((compare, rest)) => {
                is_basic_value(compare) && values_fit(form.original, target, rest)
            }
            None => false,
        }
    } else {
        values_fit(form.original, target, values)
    }
}

/// Whether a value and its original fit.
fn values_fit(presence: Presence, target: Option<&HlType>, values: &[Typed]) -> bool
    ensures { result ≡ are_operands_fit (original_test (plain_type_if (option_copied target.entry))) (operands_behind None presence (map plain_value values.now)) }
{
    match values {
        [value] => may_be_absent(presence) && is_basic_value(value),
        [value, original] => {
            may_be_present(presence) && is_basic_value(value) && is_written_place(original, target)
        }
        _ => false,
    }
}

/// Whether the type of a value is a scalar or a vector.
fn is_basic_value(arg: &Typed) -> bool
    ensures { result ≡ is_basic_value (plain_value arg.now) }
{
    match &arg.ty {
        Some(ty) => is_basic(ty),
        None => false,
    }
}

/// Whether an original can be written and has the type of the target, or without one is an int or a uint.
fn is_written_place(arg: &Typed, target: Option<&HlType>) -> bool
    ensures { result ≡ is_written_place (original_test (plain_type_if (option_copied target.entry))) (plain_value arg.now) }
{
    arg.standing.may_be_written() && is_original(&arg.ty, target)
}

/// Whether an original has the type of the target, or without one is an int or a uint.
fn is_original(ty: &Option<HlType>, target: Option<&HlType>) -> bool
    ensures { result ≡ is_known (original_test (plain_type_if (option_copied target.entry))) (plain_type_if ty.now) }
{
    match ty {
        Some(ty) => match target {
            Some(target) => target.is_same(ty),
            None => is_word(ty),
        },
        None => false,
    }
}

/// Whether a type is a scalar of int or uint.
pub fn is_word(ty: &HlType) -> bool
    ensures { result ≡ is_word (plain_ty ty.now) }
{
    is_scalar(ty) && is_numeric(ty)
}

// ---- what they become

/// The operands among what stands behind the target or the address, in the order compare, value, original, where their
/// number is right.
pub(crate) fn operands_of(form: Interlocked, codes: Vec<Code>) -> Option<Operands>
    ensures { option_map plain_operands result ≡ operands_of form (map plain_code codes.items) }
{
    if form.compares {
        operands_compared(form.original, codes)
    } else {
        operands_behind(None, form.original, codes)
    }
}

/// What is compared, a value, and its original, where that may or must be there.
fn operands_compared(presence: Presence, codes: Vec<Code>) -> Option<Operands>
    ensures { option_map plain_operands result ≡ operands_compared presence (map plain_code codes.items) }
{
    let (compare, rest) = first_and_rest(codes)?;
    operands_behind(Some(compare), presence, rest)
}

/// A value and its original, where that may or must be there.
fn operands_behind(compare: Option<Code>, presence: Presence, codes: Vec<Code>) -> Option<Operands>
    ensures { option_map plain_operands result ≡ operands_behind (plain_code_if compare) presence (map plain_code codes.items) }
{
    if codes.len() == 1 {
        return value_behind(compare, presence, codes);
    }
    if !may_be_present(presence) {
        return None;
    }
    let (value, original) = two(codes)?;
    Some(Operands {
        compare,
        value,
        original: Some(original),
    })
}

/// A value without an original, where that may be absent.
fn value_behind(compare: Option<Code>, presence: Presence, codes: Vec<Code>) -> Option<Operands>
    requires { length codes.items ≡ 1 }
    ensures { option_map plain_operands result ≡ operands_behind (plain_code_if compare) presence (map plain_code codes.items) }
{
    if !may_be_absent(presence) {
        return None;
    }
    let value = one(codes)?;
    Some(Operands {
        compare,
        value,
        original: None,
    })
}

/// The kind of an interlocked operation on an int or a uint.
fn kind_for(form: Interlocked, ty: &HlType) -> Option<AtomicKind>
    ensures { result ≡ kind_for form (plain_ty ty.now) }
{
    if is_of(Kind::Int, ty) {
        form.signed
    } else {
        form.unsigned
    }
}

/// What is compared, as a value of a type, where it is there.
fn compare_as(
    ty: &HlType,
    compare: Option<Code>,
    alloc: Global,
) -> Result<Option<Option<Boxed<Expr>>>, NoMemory>
    ensures { IfOk result (λ made. option_map (option_map plain_expr) made ≡ perhaps (converted_code (plain_ty ty.now)) (plain_code_if compare)) }
{
    let Some(code) = compare else {
        return Ok(Some(None));
    };
    match converted_code(ty, code, alloc)? {
        Some(value) => Ok(Some(Some(value))),
        None => Ok(None),
    }
}

/// An original as a place, where it is there and is one.
fn original_place(original: Option<Code>) -> Option<Option<Boxed<Location>>>
    ensures { option_map (option_map plain_location) result ≡ perhaps place_of_code (plain_code_if original) }
{
    match original {
        Some(code) => match code.place() {
            Some(place) => Some(Some(place)),
            None => None,
        },
        None => Some(None),
    }
}

/// Operands as values of a type, and an original as a place.
#[derive(Drop)]
struct Converted {
    compare: Option<Boxed<Expr>>,
    value: Boxed<Expr>,
    original: Option<Boxed<Location>>,
}

/// What is compared and a value, both of a type.
fn converted_values(
    ty: &HlType,
    compare: Option<Code>,
    value: Code,
    alloc: Global,
) -> Result<Option<(Option<Boxed<Expr>>, Boxed<Expr>)>, NoMemory>
    ensures { IfOk result (λ made. option_map plain_values made ≡ converted_values (plain_ty ty.now) (plain_code_if compare) (plain_code value)) }
{
    match compare_as(ty, compare, alloc)? {
        Some(compare) => match converted_code(ty, value, alloc)? {
            Some(value) => Ok(Some((compare, value))),
            None => Ok(None),
        },
        None => Ok(None),
    }
}

/// Operands as values of a type, and an original as a place, where all become so.
fn converted_operands(
    ty: &HlType,
    operands: Operands,
    alloc: Global,
) -> Result<Option<Converted>, NoMemory>
    ensures { IfOk result (λ made. option_map plain_converted made ≡ converted_operands (plain_ty ty.now) (plain_operands operands)) }
{
    let original = original_place(operands.original);
    match converted_values(ty, operands.compare, operands.value, alloc)? {
        Some(values) => Ok(with_original(values, original)),
        None => Ok(None),
    }
}

/// Values with an original, where it is a place or isn't there.
fn with_original(
    values: (Option<Boxed<Expr>>, Boxed<Expr>),
    original: Option<Option<Boxed<Location>>>,
) -> Option<Converted>
    ensures { option_map plain_converted result ≡ with_original (plain_values values) (option_map (option_map plain_location) original) }
{
    let (compare, value) = values;
    match original {
        Some(original) => Some(Converted {
            compare,
            value,
            original,
        }),
        None => None,
    }
}

/// An interlocked operation on a target of a type: its operands are converted to it, and its original is a place.
///
/// # Errors
/// `NoMemory` where memory is refused.
pub(crate) fn interlocked(
    at: usize,
    target: Target,
    ty: &HlType,
    form: Interlocked,
    operands: Operands,
    alloc: Global,
) -> Result<Option<Code>, NoMemory>
    ensures { IfOk result (λ made. plain_code_if made ≡ interlocked at (plain_target target) (plain_ty ty.now) form (plain_operands operands)) }
{
    match converted_operands(ty, operands, alloc)? {
        Some(converted) => {
            let kind = kind_for(form, ty);
            let operation = atomic_form(target, kind, converted);
            Ok(Some(value_node(HlType::Void, at, operation, alloc)?))
        }
        None => Ok(None),
    }
}

/// An interlocked operation of a kind with its operands.
fn atomic_form(target: Target, kind: Option<AtomicKind>, operands: Converted) -> Form
    ensures { plain_form result ≡ atomic_of (plain_target target) kind (plain_converted operands) }
{
    let Converted {
        compare,
        value,
        original,
    } = operands;
    let original = unboxed(original);
    Form::Atomic {
        target,
        kind,
        compare,
        value,
        original,
    }
}

/// A place that may be there.
fn unboxed(place: Option<Boxed<Location>>) -> Option<Location>
    ensures { option_map plain_location result ≡ option_map plain_location place }
{
    match place {
        Some(place) => Some(place.into_inner()),
        None => None,
    }
}

/// An interlocked operation on a place.
///
/// # Errors
/// `NoMemory` where memory is refused.
pub(crate) fn interlocked_code(
    at: usize,
    form: Interlocked,
    codes: Vec<Code>,
    alloc: Global,
) -> Result<Option<Code>, NoMemory>
    ensures { IfOk result (λ made. plain_code_if made ≡ interlocked_code at form (map plain_code codes.items)) }
{
    let Some((target, rest)) = first_and_rest(codes) else {
        return Ok(None);
    };
    match operands_of(form, rest) {
        Some(operands) => interlocked_place(at, form, target, operands, alloc),
        None => Ok(None),
    }
}

/// An interlocked operation on what may be a place.
fn interlocked_place(
    at: usize,
    form: Interlocked,
    target: Code,
    operands: Operands,
    alloc: Global,
) -> Result<Option<Code>, NoMemory>
    ensures { IfOk result (λ made. plain_code_if made ≡ option_and_then (λ place. interlocked at (place_target place) (place_type place) form (plain_operands operands)) (place_of_code (plain_code target))) }
{
    match target.place() {
        Some(place) => {
            let place = place.into_inner();
            let ty = place.ty.copied(alloc)?;
            interlocked(at, Target::Place(place), &ty, form, operands, alloc)
        }
        None => Ok(None),
    }
}
