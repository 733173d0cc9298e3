//! Methods of buffers (DirectX HLSL, "ByteAddressBuffer", "StructuredBuffer").

ghost use Rattle.std.specs.Prelude.{◌≡◌, ℕ, IfOk, Option, bytes_eq, is_some, map, option_map};
ghost use Rattle.hl_meaning.specs.Types.{uint_type};
ghost use Rattle.hl_meaning.specs.Views.{plain_expr, plain_location, plain_ty};
ghost use Rattle.hl_rules.specs.Expressions.{element_in, method_code};
ghost use Rattle.hl_rules.specs.Intrinsics.{atomic_named, element_methods, method_among, method_of, or_else, reading_methods, storing_methods};
ghost use Rattle.hl_rules.specs.Nodes.{bytes_operand, converted_code};
ghost use Rattle.hl_rules.specs.Scopes as plain_scopes;
ghost use Rattle.hl_rules.specs.Values.{argument_types, converts_to, method_fits, method_gives, method_type};
ghost use Rattle.hl_values.specs.Methods.{are_words};
ghost use Rattle.hl_values.specs.ScopeViews.{plain_buffer};
ghost use Rattle.hl_values.specs.Views.{plain_code, plain_code_if, plain_type_if, plain_value};

use crate::basic::{Basic, components_type, is_of};
use crate::few::{first_and_rest, one, two};
use crate::forms::index_expr;
use crate::interlocked::{interlocked, operands_fit, operands_of};
use crate::intrinsics::atomic_named;
use crate::nodes::{converted_code, location, value_node};
use crate::operators::valued;
use crate::scope::BufferInfo;
use crate::typed::{Code, Typed, copied_if};
use base_core::NoMemory;
use hl_meaning::{Expr, Form, HlType, Kind, Location, Root, Target};
use hl_overload::cost;
use hl_rules::{Interlocked, Method};
use sqlite_items::{Boxed, Items};
use std::alloc::Global;

// ---- names

/// The method of a name that a buffer has.
pub fn method_of(buffer: &BufferInfo, name: &[u8]) -> Option<Method>
    ensures { result ≡ method_of (plain_buffer buffer.now) name.now }
{
    if !buffer.raw {
        return element_method(name);
    }
    let reading = reading_method(name);
    if reading.is_some() || !buffer.writable {
        return reading;
    }
    writing_method(name)
}

/// Whether a name is this one.
fn is_named(name: &[u8], own: &[u8]) -> bool
    ensures { result ≡ bytes_eq own.now name.now }
{
    own == name
}

/// The method of a name that a structured buffer has.
fn element_method(name: &[u8]) -> Option<Method>
    ensures { result ≡ method_among name.now element_methods }
{
    if is_named(name, b"Load") {
        Some(Method::LoadsElement)
    } else {
        None
    }
}

/// The method of a name that each byte-address buffer has.
fn reading_method(name: &[u8]) -> Option<Method>
    ensures { result ≡ method_among name.now reading_methods }
{
    if is_named(name, b"Load") {
        Some(Method::LoadsWords(1))
    } else if is_named(name, b"Load2") {
        Some(Method::LoadsWords(2))
    } else if is_named(name, b"Load3") {
        Some(Method::LoadsWords(3))
    } else if is_named(name, b"Load4") {
        Some(Method::LoadsWords(4))
    } else {
        None
    }
}

/// The method of a name that stores into a byte-address buffer.
fn storing_method(name: &[u8]) -> Option<Method>
    ensures { result ≡ method_among name.now storing_methods }
{
    if is_named(name, b"Store") {
        Some(Method::StoresWords(1))
    } else if is_named(name, b"Store2") {
        Some(Method::StoresWords(2))
    } else if is_named(name, b"Store3") {
        Some(Method::StoresWords(3))
    } else if is_named(name, b"Store4") {
        Some(Method::StoresWords(4))
    } else {
        None
    }
}

/// The method of a name that a writable byte-address buffer has beside those that read.
fn writing_method(name: &[u8]) -> Option<Method>
    ensures { result ≡ or_else (method_among name.now storing_methods) (option_map Method.DoesAtomic (atomic_named name.now)) }
{
    let storing = storing_method(name);
    if storing.is_some() {
        return storing;
    }
    match atomic_named(name) {
        Some(form) => Some(Method::DoesAtomic(form)),
        None => None,
    }
}

// ---- types

/// Whether all arguments have types.
pub fn have_types(args: &[Typed]) -> bool
    ensures { result ≡ is_some (argument_types (map plain_value args.now)) }
{
    for arg in args {
        if valued(&arg.ty).is_none() {
            return false;
        }
    }
    true
}

/// Whether an argument has a type that converts to another one.
fn converts_to(ty: &HlType, arg: &Typed) -> bool
    ensures { result ≡ converts_to (plain_ty ty.now) (plain_value arg.now) }
{
    match &arg.ty {
        Some(from) => cost(from, ty).is_some(),
        None => false,
    }
}

/// Whether an argument converts to an address or an index.
fn is_address(arg: &Typed) -> bool
    ensures { result ≡ converts_to uint_type (plain_value arg.now) }
{
    converts_to(&Basic::Scalar(Kind::Uint).ty(), arg)
}

/// Whether the arguments of a method, which all have types, fit it.
pub fn method_fits(method: Method, args: &[Typed]) -> bool
    ensures { result ≡ method_fits method (map plain_value args.now) }
{
    let Some((first, rest)) = args.split_first() else {
        return false;
    };
    if !is_address(first) {
        return false;
    }
    match method {
        Method::LoadsWords(_) | Method::LoadsElement => rest.is_empty(),
        Method::StoresWords(count) => are_words(count, rest),
        Method::DoesAtomic(form) => operands_fit(form, None, rest),
    }
}

/// Whether there is one argument, and it converts to so many words.
fn are_words(count: u8, args: &[Typed]) -> bool
    ensures { result ≡ are_words count (map plain_value args.now) }
{
    match args {
        [value] => converts_to(&components_type(Kind::Uint, count), value),
        _ => false,
    }
}

/// What a method of a buffer gives.
///
/// # Errors
/// `NoMemory` where memory is refused.
fn method_gives(
    buffer: &BufferInfo,
    method: Method,
    alloc: Global,
) -> Result<Option<HlType>, NoMemory>
    ensures { IfOk result (λ ty. plain_type_if ty ≡ method_gives (plain_buffer buffer.now) method) }
{
    match method {
        Method::LoadsWords(count) => Ok(Some(components_type(Kind::Uint, count))),
        Method::StoresWords(_) => Ok(Some(HlType::Void)),
        Method::DoesAtomic(_) => Ok(Some(HlType::Void)),
        Method::LoadsElement => copied_if(&buffer.element, alloc),
    }
}

/// What a call of a method gives, where its arguments have types and fit.
///
/// # Errors
/// `NoMemory` where memory is refused.
pub fn method_type(
    buffer: &BufferInfo,
    name: &[u8],
    args: &[Typed],
    alloc: Global,
) -> Result<Option<HlType>, NoMemory>
    ensures { IfOk result (λ ty. plain_type_if ty ≡ method_type (plain_buffer buffer.now) name.now (map plain_value args.now)) }
{
    if !have_types(args) {
        return Ok(None);
    }
    let Some(method) = method_of(buffer, name) else {
        return Ok(None);
    };
    if method_fits(method, args) {
        method_gives(buffer, method, alloc)
    } else {
        Ok(None)
    }
}

// ---- code

/// The call of a method: the index of its first token, its buffer with its number, the index of the first token of its
/// first argument, and the constant number that this argument is, if it is one.
#[derive(Clone, Copy)]
pub struct MethodCall<'a> {
    pub at: usize,
    pub buffer: &'a BufferInfo,
    pub number: u32,
    pub first: usize,
    pub constant: Option<u32>,
}

/// What the call of a method becomes.
///
/// # Errors
/// `NoMemory` where memory is refused.
pub fn method_code(
    call: MethodCall,
    method: Method,
    codes: Vec<Code>,
    alloc: Global,
) -> Result<Option<Code>, NoMemory>
    ensures { IfOk result (λ made. plain_code_if made ≡ method_code (plain_buffer call.entry.buffer.now) call.entry.at call.entry.number method call.entry.first call.entry.constant (map plain_code codes.items)) }
{
    match method {
        Method::LoadsWords(count) => loaded_words(call.at, call.number, count, codes, alloc),
        Method::StoresWords(count) => stored_words(call.at, call.number, count, codes, alloc),
        Method::DoesAtomic(form) => atomic_code(call.at, call.number, form, codes, alloc),
        Method::LoadsElement => loaded_element(call, codes, alloc),
    }
}

/// An address in a buffer.
fn address_of(code: Code, alloc: Global) -> Result<Option<Boxed<Expr>>, NoMemory>
    ensures { IfOk result (λ made. option_map plain_expr made ≡ converted_code uint_type (plain_code code)) }
{
    converted_code(&Basic::Scalar(Kind::Uint).ty(), code, alloc)
}

/// A load of so many words.
fn loaded_words(
    at: usize,
    resource: u32,
    count: u8,
    codes: Vec<Code>,
    alloc: Global,
) -> Result<Option<Code>, NoMemory>
    ensures { (buffer : plain_scopes.BufferInfo) (first : ℕ) (constant : Option ℕ) → IfOk result (λ made. plain_code_if made ≡ method_code buffer at resource (Method.LoadsWords count) first constant (map plain_code codes.items)) }
{
    let Some(code) = one(codes) else {
        return Ok(None);
    };
    let Some(address) = address_of(code, alloc)? else {
        return Ok(None);
    };
    let load = Form::Method {
        resource,
        count,
        address,
        value: None,
    };
    Ok(Some(value_node(components_type(Kind::Uint, count), at, load, alloc)?))
}

/// A store of so many words.
fn stored_words(
    at: usize,
    resource: u32,
    count: u8,
    codes: Vec<Code>,
    alloc: Global,
) -> Result<Option<Code>, NoMemory>
    ensures { (buffer : plain_scopes.BufferInfo) (first : ℕ) (constant : Option ℕ) → IfOk result (λ made. plain_code_if made ≡ method_code buffer at resource (Method.StoresWords count) first constant (map plain_code codes.items)) }
{
    let Some((code, stored)) = two(codes) else {
        return Ok(None);
    };
    let Some(address) = address_of(code, alloc)? else {
        return Ok(None);
    };
    let words = components_type(Kind::Uint, count);
    let Some(value) = converted_code(&words, stored, alloc)? else {
        return Ok(None);
    };
    let store = Form::Method {
        resource,
        count,
        address,
        value: Some(value),
    };
    Ok(Some(value_node(HlType::Void, at, store, alloc)?))
}

/// An interlocked operation on a word of a byte-address buffer.
fn atomic_code(
    at: usize,
    resource: u32,
    form: Interlocked,
    codes: Vec<Code>,
    alloc: Global,
) -> Result<Option<Code>, NoMemory>
    ensures { (buffer : plain_scopes.BufferInfo) (first : ℕ) (constant : Option ℕ) → IfOk result (λ made. plain_code_if made ≡ method_code buffer at resource (Method.DoesAtomic form) first constant (map plain_code codes.items)) }
{
    let Some((code, rest)) = first_and_rest(codes) else {
        return Ok(None);
    };
    let Some(operands) = operands_of(form, rest) else {
        return Ok(None);
    };
    let Some(address) = address_of(code, alloc)? else {
        return Ok(None);
    };
    let ty = bytes_operand(operands.value.ty());
    let target = Target::Bytes { resource, address };
    interlocked(at, target, &ty, form, operands, alloc)
}

/// The type in which an interlocked operation on a byte-address buffer computes: that of its value's kind, where a bool
/// is a uint.
fn bytes_operand(ty: &HlType) -> HlType
    ensures { plain_ty result ≡ bytes_operand (plain_ty ty.now) }
{
    if is_of(Kind::Int, ty) {
        Basic::Scalar(Kind::Int).ty()
    } else {
        Basic::Scalar(Kind::Uint).ty()
    }
}

/// An element of a structured buffer, read.
fn loaded_element(
    call: MethodCall,
    codes: Vec<Code>,
    alloc: Global,
) -> Result<Option<Code>, NoMemory>
    ensures { IfOk result (λ made. plain_code_if made ≡ method_code (plain_buffer call.entry.buffer.now) call.entry.at call.entry.number Method.LoadsElement call.entry.first call.entry.constant (map plain_code codes.items)) }
{
    let Some(code) = one(codes) else {
        return Ok(None);
    };
    let Some(index) = index_expr(call.first, call.constant, code, alloc)? else {
        return Ok(None);
    };
    let Some(place) = element_in(call.buffer, call.number, index, alloc)? else {
        return Ok(None);
    };
    let ty = place.ty.copied(alloc)?;
    Ok(Some(value_node(ty, call.at, Form::Read(place), alloc)?))
}

/// An element of a structured buffer of a number, as a place.
///
/// # Errors
/// `NoMemory` where memory is refused.
pub fn element_in(
    buffer: &BufferInfo,
    resource: u32,
    index: Boxed<Expr>,
    alloc: Global,
) -> Result<Option<Location>, NoMemory>
    ensures { IfOk result (λ place. option_map plain_location place ≡ element_in (plain_buffer buffer.now) resource (plain_expr index)) }
{
    if buffer.raw {
        return Ok(None);
    }
    let Some(ty) = copied_if(&buffer.element, alloc)? else {
        return Ok(None);
    };
    let root = Root::Element { resource, index };
    Ok(Some(location(ty, root, Items::new(alloc))))
}
