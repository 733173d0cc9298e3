//! Calls of intrinsic functions (HLSL, "Intrinsic Functions").

ghost use Rattle.std.specs.Prelude.{◌≡◌, IfOk, map, option_and_then, option_map};
ghost use Rattle.hl_meaning.specs.Intrinsics.{signature_of};
ghost use Rattle.hl_meaning.specs.Views.{plain_ty};
ghost use Rattle.hl_rules.specs.Expressions.{code_by_form, intrinsic_code};
ghost use Rattle.hl_rules.specs.Intrinsics.{passed};
ghost use Rattle.hl_rules.specs.Nodes.{type_of_code};
ghost use Rattle.hl_rules.specs.Values.{argument_types, intrinsic_type};
ghost use Rattle.hl_values.specs.Views.{plain_code, plain_code_if, plain_type_if, plain_value};

use crate::interlocked::{atomic_fits, interlocked_code};
use crate::intrinsics::{interlocked_form, signature_of};
use crate::nodes::{converted_each, value_node};
use crate::operators::valued;
use crate::passing::{Passing, passed};
use crate::typed::{Code, Typed};
use base_core::{NoMemory, Sequence};
use hl_meaning::{Form, HlType};
use std::alloc::Global;

/// The types of arguments, where all have one.
///
/// # Errors
/// `NoMemory` where memory is refused.
pub(crate) fn argument_types(
    args: &[Typed],
    alloc: Global,
) -> Result<Option<Sequence<HlType>>, NoMemory>
    ensures { IfOk result (λ types. option_map (map plain_ty) types ≡ argument_types (map plain_value args.now)) }
{
    let mut types = Sequence::new(alloc);
    for arg in args {
        match valued(&arg.ty) {
            Some(ty) => types.push(ty.copied(alloc)?)?,
            None => return Ok(None),
        }
    }
    Ok(Some(types))
}

/// What a call of an intrinsic function gives, where its arguments have types and fit.
///
/// # Errors
/// `NoMemory` where memory is refused.
pub fn intrinsic_type(number: u8, args: &[Typed], alloc: Global) -> Result<Option<HlType>, NoMemory>
    ensures { IfOk result (λ ty. plain_type_if ty ≡ intrinsic_type number (map plain_value args.now)) }
{
    let Some(types) = argument_types(args, alloc)? else {
        return Ok(None);
    };
    match interlocked_form(number) {
        Some(form) => {
            if atomic_fits(form, args) {
                Ok(Some(HlType::Void))
            } else {
                Ok(None)
            }
        }
        None => given_type(number, types.as_slice(), alloc),
    }
}

/// What an intrinsic function that is no interlocked operation gives for arguments of these types, where they fit.
fn given_type(number: u8, types: &[HlType], alloc: Global) -> Result<Option<HlType>, NoMemory>
    ensures { IfOk result (λ ty. plain_type_if ty ≡ option_map (λ p. p.gives) (option_and_then (λ signature. passed signature (map plain_ty types.now)) (signature_of number))) }
{
    let Some(signature) = signature_of(number) else {
        return Ok(None);
    };
    match passed(signature, types, alloc)? {
        Some(passing) => Ok(Some(passing.gives)),
        None => Ok(None),
    }
}

/// What a call of an intrinsic function becomes.
///
/// # Errors
/// `NoMemory` where memory is refused.
pub fn intrinsic_code(
    at: usize,
    number: u8,
    codes: Vec<Code>,
    alloc: Global,
) -> Result<Option<Code>, NoMemory>
    ensures { IfOk result (λ made. plain_code_if made ≡ intrinsic_code at number (map plain_code codes.items)) }
{
    match interlocked_form(number) {
        Some(form) => interlocked_code(at, form, codes, alloc),
        None => converted_call(at, number, codes, alloc),
    }
}

/// The call of an intrinsic function whose arguments are converted to what it takes.
fn converted_call(
    at: usize,
    number: u8,
    codes: Vec<Code>,
    alloc: Global,
) -> Result<Option<Code>, NoMemory>
    ensures { IfOk result (λ made. plain_code_if made ≡ code_by_form None at number (map plain_code codes.items)) }
{
    let Some(signature) = signature_of(number) else {
        return Ok(None);
    };
    let types = code_types(codes.as_slice(), alloc)?;
    let Some(passing) = passed(signature, types.as_slice(), alloc)? else {
        return Ok(None);
    };
    let Passing { takes, gives } = passing;
    let Some(args) = converted_each(takes.as_slice(), codes, alloc)? else {
        return Ok(None);
    };
    Ok(Some(value_node(gives, at, Form::Intrinsic { number, args }, alloc)?))
}

/// The types of values.
fn code_types(codes: &[Code], alloc: Global) -> Result<Sequence<HlType>, NoMemory>
    ensures { IfOk result (λ types. map plain_ty types ≡ map type_of_code (map plain_code codes.now)) }
{
    let mut types = Sequence::new(alloc);
    for code in codes {
        types.push(code.ty().copied(alloc)?)?;
    }
    Ok(types)
}
