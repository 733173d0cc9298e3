//! What intrinsic functions convert their arguments to, and what they give (HLSL, "Intrinsic Functions").

ghost use Rattle.std.specs.Prelude.{◌≡◌, [], ◌∷◌, IfOk, map, option_map, replicate};
ghost use Rattle.hl_meaning.specs.Types.{bool_type, is_scalar, with_kind};
ghost use Rattle.hl_meaning.specs.Views.{plain_ty};
ghost use Rattle.hl_rules.specs.Intrinsics.{passed, passing_if};
ghost use Rattle.hl_values.specs.Basics.{basic_ty};
ghost use Rattle.hl_values.specs.Intrinsics.{nothing_passed, of_one, only_basic, plain_passing, plain_single, single_passed};

use crate::basic::{Basic, is_scalar};
use crate::operators::{common_of, is_basic};
use base_core::{NoMemory, Sequence};
use hl_meaning::{HlType, Kind, Signature};
use std::alloc::Global;

/// What the arguments of a call are converted to, and what it gives.
#[derive(Drop)]
pub struct Passing {
    pub takes: Sequence<HlType>,
    pub gives: HlType,
}

/// What the one argument of a call is converted to, and what it gives.
#[derive(Clone, Copy)]
struct Single {
    takes: Basic,
    gives: Basic,
}

/// What a signature takes and gives for arguments of these types, where they fit.
///
/// # Errors
/// `NoMemory` where memory is refused.
pub fn passed(
    signature: Signature,
    args: &[HlType],
    alloc: Global,
) -> Result<Option<Passing>, NoMemory>
    ensures { IfOk result (λ p. option_map plain_passing p ≡ passed signature (map plain_ty args.now)) }
{
    match signature {
        Signature::Numbers(count) => numbers(count, args, alloc),
        Signature::Uints => one(signature, args, alloc),
        Signature::Truths => one(signature, args, alloc),
        Signature::Bits(_) => one(signature, args, alloc),
        Signature::Atomic => Ok(None),
        Signature::Barrier => Ok(nothing(args, HlType::Void, alloc)),
        Signature::LaneTruth => Ok(nothing(args, Basic::Scalar(Kind::Bool).ty(), alloc)),
        Signature::LaneNumber => Ok(nothing(args, Basic::Scalar(Kind::Uint).ty(), alloc)),
        Signature::Vote => one(signature, args, alloc),
        Signature::Ballot => one(signature, args, alloc),
        Signature::AllEqual => one(signature, args, alloc),
        Signature::ReadLaneAt => read_lane(args, alloc),
        Signature::ReadLaneFirst => one(signature, args, alloc),
        Signature::CountTruths => one(signature, args, alloc),
    }
}

/// What a signature of so many numbers takes and gives.
fn numbers(count: u8, args: &[HlType], alloc: Global) -> Result<Option<Passing>, NoMemory>
    ensures { IfOk result (λ p. option_map plain_passing p ≡ passed (Signature.Numbers count) (map plain_ty args.now)) }
{
    if args.len() != count as usize {
        return Ok(None);
    }
    match common_of(args) {
        Some(gives) => {
            let takes = repeated(count, &gives, alloc)?;
            Ok(Some(Passing { takes, gives }))
        }
        None => Ok(None),
    }
}

/// So many times a type.
fn repeated(count: u8, ty: &HlType, alloc: Global) -> Result<Sequence<HlType>, NoMemory>
    ensures { IfOk result (λ types. map plain_ty types ≡ replicate count (plain_ty ty.now)) }
{
    let mut types = Sequence::new(alloc);
    for _place in 0..count {
        types.push(ty.copied(alloc)?)?;
    }
    Ok(types)
}

/// What a signature without arguments takes and gives.
fn nothing(args: &[HlType], gives: HlType, alloc: Global) -> Option<Passing>
    ensures { option_map plain_passing result ≡ nothing_passed (plain_ty gives) (map plain_ty args.now) }
{
    if args.is_empty() {
        let takes = Sequence::new(alloc);
        Some(Passing { takes, gives })
    } else {
        None
    }
}

/// What `WaveReadLaneAt` takes and gives: a scalar or a vector, and the number of a lane.
fn read_lane(args: &[HlType], alloc: Global) -> Result<Option<Passing>, NoMemory>
    ensures { IfOk result (λ p. option_map plain_passing p ≡ passed Signature.ReadLaneAt (map plain_ty args.now)) }
{
    match args {
        [value, lane] => lane_value(value, lane, alloc),
        _ => Ok(None),
    }
}

/// What `WaveReadLaneAt` takes and gives for a value and the number of a lane.
fn lane_value(value: &HlType, lane: &HlType, alloc: Global) -> Result<Option<Passing>, NoMemory>
    ensures { IfOk result (λ p. option_map plain_passing p ≡ passed Signature.ReadLaneAt (plain_ty value.now ∷ plain_ty lane.now ∷ [])) }
{
    if !is_basic(value) || !is_scalar(lane) {
        return Ok(None);
    }
    let mut takes = Sequence::new(alloc);
    takes.push(value.copied(alloc)?)?;
    takes.push(Basic::Scalar(Kind::Uint).ty())?;
    let gives = value.copied(alloc)?;
    Ok(Some(Passing { takes, gives }))
}

/// What a signature of one argument takes and gives.
fn one(signature: Signature, args: &[HlType], alloc: Global) -> Result<Option<Passing>, NoMemory>
    ensures { IfOk result (λ p. option_map plain_passing p ≡ single_passed signature (map plain_ty args.now)) }
{
    let Some(single) = single_passed(signature, args) else {
        return Ok(None);
    };
    let mut takes = Sequence::new(alloc);
    takes.push(single.takes.ty())?;
    let gives = single.gives.ty();
    Ok(Some(Passing { takes, gives }))
}

/// What a signature of one argument takes and gives.
fn single_passed(signature: Signature, args: &[HlType]) -> Option<Single>
    ensures { option_map plain_single result ≡ single_passed signature (map plain_ty args.now) }
{
    let arg = only_basic(args);
    of_one(signature, arg?)
}

/// The argument, where it is alone and a scalar or a vector.
fn only_basic(args: &[HlType]) -> Option<Basic>
    ensures { option_map basic_ty result ≡ only_basic (map plain_ty args.now) }
{
    match args {
        [arg] => Basic::of(arg),
        _ => None,
    }
}

/// What a signature of one argument takes and gives for a scalar or a vector.
fn of_one(signature: Signature, arg: Basic) -> Option<Single>
    ensures { option_map plain_single result ≡ of_one signature (basic_ty arg) }
{
    match signature {
        Signature::Uints => Some(of_kinds(arg, Kind::Uint, Kind::Uint)),
        Signature::Truths => Some(Single {
            takes: arg.with_kind(Kind::Bool),
            gives: Basic::Scalar(Kind::Bool),
        }),
        Signature::Bits(kind) => bits(kind, arg),
        Signature::Vote => of_scalar(arg, Basic::Scalar(Kind::Bool)),
        Signature::Ballot => of_scalar(arg, Basic::Vector(Kind::Uint, 4)),
        Signature::AllEqual => Some(of_kinds(arg, arg.kind(), Kind::Bool)),
        Signature::ReadLaneFirst => Some(of_kinds(arg, arg.kind(), arg.kind())),
        Signature::CountTruths => Some(of_kinds(arg, Kind::Bool, Kind::Uint)),
        Signature::Numbers(_)
        | Signature::Atomic
        | Signature::Barrier
        | Signature::LaneTruth
        | Signature::LaneNumber
        | Signature::ReadLaneAt => None,
    }
}

/// A scalar or a vector in two kinds: what is taken, and what is given.
fn of_kinds(arg: Basic, takes: Kind, gives: Kind) -> Single
    ensures { plain_single result ≡ record { takes = with_kind takes (basic_ty arg) ∷ []; gives = with_kind gives (basic_ty arg) } }
{
    Single {
        takes: arg.with_kind(takes),
        gives: arg.with_kind(gives),
    }
}

/// The bits of an int or a uint in a kind.
fn bits(kind: Kind, arg: Basic) -> Option<Single>
    ensures { option_map plain_single result ≡ of_one (Signature.Bits kind) (basic_ty arg) }
{
    match arg.kind() {
        Kind::Bool => None,
        Kind::Int | Kind::Uint => Some(of_kinds(arg, arg.kind(), kind)),
    }
}

/// What is given for the bool that a scalar is.
fn of_scalar(arg: Basic, gives: Basic) -> Option<Single>
    ensures { option_map plain_single result ≡ passing_if (is_scalar (basic_ty arg)) (bool_type ∷ []) (basic_ty gives) }
{
    match arg {
        Basic::Scalar(_) => Some(Single {
            takes: Basic::Scalar(Kind::Bool),
            gives,
        }),
        Basic::Vector(_, _) => None,
    }
}
