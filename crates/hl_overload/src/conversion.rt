//! What converts to what, and at which cost (HLSL, "Standard Conversions").

ghost use Rattle.std.specs.Prelude.{◌≡◌, if◌then◌else◌};
ghost use Rattle.hl_meaning.specs.Conversions.{conversion_cost, kind_cost};
ghost use Rattle.hl_meaning.specs.Types.{scalar_type, ty_eq, vector_type};
ghost use Rattle.hl_meaning.specs.Views.{plain_ty};

use hl_meaning::{HlType, Kind};

/// What it costs to repeat a scalar.
const REPEATED: u8 = 4;

/// What it costs to cut a vector.
const CUT: u8 = 8;

/// The cost of a conversion between types: of its kinds, and 4 more where a scalar is repeated, or 8 more where a vector
/// is cut. None where there is no such conversion.
pub fn cost(from: &HlType, to: &HlType) -> Option<u8>
    ensures { result ≡ conversion_cost (plain_ty from.now) (plain_ty to.now) }
{
    match from {
        HlType::Void => None,
        HlType::Scalar(kind) => scalar_cost(*kind, to),
        HlType::Vector(kind, size) => vector_cost(*kind, *size, to),
        HlType::Array(_, _) => same_cost(from, to),
        HlType::Struct(_) => same_cost(from, to),
    }
}

/// The cost of a conversion between kinds.
fn kind_cost(from: Kind, to: Kind) -> u8
    ensures { result ≡ kind_cost from to }
{
    match (from, to) {
        (Kind::Bool, Kind::Bool) | (Kind::Int, Kind::Int) | (Kind::Uint, Kind::Uint) => 0,
        (Kind::Int, Kind::Uint) | (Kind::Uint, Kind::Int) => 1,
        (Kind::Bool, _) => 2,
        (_, Kind::Bool) => 3,
    }
}

/// The cost of a scalar's conversion.
fn scalar_cost(from: Kind, to: &HlType) -> Option<u8>
    ensures { result ≡ conversion_cost (scalar_type from) (plain_ty to.now) }
{
    match to {
        HlType::Scalar(kind) => Some(kind_cost(from, *kind)),
        HlType::Vector(kind, _) => Some(kind_cost(from, *kind) + REPEATED),
        _ => None,
    }
}

/// The cost of a vector's conversion.
fn vector_cost(from: Kind, size: u8, to: &HlType) -> Option<u8>
    ensures { result ≡ conversion_cost (vector_type from size) (plain_ty to.now) }
{
    match to {
        HlType::Scalar(kind) => Some(kind_cost(from, *kind) + CUT),
        HlType::Vector(kind, length) => {
            if size == *length {
                Some(kind_cost(from, *kind))
            } else if *length < size {
                Some(kind_cost(from, *kind) + CUT)
            } else {
                None
            }
        }
        _ => None,
    }
}

/// The cost of an array's or a struct's conversion, which is to the same type alone.
pub(crate) fn same_cost(from: &HlType, to: &HlType) -> Option<u8>
    ensures { result ≡ (if ty_eq (plain_ty from.now) (plain_ty to.now) then Some 0 else None) }
{
    from.is_same(to).then_some(0)
}
