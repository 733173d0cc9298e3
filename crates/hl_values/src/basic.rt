//! Scalars and vectors, on which operators work.

ghost use Rattle.std.specs.Prelude.{◌≡◌, IfOk, Some, option_map};
ghost use Rattle.hl_meaning.specs.Types.{component_count, components_type, is_of, is_scalar, is_void, with_kind};
ghost use Rattle.hl_meaning.specs.Views.{plain_ty};
ghost use Rattle.hl_rules.specs.Operands.{branch_kind, common_kind, computing_kind, kind_of, number_kind, sized};
ghost use Rattle.hl_rules.specs.Values.{operand_of};
ghost use Rattle.hl_values.specs.Basics.{basic_ty};

use base_core::NoMemory;
use hl_meaning::{HlType, Kind};
use std::alloc::Global;

/// A scalar, or a vector of so many components, of a kind.
#[derive(Clone, Copy, Debug, PartialEq, Eq)]
pub enum Basic {
    Scalar(Kind),
    Vector(Kind, u8),
}

impl Basic {
    /// The scalar or the vector that a type is, and none where it is neither.
    pub fn of(ty: &HlType) -> Option<Basic>
        ensures { option_map basic_ty result ≡ operand_of (Some (plain_ty ty.now)) }
    {
        match ty {
            HlType::Scalar(kind) => Some(Basic::Scalar(*kind)),
            HlType::Vector(kind, size) => Some(Basic::Vector(*kind, *size)),
            _ => None,
        }
    }

    /// The type.
    pub fn ty(self) -> HlType
        ensures { plain_ty result ≡ basic_ty self }
    {
        match self {
            Basic::Scalar(kind) => HlType::Scalar(kind),
            Basic::Vector(kind, size) => HlType::Vector(kind, size),
        }
    }

    /// The kind.
    pub fn kind(self) -> Kind
        ensures { result ≡ kind_of (basic_ty self) }
    {
        match self {
            Basic::Scalar(kind) => kind,
            Basic::Vector(kind, _) => kind,
        }
    }

    /// The scalar or vector of another kind.
    pub fn with_kind(self, kind: Kind) -> Basic
        ensures { basic_ty result ≡ with_kind kind (basic_ty self) }
    {
        match self {
            Basic::Scalar(_) => Basic::Scalar(kind),
            Basic::Vector(_, size) => Basic::Vector(kind, size),
        }
    }

    /// The number of components.
    pub fn component_count(self) -> u8
        ensures { result ≡ component_count (basic_ty self) }
    {
        match self {
            Basic::Scalar(_) => 1,
            Basic::Vector(_, size) => size,
        }
    }

    /// One of a kind, in the size that two have in common: that of the vector where one is a scalar, and of the shorter
    /// one where both are vectors.
    pub fn sized(kind: Kind, a: Basic, b: Basic) -> Basic
        ensures { Some (basic_ty result) ≡ sized kind (basic_ty a) (basic_ty b) }
    {
        match (a, b) {
            (Basic::Scalar(_), Basic::Scalar(_)) => Basic::Scalar(kind),
            (Basic::Scalar(_), Basic::Vector(_, size)) => Basic::Vector(kind, size),
            (Basic::Vector(_, size), Basic::Scalar(_)) => Basic::Vector(kind, size),
            (Basic::Vector(_, size), Basic::Vector(_, length)) => {
                Basic::Vector(kind, size.min(length))
            }
        }
    }
}

/// The kind of a type, which is that of an int where it is neither a scalar nor a vector.
pub fn kind_of(ty: &HlType) -> Kind
    ensures { result ≡ kind_of (plain_ty ty.now) }
{
    match ty {
        HlType::Scalar(kind) => *kind,
        HlType::Vector(kind, _) => *kind,
        _ => Kind::Int,
    }
}

/// The scalar or the vector of another kind, and any other type as it is.
///
/// # Errors
/// `NoMemory` where memory is refused.
pub fn with_kind(kind: Kind, ty: &HlType, alloc: Global) -> Result<HlType, NoMemory>
    ensures { IfOk result (λ own. plain_ty own ≡ with_kind kind (plain_ty ty.now)) }
{
    match ty {
        HlType::Scalar(_) => Ok(HlType::Scalar(kind)),
        HlType::Vector(_, size) => Ok(HlType::Vector(kind, *size)),
        _ => ty.copied(alloc),
    }
}

/// The kind in which a kind is computed: a bool is an int.
pub fn computing_kind(kind: Kind) -> Kind
    ensures { result ≡ computing_kind kind }
{
    match kind {
        Kind::Bool => Kind::Int,
        Kind::Int => Kind::Int,
        Kind::Uint => Kind::Uint,
    }
}

/// The kind of two numbers: an int with a uint is a uint.
fn number_kind(a: Kind, b: Kind) -> Kind
    ensures { result ≡ number_kind a b }
{
    match (a, b) {
        (Kind::Int, Kind::Int) => Kind::Int,
        _ => Kind::Uint,
    }
}

/// The common kind of two operands.
pub fn common_kind(a: Kind, b: Kind) -> Kind
    ensures { result ≡ common_kind a b }
{
    number_kind(computing_kind(a), computing_kind(b))
}

/// The kind of the branches of `?:`: two bools stay bools.
pub fn branch_kind(a: Kind, b: Kind) -> Kind
    ensures { result ≡ branch_kind a b }
{
    match (a, b) {
        (Kind::Bool, Kind::Bool) => Kind::Bool,
        _ => common_kind(a, b),
    }
}

/// So many components of a kind: one is a scalar.
pub fn components_type(kind: Kind, count: u8) -> HlType
    ensures { plain_ty result ≡ components_type kind count }
{
    if count == 1 {
        HlType::Scalar(kind)
    } else {
        HlType::Vector(kind, count)
    }
}

/// Whether a type is no value.
pub fn is_void(ty: &HlType) -> bool
    ensures { result ≡ is_void (plain_ty ty.now) }
{
    match ty {
        HlType::Void => true,
        _ => false,
    }
}

/// Whether a type is a scalar.
pub fn is_scalar(ty: &HlType) -> bool
    ensures { result ≡ is_scalar (plain_ty ty.now) }
{
    match ty {
        HlType::Scalar(_) => true,
        _ => false,
    }
}

/// Whether a type is a scalar or a vector of a kind.
pub fn is_of(kind: Kind, ty: &HlType) -> bool
    ensures { result ≡ is_of kind (plain_ty ty.now) }
{
    match ty {
        HlType::Scalar(own) => kind.is_same(*own),
        HlType::Vector(own, _) => kind.is_same(*own),
        _ => false,
    }
}
