//! Types (HLSL, "Types").

ghost use Rattle.std.specs.Prelude.{◌≡◌, IfOk};
ghost use Rattle.hl_meaning.specs.Types.{ty_eq};

use base_core::NoMemory;
use sqlite_items::Boxed;
use std::alloc::Global;

/// What a scalar, or a component of a vector, is.
#[derive(Clone, Copy, Debug, PartialEq, Eq)]
pub enum Kind {
    Bool,
    Int,
    Uint,
}

impl Kind {
    ghost use Rattle.hl_meaning.specs.Types.{kind_eq};

    /// Whether two kinds are the same.
    pub fn is_same(self, other: Kind) -> bool
        ensures { result ≡ kind_eq self other }
    {
        self == other
    }
}

/// A type: no value, a scalar, a vector of 2, 3 or 4 components, an array of 1 to 65536 elements, or the struct of a
/// number.
#[derive(Debug, Drop)]
pub enum HlType {
    Void,
    Scalar(Kind),
    Vector(Kind, u8),
    Array(Boxed<HlType>, u32),
    Struct(u32),
}

impl HlType {
    ghost use Rattle.hl_meaning.specs.Views.{plain_ty};

    /// Whether two types are the same.
    pub fn is_same(&self, other: &HlType) -> bool
        ensures { result ≡ ty_eq (plain_ty self.now) (plain_ty other.now) }
    {
        match (self, other) {
            (HlType::Void, HlType::Void) => true,
            (HlType::Scalar(kind), HlType::Scalar(other)) => kind.is_same(*other),
            (HlType::Vector(kind, size), HlType::Vector(other, length)) => {
                kind.is_same(*other) && size == length
            }
            (HlType::Array(element, size), HlType::Array(other, length)) => {
                element.get().is_same(other.get()) && size == length
            }
            (HlType::Struct(number), HlType::Struct(other)) => number == other,
            _ => false,
        }
    }

    /// A copy.
    ///
    /// # Errors
    /// `NoMemory` where memory is refused.
    pub fn copied(&self, alloc: Global) -> Result<HlType, NoMemory>
        ensures { IfOk result (λ copy. plain_ty copy ≡ plain_ty self.now) }
    {
        Ok(match self {
            HlType::Void => HlType::Void,
            HlType::Scalar(kind) => HlType::Scalar(*kind),
            HlType::Vector(kind, size) => HlType::Vector(*kind, *size),
            HlType::Array(element, length) => {
                let element = element.get().copied(alloc)?;
                HlType::Array(Boxed::new(alloc, element)?, *length)
            }
            HlType::Struct(number) => HlType::Struct(*number),
        })
    }
}
