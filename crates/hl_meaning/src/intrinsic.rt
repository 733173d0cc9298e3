//! What intrinsic functions take and give (HLSL, "Intrinsic Functions").

use crate::ty::Kind;

/// What an intrinsic function takes and gives. Arguments are converted to what it takes.
#[derive(Clone, Copy, Debug, PartialEq, Eq)]
pub enum Signature {
    /// So many scalars or vectors of `int` or `uint`, all of the type of the result.
    Numbers(u8),
    /// A scalar or vector of `uint`, of the type of the result.
    Uints,
    /// A scalar or vector of `bool`. The result is a `bool`.
    Truths,
    /// A scalar or vector of `int` or `uint`. The result has the same bits in this kind.
    Bits(Kind),
    /// An atomic operation, which is a form of expression of its own.
    Atomic,
    /// Nothing. There is no result.
    Barrier,
    /// Nothing. The result is a `bool`.
    LaneTruth,
    /// Nothing. The result is a `uint`.
    LaneNumber,
    /// A `bool`. The result is a `bool`.
    Vote,
    /// A `bool`. The result is a `uint4`.
    Ballot,
    /// A scalar or vector. The result has a `bool` for each component.
    AllEqual,
    /// A scalar or vector of the type of the result, and a `uint`.
    ReadLaneAt,
    /// A scalar or vector of the type of the result.
    ReadLaneFirst,
    /// A scalar or vector of `bool`. The result has a `uint` for each component.
    CountTruths,
}
