//! Interlocked operations and methods of buffers (HLSL, "Interlocked Functions", "Buffer Objects").

use lane_core::AtomicKind;

/// Whether an interlocked operation has an argument for the original value.
#[derive(Clone, Copy, Debug, PartialEq, Eq)]
pub enum Presence {
    Never,
    Perhaps,
    Always,
}

/// An interlocked operation: whether it compares, whether it has an original, and its kind for an `int` and for a
/// `uint`. A compare exchange has none.
#[derive(Clone, Copy, Debug, PartialEq, Eq)]
pub struct Interlocked {
    pub compares: bool,
    pub original: Presence,
    pub signed: Option<AtomicKind>,
    pub unsigned: Option<AtomicKind>,
}

/// What a method of a buffer does.
#[derive(Clone, Copy, Debug, PartialEq, Eq)]
pub enum Method {
    /// It loads so many words at an address.
    LoadsWords(u8),
    /// It stores so many words at an address.
    StoresWords(u8),
    /// It does an interlocked operation at an address.
    DoesAtomic(Interlocked),
    /// It loads an element.
    LoadsElement,
}
