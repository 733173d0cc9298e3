//! The choice among candidates by the least sum of costs (HLSL, "Overload Resolution").

use base_core::Sequence;
use hl_meaning::{Copying, HlType};

/// A parameter of a candidate: its type, and how its argument is passed.
#[derive(Debug, Drop)]
pub struct Param {
    pub ty: HlType,
    pub copying: Copying,
}

/// The parameters of a candidate, in order.
pub type Params = Sequence<Param>;

/// A function that a call may mean.
#[derive(Debug, Drop)]
pub struct Candidate {
    pub params: Params,
}

/// Why no candidate was chosen.
#[derive(Clone, Copy, Debug, PartialEq, Eq)]
pub enum ChoiceFault {
    /// No candidate fits.
    NoMatch,
    /// Several have the least sum of costs. These are the first two of them.
    Ambiguous { first: usize, second: usize },
}
