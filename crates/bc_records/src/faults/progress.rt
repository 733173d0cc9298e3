//! Where a walk over the block MODULE stands.

/// What has come in the block MODULE.
#[derive(Clone, Copy, Drop)]
pub struct Progress {
    /// Whether VERSION has come.
    pub version: bool,
    /// Whether TRIPLE has come.
    pub triple: bool,
    /// Whether DATALAYOUT has come.
    pub layout: bool,
    /// Whether a block TYPE_NEW has come.
    pub types: bool,
    /// How many blocks FUNCTION have come.
    pub bodies: usize,
}
