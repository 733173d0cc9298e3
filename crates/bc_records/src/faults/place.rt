//! Where a walk over the records of a body stands.

/// What the records before say.
#[derive(Clone, Copy, Drop)]
pub struct Place {
    /// The number of the next value.
    pub next: u64,
    /// Whether the number of basic blocks was said.
    pub declared: bool,
    /// How many RET there were, each of which ends a basic block.
    pub returns: u64,
    /// How many basic blocks are declared, where that is said.
    pub blocks: Option<u64>,
}
