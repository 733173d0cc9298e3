//! The sums that are limited.

/// The sums that are limited: what the compiled code holds, how much it branches, how deep it nests, and how much memory
/// it takes, with all calls replaced by what they call. Each stops at 4294967296.
#[derive(Clone, Copy, Debug, PartialEq, Eq)]
pub struct Sizes {
    /// The components of values, the steps of places, the words of variables, and the statements.
    pub size: u64,
    /// The `if`s, loops and jumps.
    pub branches: u64,
    /// The longest chain of statements and expressions.
    pub depth: u64,
    /// The bytes of groupshared variables.
    pub shared_bytes: u64,
    /// The words of variables, parameters, results and constants.
    pub private_words: u64,
}
