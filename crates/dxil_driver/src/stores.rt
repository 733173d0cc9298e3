//! Kernels of literal stores: what their text says.

use base_core::{Sequence, Text};

/// One store of a literal word at a literal address in bytes.
#[derive(Clone, Copy, Debug, PartialEq, Eq)]
pub struct LiteralStore {
    pub address: u32,
    pub word: u32,
}

/// The stores in order of the text.
pub type LiteralStores = Sequence<LiteralStore>;

/// A kernel of literal stores to one byte-address buffer.
#[derive(Debug, Drop)]
pub struct FirstForm {
    /// The entry's name.
    pub entry: Text,
    /// The buffer's name, where one is declared.
    pub buffer: Option<Text>,
    /// The threads of a group along x, y and z.
    pub threads: [u32; 3],
    pub stores: LiteralStores,
}
