//! Blocks and records, apart from how they are spelled.

use crate::values::Values;
use sqlite_items::Items;

/// A record: its code and its values.
#[derive(Debug, Drop)]
pub struct Entry {
    pub code: u32,
    pub values: Values,
}

/// What stands in a block.
#[cycle(block_tree)]
#[derive(Debug, Drop)]
pub enum Part {
    Block(BlockTree),
    Entry(Entry),
}

/// The parts of a block, in order.
pub type Parts = Items<Part>;

/// A block: its id and its parts.
#[cycle(block_tree)]
#[derive(Debug, Drop)]
pub struct BlockTree {
    pub id: u32,
    pub parts: Parts,
}

/// The outermost blocks of a stream, in order.
pub type BlockList = Items<BlockTree>;
