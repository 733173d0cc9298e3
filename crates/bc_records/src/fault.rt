//! Why a block list records no module.

ghost use Rattle.std.specs.Prelude.{◌≡◌};
ghost use Rattle.bc_records.specs.declared.fault.RecordFault.TheVariants.{Memory};

use base_core::NoMemory;
use thiserror::Error;

/// Why a block list records no module.
#[derive(Clone, Copy, Debug, PartialEq, Eq, Error)]
pub enum RecordFault {
    /// The fault of the list.
    #[error("records {kind} at block {block} record {at}")]
    Bad {
        /// What is wrong:
        /// - 1: a block or record that is needed is missing.
        /// - 2: a record has another number of operands.
        /// - 3: a number names nothing, is above its field, or isn't the one that the table gives.
        /// - 6: a record or block can't stand where it does.
        /// - 7: a character is above 255.
        /// - 8: a block, a code or a form of a record isn't read yet.
        kind: u8,
        /// The block, counted from 0 among all blocks in the order in which they begin.
        block: u32,
        /// The record, counted from 0 in its block. The head of a block counts as record 0, and its end as the
        /// record behind the last.
        at: u32,
    },
    /// Memory was refused.
    #[error("out of memory")]
    Memory,
}

impl From<NoMemory> for RecordFault {
    ghost from_gives = { λ _ fault. fault ≡ Memory };

    fn from(_refused: NoMemory) -> RecordFault {
        RecordFault::Memory
    }
}
