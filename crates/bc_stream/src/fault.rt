//! Why bytes spell no blocks.

ghost use Rattle.std.specs.Prelude.{◌≡◌};
ghost use Rattle.bc_stream.specs.declared.fault.StreamFault.TheVariants.{Bad, Memory};

use base_core::NoMemory;
use thiserror::Error;

/// Other first four bytes.
pub(crate) const WRONG_MAGIC: u8 = 1;

/// The end of the bytes inside a piece, or in the place of a block's next piece.
pub(crate) const END_OF_BYTES: u8 = 2;

/// An abbreviation id that isn't defined.
pub(crate) const UNDEFINED_ID: u8 = 3;

/// A number above 64 bits, a block id or a code above 32 bits, or a width above 64.
pub(crate) const TOO_LARGE: u8 = 4;

/// A block that ends elsewhere than its length says.
pub(crate) const WRONG_LENGTH: u8 = 5;

/// Something else than a block outside all blocks.
pub(crate) const OUTSIDE_BLOCKS: u8 = 7;

/// More than 16 levels.
pub(crate) const TOO_DEEP: u8 = 9;

/// A definition of an abbreviation or the block of abbreviations.
pub(crate) const NOT_BUILT: u8 = 10;

/// Why bytes spell no blocks.
#[derive(Clone, Copy, Debug, PartialEq, Eq, Error)]
pub enum StreamFault {
    /// The fault of the bytes.
    #[error("stream {kind} at bit {bit}")]
    Bad {
        /// What is wrong:
        /// - 1: the first four bytes aren't `BC` and 0xC0DE.
        /// - 2: the bytes end inside a piece, or in the place of a block's next piece.
        /// - 3: an abbreviation id isn't defined.
        /// - 4: a number is above 64 bits, a block id or a code above 32 bits, or a width above 64.
        /// - 5: a block ends elsewhere than its length says.
        /// - 7: outside all blocks stands something else than a block.
        /// - 9: there are more than 16 levels of blocks.
        /// - 10: an abbreviation is defined, or a block of abbreviations begins. These aren't read yet.
        kind: u8,
        /// The first bit of the piece that is at fault, counted from the first bit of the bytes.
        bit: u64,
    },
    /// Memory was refused.
    #[error("out of memory")]
    Memory,
}

impl From<NoMemory> for StreamFault {
    ghost from_gives = { λ _ fault. fault ≡ Memory };

    fn from(_refused: NoMemory) -> StreamFault {
        StreamFault::Memory
    }
}

/// A fault of the piece at a place.
pub(crate) fn fault(kind: u8, at: usize) -> StreamFault
    ensures { result ≡ Bad kind at }
{
    StreamFault::Bad {
        kind,
        bit: at as u64,
    }
}
