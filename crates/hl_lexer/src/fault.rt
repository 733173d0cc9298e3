//! Why a text has no tokens.

ghost use Rattle.std.specs.Prelude.{◌≡◌};
ghost use Rattle.hl_lexer.specs.declared.fault.LexFault.TheVariants.{Memory};

use base_core::{NoMemory, Place};
use thiserror::Error;

/// Why a text has no tokens.
#[derive(Clone, Copy, Debug, PartialEq, Eq, Error)]
pub enum LexFault {
    /// No token begins at this place.
    #[error("{}:{}: bad byte", .0.line, .0.column)]
    BadByte(Place),
    /// The number at this place is above 4294967295.
    #[error("{}:{}: number too large", .0.line, .0.column)]
    NumberTooLarge(Place),
    /// Another token begins behind 262144 tokens.
    #[error("too many tokens")]
    TooManyTokens,
    /// Memory was refused.
    #[error("out of memory")]
    Memory,
}

impl From<NoMemory> for LexFault {
    ghost from_gives = { λ _ fault. fault ≡ Memory };

    fn from(_refused: NoMemory) -> LexFault {
        LexFault::Memory
    }
}
