//! Why tokens have no tree.

ghost use Rattle.std.specs.Prelude.{◌≡◌};
ghost use Rattle.hl_parser.specs.declared.fault.ParseFault.TheVariants.{Memory};

use base_core::NoMemory;
use thiserror::Error;

/// Why tokens have no tree.
#[derive(Clone, Copy, Debug, PartialEq, Eq, Error)]
pub enum ParseFault {
    /// The tokens spell no program. `at` is the least index such that the tokens through it begin no program, or the
    /// number of tokens where all of them begin one.
    #[error("syntax at token {at}")]
    Syntax { at: usize },
    /// The tree that is spelled is deeper than 64.
    #[error("too deep")]
    TooDeep,
    /// Memory was refused.
    #[error("out of memory")]
    Memory,
}

impl From<NoMemory> for ParseFault {
    ghost from_gives = { λ _ fault. fault ≡ Memory };

    fn from(_refused: NoMemory) -> ParseFault {
        ParseFault::Memory
    }
}
