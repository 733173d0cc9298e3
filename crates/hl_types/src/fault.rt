//! Why a tree has no program.

ghost use Rattle.std.specs.Prelude.{◌≡◌};
ghost use Rattle.hl_types.specs.declared.fault.RuleFault.TheVariants.{Memory};

use base_core::NoMemory;
use thiserror::Error;

/// Why a tree has no program.
#[derive(Clone, Copy, Debug, PartialEq, Eq, Error)]
pub enum RuleFault {
    /// A typing rule is broken. `at` is the least index of a token at which one is, or the number of tokens for the end,
    /// and `rule` the least number of those that are broken there, from 1 to 42.
    #[error("rule {rule} at token {at}")]
    Broken { rule: u8, at: usize },
    /// Memory was refused.
    #[error("out of memory")]
    Memory,
}

impl From<NoMemory> for RuleFault {
    ghost from_gives = { λ _ fault. fault ≡ Memory };

    fn from(_refused: NoMemory) -> RuleFault {
        RuleFault::Memory
    }
}
