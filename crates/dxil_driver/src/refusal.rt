//! Why a run of the tool ends before its first write to the output.

ghost use Rattle.std.specs.Prelude.{◌≡◌, IfOk, string_bytes};
ghost use Rattle.dxil_driver.specs.Refusal.{status_of, line_of, refusal_of_stop, refusal_of_compile, refusal_of_check};

use crate::checker::CheckFault;
use crate::compiler::CompileFault;
use crate::status::Status;
use base_core::{NoMemory, Place, ReadStop};
use bc_records::RecordFault;
use bc_stream::StreamFault;
use dx_container::ContainerFault;
use hl_lexer::LexFault;
use hl_parser::ParseFault;
use hl_types::RuleFault;
use ir_core::Spot;
use std::alloc::{AllocError, Global};

/// Why a run of the tool ends before its first write to the output, in the order in which the causes are
/// looked at; memory may be refused at any of these places.
#[derive(Clone, Copy, Debug, PartialEq, Eq)]
pub enum Refusal {
    /// The words are no command.
    Usage,
    /// The input failed.
    ReadFault,
    /// The input has more bytes than the command takes.
    TooLong,
    /// No token of the source begins at this place.
    BadByte(Place),
    /// The number at this place is above 4294967295.
    NumberTooLarge(Place),
    /// The source has more than 262144 tokens.
    TooManyTokens,
    /// The source is no program: its tokens through the one at this place begin none, or it ends there too early.
    Syntax(Place),
    /// The source is nested too deep.
    TooDeep,
    /// The source breaks this typing rule at this place, and none before it.
    Rule { rule: u8, place: Place },
    /// The source isn't of the form that is compiled so far.
    NotBuilt,
    /// The bytes are no container.
    Container(ContainerFault),
    /// The bitcode spells no blocks.
    Stream { kind: u8, bit: u64 },
    /// The blocks record no module.
    Records { kind: u8, block: u32, at: u32 },
    /// The module breaks a rule of the validator.
    Broken { rule: u8, spot: Spot },
    /// Memory was refused.
    Memory,
}

impl Refusal {
    /// The status that the run ends with where the line can be written whole.
    pub fn status(self) -> Status
        ensures { result ≡ status_of self }
    {
        match self {
            Refusal::Usage => Status::Usage,
            Refusal::ReadFault => Status::ReadFault,
            Refusal::Memory => Status::Memory,
            Refusal::TooLong
            | Refusal::BadByte(_)
            | Refusal::NumberTooLarge(_)
            | Refusal::TooManyTokens
            | Refusal::Syntax(_)
            | Refusal::TooDeep
            | Refusal::Rule { .. }
            | Refusal::NotBuilt
            | Refusal::Container(_)
            | Refusal::Stream { .. }
            | Refusal::Records { .. }
            | Refusal::Broken { .. } => Status::Refused,
        }
    }

    /// The line for the notes, with its line feed.
    ///
    /// # Errors
    /// `AllocError` where memory is refused.
    pub fn line(self, alloc: Global) -> Result<String, AllocError>
        ensures { IfOk result (λ line. string_bytes line ≡ line_of self) }
    {
        match self {
            Refusal::Usage => format!(in alloc;
                "usage: dxil_cli compile [--target cs_6_0] [--entry NAME] | check\n"
            ),
            Refusal::ReadFault => format!(in alloc; "error: read fault\n"),
            Refusal::TooLong => format!(in alloc; "error: too long\n"),
            Refusal::BadByte(Place { line, column }) => {
                format!(in alloc; "{line}:{column}: bad byte\n")
            }
            Refusal::NumberTooLarge(Place { line, column }) => {
                format!(in alloc; "{line}:{column}: number too large\n")
            }
            Refusal::TooManyTokens => format!(in alloc; "error: too many tokens\n"),
            Refusal::Syntax(Place { line, column }) => {
                format!(in alloc; "{line}:{column}: syntax\n")
            }
            Refusal::TooDeep => format!(in alloc; "error: too deep\n"),
            Refusal::Rule {
                rule,
                place: Place { line, column },
            } => { format!(in alloc; "{line}:{column}: rule {rule}\n") }
            Refusal::NotBuilt => format!(in alloc; "error: not built\n"),
            Refusal::Container(ContainerFault { kind, offset }) => {
                format!(in alloc; "error: container {kind} at {offset}\n")
            }
            Refusal::Stream { kind, bit } => {
                format!(in alloc; "error: stream {kind} at bit {bit}\n")
            }
            Refusal::Records { kind, block, at } => {
                format!(in alloc; "error: records {kind} at block {block} record {at}\n")
            }
            Refusal::Broken { rule, spot } => {
                format!(in alloc; "error: broken V{rule} at {spot}\n")
            }
            Refusal::Memory => format!(in alloc; "error: out of memory\n"),
        }
    }
}

impl From<NoMemory> for Refusal {
    ghost use Rattle.dxil_driver.specs.declared.refusal.Refusal.TheVariants.{Memory};

    ghost from_gives = { λ _ refusal. refusal ≡ Memory };

    fn from(_refused: NoMemory) -> Refusal {
        Refusal::Memory
    }
}

impl From<ReadStop> for Refusal {
    ghost from_gives = { λ stop refusal. refusal ≡ refusal_of_stop stop };

    fn from(stop: ReadStop) -> Refusal {
        match stop {
            ReadStop::Fault => Refusal::ReadFault,
            ReadStop::TooLong => Refusal::TooLong,
            ReadStop::Memory => Refusal::Memory,
        }
    }
}

impl From<CompileFault> for Refusal {
    ghost from_gives = { λ fault refusal. refusal ≡ refusal_of_compile fault };

    fn from(fault: CompileFault) -> Refusal {
        match fault {
            CompileFault::TooLong => Refusal::TooLong,
            CompileFault::Lex(LexFault::BadByte(place)) => Refusal::BadByte(place),
            CompileFault::Lex(LexFault::NumberTooLarge(place)) => Refusal::NumberTooLarge(place),
            CompileFault::Lex(LexFault::TooManyTokens) => Refusal::TooManyTokens,
            CompileFault::Parse {
                fault: ParseFault::Syntax { .. },
                place,
            } => Refusal::Syntax(place),
            CompileFault::Parse {
                fault: ParseFault::TooDeep,
                ..
            } => Refusal::TooDeep,
            CompileFault::Rule {
                fault: RuleFault::Broken { rule, .. },
                place,
            } => Refusal::Rule { rule, place },
            CompileFault::Unbuilt => Refusal::NotBuilt,
            CompileFault::Lex(LexFault::Memory)
            | CompileFault::Parse {
                fault: ParseFault::Memory,
                ..
            }
            | CompileFault::Rule {
                fault: RuleFault::Memory,
                ..
            }
            | CompileFault::Memory => Refusal::Memory,
        }
    }
}

impl From<CheckFault> for Refusal {
    ghost from_gives = { λ fault refusal. refusal ≡ refusal_of_check fault };

    fn from(fault: CheckFault) -> Refusal {
        match fault {
            CheckFault::Container(fault) => Refusal::Container(fault),
            CheckFault::Stream(StreamFault::Bad { kind, bit }) => Refusal::Stream { kind, bit },
            CheckFault::Records(RecordFault::Bad { kind, block, at }) => {
                Refusal::Records { kind, block, at }
            }
            CheckFault::Rules { rule, spot } => Refusal::Broken { rule, spot },
            CheckFault::Stream(StreamFault::Memory)
            | CheckFault::Records(RecordFault::Memory)
            | CheckFault::Memory => Refusal::Memory,
        }
    }
}
