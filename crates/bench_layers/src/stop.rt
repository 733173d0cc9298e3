//! Why a run has no answer.

ghost use Rattle.std.specs.Prelude.{◌≡◌};
ghost use Rattle.bench_layers.specs.Codes.{code_of};

use base_core::{NoMemory, ReadStop};
use std::alloc::AllocError;
use std::io::{Error as IoError, ErrorKind};
use thiserror::Error;

/// Why a run has no answer.
#[derive(Clone, Copy, Debug, PartialEq, Eq, Error)]
pub(crate) enum Stop {
    /// The words name no layer.
    #[error("usage: bench_layers lex | parse | elaborate | sizes | inline")]
    Usage,
    /// The input failed.
    #[error("error: read fault")]
    ReadFault,
    /// The input has more than 1048576 bytes.
    #[error("error: too long")]
    TooLong,
    /// The output failed.
    #[error("error: write fault")]
    WriteFault,
    /// Memory was refused.
    #[error("error: out of memory")]
    Memory,
}

impl Stop {
    /// The exit code of the process.
    pub(crate) fn code(self) -> u8
        ensures { result ≡ code_of self }
    {
        match self {
            Stop::TooLong => 1,
            Stop::Usage => 2,
            Stop::ReadFault => 3,
            Stop::WriteFault => 4,
            Stop::Memory => 5,
        }
    }
}

impl From<IoError> for Stop {
    fn from(error: IoError) -> Stop {
        if error.kind() == ErrorKind::OutOfMemory {
            Stop::Memory
        } else {
            Stop::Usage
        }
    }
}

impl From<AllocError> for Stop {
    fn from(_refused: AllocError) -> Stop {
        Stop::Memory
    }
}

impl From<NoMemory> for Stop {
    fn from(_refused: NoMemory) -> Stop {
        Stop::Memory
    }
}

impl From<ReadStop> for Stop {
    fn from(stop: ReadStop) -> Stop {
        match stop {
            ReadStop::Fault => Stop::ReadFault,
            ReadStop::TooLong => Stop::TooLong,
            ReadStop::Memory => Stop::Memory,
        }
    }
}
