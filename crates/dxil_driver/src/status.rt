//! How a run of the tool ends.

ghost use Rattle.std.specs.Prelude.{◌≡◌};
ghost use Rattle.dxil_driver.specs.Refusal.{code_of};

/// How a run of the tool ends.
#[derive(Clone, Copy, Debug, PartialEq, Eq)]
pub enum Status {
    /// The result was written whole.
    Done,
    /// The input's bytes were refused.
    Refused,
    /// The words are no command.
    Usage,
    /// The input failed.
    ReadFault,
    /// The output failed, or the notes failed as a refusal's line was written.
    WriteFault,
    /// Memory was refused before anything was written to the output.
    Memory,
}

impl Status {
    /// The exit code of the process, from 0 to 5.
    pub fn code(self) -> u8
        ensures { result ≡ code_of self }
    {
        match self {
            Status::Done => 0,
            Status::Refused => 1,
            Status::Usage => 2,
            Status::ReadFault => 3,
            Status::WriteFault => 4,
            Status::Memory => 5,
        }
    }
}
