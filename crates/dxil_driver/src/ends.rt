//! What every tool does at its ends: it takes the words that it is started with, writes its result to the output, and
//! tells in one line of the notes why there is none.

ghost use Rattle.std.specs.Prelude.{◌≡◌, ◌≤◌, ◌⊎◌, IfErr};
ghost use Rattle.std.specs.Io.KnownBytes.{Appends, Keeps};
ghost use Rattle.dxil_driver.specs.Refusal.{line_of, write_fault_line};
ghost use Rattle.dxil_driver.specs.Tool.{Cuts, Tells, WritesOrCuts};
ghost use Rattle.dxil_driver.specs.declared.refusal.Refusal.{Refusal};

use crate::status::Status;
use base_core::{Sink, write_whole};
use std::env::{self, Env};
use std::io::ErrorKind;

/// The words of the command line, without the program's name.
///
/// # Errors
/// The status that the program ends with: `Usage` where a word isn't UTF-8, and `Memory` where memory is refused.
pub fn words<R: Env + AllocGlobal>(rt: &R) -> Result<Vec<String>, Status>
    ensures { IfErr result (λ status. (status ≡ Status.Usage) ⊎ (status ≡ Status.Memory)) }
{
    match env::args(rt) {
        Ok(words) => match words.skip(1).collect(rt.alloc()) {
            Ok(words) => Ok(words),
            Err(_refused) => Err(Status::Memory),
        },
        Err(error) if error.kind() == ErrorKind::OutOfMemory => Err(Status::Memory),
        Err(_not_text) => Err(Status::Usage),
    }
}

/// What is told where memory is refused.
pub fn out_of_memory() -> &'static [u8]
    ensures { result.now ≡ line_of Refusal.Memory }
{
    b"error: out of memory\n"
}

/// What is told where the output fails.
fn write_fault() -> &'static [u8]
    ensures { result.now ≡ write_fault_line }
{
    b"error: write fault\n"
}

/// Writes the line to the notes, and answers the status where it was written whole.
pub fn tell<N: Sink>(notes: &mut N, status: Status, line: &[u8]) -> Status
    ensures told { Tells N.written N.faults notes.old notes.new status line.now result }
    ensures lasting { N.faults notes.old ≤ N.faults notes.new }
{
    match write_whole(notes, line) {
        Ok(()) => status,
        Err(_) => Status::WriteFault,
    }
}

/// Writes a result to the output, and where that fails the line of it to the notes.
pub fn deliver<O: Sink, N: Sink>(output: &mut O, notes: &mut N, bytes: &[u8]) -> Status
    ensures ends { (result ≡ Status.Done) ⊎ (result ≡ Status.WriteFault) }
    ensures done { result ≡ Status.Done → Appends (O.written output.old) (O.written output.new) bytes.now
        × Keeps (N.written notes.old) (N.written notes.new) }
    ensures fault { result ≡ Status.WriteFault → Cuts O.written O.faults output.old output.new bytes.now
        × WritesOrCuts N.written N.faults notes.old notes.new write_fault_line }
{
    match write_whole(output, bytes) {
        Ok(()) => Status::Done,
        Err(_) => tell(notes, Status::WriteFault, write_fault()),
    }
}
