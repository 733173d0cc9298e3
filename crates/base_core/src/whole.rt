//! All bytes of a source, and all bytes to a sink.

ghost use Rattle.std.specs.Prelude.{◌≡◌, ◌+◌, ◌<◌, ◌≤◌, ◌↔◌, length, IfSome, IfOk, OnOk, OnErr, IsErrOf};
ghost use Rattle.std.specs.Io.KnownBytes.{Appends, IsAtEnd};
ghost use Rattle.base_core.specs.Counts.{HasRisen};
ghost use Rattle.base_core.specs.Ends.{TakesFront, AppendsPart};
ghost use Rattle.base_core.specs.declared.whole.ReadStop.TheVariants.{Fault, Memory};

use crate::sequence::{Bytes, NoMemory};
use crate::sink::Sink;
use crate::source::{Failed, Source};
use std::alloc::Global;

/// The room for one call of a source.
const PIECE: usize = 65536;

/// Why a source was not read whole.
#[derive(Clone, Copy, Debug, PartialEq, Eq)]
pub enum ReadStop {
    /// The source failed.
    Fault,
    /// More bytes were taken than the limit allows.
    TooLong,
    /// Memory was refused.
    Memory,
}

impl From<Failed> for ReadStop {
    ghost from_gives = { λ _ stop. stop ≡ Fault };

    fn from(_failed: Failed) -> ReadStop {
        ReadStop::Fault
    }
}

impl From<NoMemory> for ReadStop {
    ghost from_gives = { λ _ stop. stop ≡ Memory };

    fn from(_refused: NoMemory) -> ReadStop {
        ReadStop::Memory
    }
}

/// All bytes that the source has left.
///
/// What was taken is a front of what was left, whatever the answer.
///
/// # Errors
/// `Fault` where the source fails, `TooLong` exactly where more than `limit` bytes were taken in this call,
/// and `Memory`.
pub fn read_whole<I: Source>(alloc: Global, input: &mut I, limit: usize) -> Result<Bytes, ReadStop>
    ensures whole { IfOk result (λ bytes. IfSome (I.left input.old) (λ left. bytes ≡ left)) }
    ensures end { OnOk result (IsAtEnd (I.left input.new)) }
    ensures within { IfOk result (λ bytes. length bytes ≤ limit) }
    ensures counted { IfOk result (λ bytes. I.taken input.new ≡ I.taken input.old + length bytes) }
    ensures front { TakesFront (I.left input.old) (I.left input.new) (I.taken input.old) (I.taken input.new) }
    ensures fault { IsErrOf result ReadStop.Fault → HasRisen (I.faults input.old) (I.faults input.new) }
    ensures too_long { IsErrOf result ReadStop.TooLong ↔ (I.taken input.old + limit < I.taken input.new) }
    ensures lasting { I.faults input.old ≤ I.faults input.new }
{
    let mut bytes = Bytes::new(alloc);
    let mut piece = [0u8; PIECE];
    'pieces: loop {
        let count = input.take(&mut piece)?;
        if count == 0 {
            return Ok(bytes);
        }
        if count > limit - bytes.len() {
            return Err(ReadStop::TooLong);
        }
        bytes.extend_from_slice(&piece[..count])?;
    }
}

/// Gives all the bytes to the sink. It takes no memory.
///
/// # Errors
/// `Failed` where the sink fails. A front of the bytes was appended then, and not all of them.
pub fn write_whole<O: Sink>(output: &mut O, bytes: &[u8]) -> Result<(), Failed>
    ensures whole { OnOk result (Appends (O.written output.old) (O.written output.new) bytes.now) }
    ensures part { OnErr result (AppendsPart (O.written output.old) (O.written output.new) bytes.now) }
    ensures cause { OnErr result (HasRisen (O.faults output.old) (O.faults output.new)) }
    ensures lasting { O.faults output.old ≤ O.faults output.new }
{
    let mut done = 0;
    while done < bytes.len() {
        done += output.give(&bytes[done..])?;
    }
    Ok(())
}
