//! The real input and output of a process as a source and a sink.
//!
//! They tell the bytes that the reader and the writer tell. What stands outside the process is not known
//! here, so over the standard streams they tell none.

ghost use Rattle.std.specs.Prelude.{◌≡◌, ◌<◌, ◌≤◌, length, IfOk, OnErr, MatchResult};
ghost use Rattle.std.specs.Io.{ReadsAtMost, WritesAtMost};
ghost use Rattle.std.specs.Io.KnownBytes.{ReadConsumes, WriteAppends};
ghost use Rattle.base_core.specs.Counts.{HasRisen, next_count};
ghost use Rattle.base_core.specs.Ends.{LeavesRest, RaisesBy};

use crate::sink::Sink;
use crate::source::{Failed, Source};
use std::io::{Read, Write};

/// The greatest number of bytes that are read in a call.
const PIECE: usize = 65536;

/// A reader of the standard library as a source.
#[derive(Drop)]
pub struct HostSource<R> {
    input: R,
    taken: u64,
    faults: u64,
}

impl<R: Read> HostSource<R> {
    /// A source that gives what the reader gives.
    pub fn new(input: R) -> HostSource<R>
        ensures left { ⟦<HostSource<R> as Source>⟧.left result ≡ R.remaining input }
        ensures taken { ⟦<HostSource<R> as Source>⟧.taken result ≡ 0 }
        ensures faults { ⟦<HostSource<R> as Source>⟧.faults result ≡ 0 }
    {
        HostSource {
            input,
            taken: 0,
            faults: 0,
        }
    }
}

impl<R: Read> Source for HostSource<R> {
    ghost left = { λ s. R.remaining s.input };

    ghost taken = { λ s. s.taken };

    ghost faults = { λ s. s.faults };

    /// Reads once. An error of the reader is a fault, and so is a call where the number of bytes taken has
    /// no room left.
    fn take(&mut self, into: &mut [u8]) -> Result<usize, Failed>
        ensures within { ReadsAtMost result into.new }
        ensures bytes { ReadConsumes (R.remaining self.old.input) (R.remaining self.new.input) result into.new }
        ensures rest { LeavesRest result into.old into.new }
        ensures counted { RaisesBy result self.old.taken self.new.taken }
        ensures lasting { self.old.faults ≤ self.new.faults }
        ensures cause { OnErr result (HasRisen self.old.faults self.new.faults) }
        ensures faults { MatchResult result (λ _. self.new.faults ≡ self.old.faults) (λ _. self.new.faults ≡ next_count self.old.faults) }
    {
        let mut piece = [0u8; PIECE];
        let room = (u64::MAX - self.taken) as usize;
        let most = into.len().min(PIECE).min(room);
        match self.input.read(&mut piece[..most]) {
            Ok(count) if count > 0 || room > 0 || into.is_empty() => {
                into[..count].copy_from_slice(&piece[..count]);
                self.taken += count as u64;
                Ok(count)
            }
            _ => {
                self.faults = self.faults.saturating_add(1);
                Err(Failed)
            }
        }
    }
}

/// A writer of the standard library as a sink.
#[derive(Drop)]
pub struct HostSink<W> {
    output: W,
    faults: u64,
}

impl<W: Write> HostSink<W> {
    /// A sink that gives its bytes to the writer.
    pub fn new(output: W) -> HostSink<W>
        ensures written { ⟦<HostSink<W> as Sink>⟧.written result ≡ W.contents output }
        ensures faults { ⟦<HostSink<W> as Sink>⟧.faults result ≡ 0 }
    {
        HostSink { output, faults: 0 }
    }
}

impl<W: Write> Sink for HostSink<W> {
    ghost written = { λ s. W.contents s.output };

    ghost faults = { λ s. s.faults };

    /// Writes once. An error of the writer is a fault, and so is that it takes no byte of a piece.
    fn give(&mut self, bytes: &[u8]) -> Result<usize, Failed>
        ensures within { WritesAtMost result bytes.now }
        ensures bytes { WriteAppends (W.contents self.old.output) (W.contents self.new.output) result bytes.now }
        ensures some { IfOk result (λ n. 0 < length bytes.now → 0 < n) }
        ensures lasting { self.old.faults ≤ self.new.faults }
        ensures cause { OnErr result (HasRisen self.old.faults self.new.faults) }
        ensures faults { MatchResult result (λ _. self.new.faults ≡ self.old.faults) (λ _. self.new.faults ≡ next_count self.old.faults) }
    {
        match self.output.write(bytes) {
            Ok(count) if count > 0 || bytes.is_empty() => Ok(count),
            _ => {
                self.faults = self.faults.saturating_add(1);
                Err(Failed)
            }
        }
    }
}
