//! A sink in memory that takes small pieces, fails at listed calls and has a fixed room, for tests.

ghost use Rattle.std.specs.Prelude.{◌≡◌, ◌<◌, ◌≤◌, ◌↔◌, length, take, [], Some, IfOk, IsErr, OnErr, MatchResult};
ghost use Rattle.std.specs.Io.{WritesAtMost};
ghost use Rattle.std.specs.Io.KnownBytes.{WriteAppends};
ghost use Rattle.base_core.specs.Counts.{HasRisen};
ghost use Rattle.base_core.specs.Ends.{OutputFails, output_length, output_given, output_failed};

use crate::sequence::{Calls, NoMemory};
use crate::sink::Sink;
use crate::source::Failed;
use std::alloc::Global;
use std::marker::Model;

/// Memory of a fixed size as a sink that tells what was written and fails at listed calls.
#[derive(Debug, Drop)]
pub struct MemorySink {
    bytes: Vec<u8>,
    room: usize,
    piece: usize,
    failing: Calls,
    calls: u64,
    faults: u64,
}

impl Model for MemorySink {
    ghost use Rattle.std.specs.Prelude.{length, vec_capacity, ◌≤◌, ◌<◌};
    ghost use Rattle.base_core.specs.Ends.{MemoryOutput};

    ghost Value = { MemoryOutput };

    ghost view = { λ s. record { written = s.bytes.items; room = s.room; piece = s.piece; failing = s.failing; calls = s.calls; faults = s.faults } };

    ghost invariant = { λ s. (length s.bytes.items ≤ s.room) × (s.room ≤ vec_capacity s.bytes) × (0 < s.piece) };
}

impl MemorySink {
    /// An empty sink that holds at most `room` bytes, takes at most `piece` bytes in a call, and fails
    /// at the calls whose numbers, from 0, stand in `failing`.
    ///
    /// # Errors
    /// `NoMemory` where the memory for `room` bytes is refused.
    pub fn new(
        alloc: Global,
        room: usize,
        piece: usize,
        failing: Calls,
    ) -> Result<MemorySink, NoMemory>
        requires { 1 ≤ piece }
        ensures { IfOk result (λ sink. sink ≡ record { written = []; room = room; piece = piece; failing = failing; calls = 0; faults = 0 }) }
    {
        let bytes = Vec::with_capacity(alloc, room)?;
        Ok(MemorySink {
            bytes,
            room,
            piece,
            failing,
            calls: 0,
            faults: 0,
        })
    }

    /// The bytes that were written so far.
    pub fn written(&self) -> &[u8]
        ensures { result.now ≡ self.now.written }
    {
        self.bytes.as_slice()
    }
}

impl Sink for MemorySink {
    ghost written = { λ s. Some s.written };

    ghost faults = { λ s. s.faults };

    fn give(&mut self, bytes: &[u8]) -> Result<usize, Failed>
        ensures within { WritesAtMost result bytes.now }
        ensures bytes { WriteAppends (Some self.old.written) (Some self.new.written) result bytes.now }
        ensures some { IfOk result (λ n. 0 < length bytes.now → 0 < n) }
        ensures lasting { self.old.faults ≤ self.new.faults }
        ensures cause { OnErr result (HasRisen self.old.faults self.new.faults) }
        ensures fails { IsErr result ↔ OutputFails self.old bytes.now }
        ensures given { IfOk result (λ n. n ≡ output_length self.old (length bytes.now)) }
        ensures after { MatchResult result (λ n. self.new ≡ output_given self.old (take n bytes.now)) (λ _. self.new ≡ output_failed self.old) }
    {
        let full = !bytes.is_empty() && self.bytes.len() == self.room;
        let fails = full || self.failing.as_slice().contains(&self.calls);
        self.calls = self.calls.saturating_add(1);
        if fails {
            self.faults = self.faults.saturating_add(1);
            return Err(Failed);
        }
        let count = bytes
            .len()
            .min(self.piece)
            .min(self.room - self.bytes.len());
        let _ = self.bytes.extend_from_slice(&bytes[..count]);
        Ok(count)
    }
}
