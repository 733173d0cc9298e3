//! A source over bytes in memory that gives small pieces and fails at listed calls, for tests.

ghost use Rattle.std.specs.Prelude.{◌≡◌, ◌≤◌, ◌↔◌, length, Contains, Some, IfOk, IsErr, OnErr, MatchResult};
ghost use Rattle.std.specs.Io.{ReadsAtMost};
ghost use Rattle.std.specs.Io.KnownBytes.{ReadConsumes};
ghost use Rattle.base_core.specs.Counts.{HasRisen};
ghost use Rattle.base_core.specs.Ends.{LeavesRest, RaisesBy, input_length, input_given, input_failed};

use crate::front::copy_front;
use crate::sequence::{Bytes, Calls};
use crate::source::{Failed, Source};
use std::marker::Model;

/// Bytes in memory as a source that tells what is left and fails at listed calls.
#[derive(Debug, Drop)]
pub struct MemorySource {
    bytes: Bytes,
    at: usize,
    piece: usize,
    failing: Calls,
    calls: u64,
    faults: u64,
}

impl Model for MemorySource {
    ghost use Rattle.std.specs.Prelude.{length, drop, ◌≤◌, ◌<◌};
    ghost use Rattle.base_core.specs.Ends.{MemoryInput};

    ghost Value = { MemoryInput };

    ghost view = { λ s. record { left = drop s.at s.bytes; taken = s.at; piece = s.piece; failing = s.failing; calls = s.calls; faults = s.faults } };

    ghost invariant = { λ s. (s.at ≤ length s.bytes) × (0 < s.piece) };
}

impl MemorySource {
    /// A source of these bytes that gives at most `piece` bytes in a call and fails at the calls whose
    /// numbers, from 0, stand in `failing`. It takes no memory.
    pub fn new(bytes: Bytes, piece: usize, failing: Calls) -> MemorySource
        requires { 1 ≤ piece }
        ensures { result ≡ record { left = bytes; taken = 0; piece = piece; failing = failing; calls = 0; faults = 0 } }
    {
        MemorySource {
            bytes,
            at: 0,
            piece,
            failing,
            calls: 0,
            faults: 0,
        }
    }
}

impl Source for MemorySource {
    ghost left = { λ s. Some s.left };

    ghost taken = { λ s. s.taken };

    ghost faults = { λ s. s.faults };

    fn take(&mut self, into: &mut [u8]) -> Result<usize, Failed>
        ensures within { ReadsAtMost result into.new }
        ensures bytes { ReadConsumes (Some self.old.left) (Some self.new.left) result into.new }
        ensures rest { LeavesRest result into.old into.new }
        ensures counted { RaisesBy result self.old.taken self.new.taken }
        ensures lasting { self.old.faults ≤ self.new.faults }
        ensures cause { OnErr result (HasRisen self.old.faults self.new.faults) }
        ensures fails { IsErr result ↔ Contains self.old.failing self.old.calls }
        ensures given { IfOk result (λ n. n ≡ input_length self.old (length into.old)) }
        ensures after { MatchResult result (λ n. self.new ≡ input_given self.old n) (λ _. self.new ≡ input_failed self.old) }
    {
        let fails = self.failing.as_slice().contains(&self.calls);
        self.calls = self.calls.saturating_add(1);
        if fails {
            self.faults = self.faults.saturating_add(1);
            return Err(Failed);
        }
        let count = copy_front(&self.bytes.as_slice()[self.at..], self.piece, into);
        self.at += count;
        Ok(count)
    }
}
