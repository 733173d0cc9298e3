//! A source over bytes in memory that never fails.

ghost use Rattle.std.specs.Prelude.{◌≡◌, ◌≤◌, min, length, Some, Ok, OnErr};
ghost use Rattle.std.specs.Io.{ReadsAtMost};
ghost use Rattle.std.specs.Io.KnownBytes.{ReadConsumes};
ghost use Rattle.base_core.specs.Counts.{HasRisen};
ghost use Rattle.base_core.specs.Ends.{LeavesRest, RaisesBy};

use crate::front::copy_front;
use crate::sequence::Bytes;
use crate::source::{Failed, Source};
use std::marker::Model;

/// Bytes in memory as a source that tells what is left and never fails.
#[derive(Debug, Drop)]
pub struct PlainSource {
    bytes: Bytes,
    at: usize,
}

impl Model for PlainSource {
    ghost use Rattle.std.specs.Prelude.{length, drop, ◌≤◌};
    ghost use Rattle.base_core.specs.Ends.{PlainInput};

    ghost Value = { PlainInput };

    ghost view = { λ s. record { left = drop s.at s.bytes; taken = s.at } };

    ghost invariant = { λ s. s.at ≤ length s.bytes };
}

impl PlainSource {
    /// A source of these bytes. It takes no memory.
    pub fn new(bytes: Bytes) -> PlainSource
        ensures { result ≡ record { left = bytes; taken = 0 } }
    {
        PlainSource { bytes, at: 0 }
    }
}

impl Source for PlainSource {
    ghost left = { λ s. Some s.left };

    ghost taken = { λ s. s.taken };

    ghost faults = { λ _. 0 };

    fn take(&mut self, into: &mut [u8]) -> Result<usize, Failed>
        ensures within { ReadsAtMost result into.new }
        ensures bytes { ReadConsumes (Some self.old.left) (Some self.new.left) result into.new }
        ensures rest { LeavesRest result into.old into.new }
        ensures counted { RaisesBy result self.old.taken self.new.taken }
        ensures lasting { 0 ≤ 0 }
        ensures cause { OnErr result (HasRisen 0 0) }
        ensures given { result ≡ Ok (min (length self.old.left) (length into.old)) }
    {
        let most = into.len();
        let count = copy_front(&self.bytes.as_slice()[self.at..], most, into);
        self.at += count;
        Ok(count)
    }
}
