//! Where bytes come from.

ghost use Rattle.std.specs.Prelude.{ℕ, List, ◌≤◌, OnErr};
ghost use Rattle.std.specs.declared.option.Option.{Option};
ghost use Rattle.std.specs.Io.{ReadsAtMost};
ghost use Rattle.std.specs.Io.KnownBytes.{ReadConsumes};
ghost use Rattle.base_core.specs.Counts.{HasRisen};
ghost use Rattle.base_core.specs.Ends.{LeavesRest, RaisesBy};

/// A source or a sink failed. Its count of faults rose, or stands at its last value.
#[derive(Clone, Copy, Debug, PartialEq, Eq)]
pub struct Failed;

/// Something that gives bytes in order, in pieces of its own choice.
pub trait Source {
    // the bytes that were not taken yet, where the source tells them
    ghost left: { Self → Option (List ℕ) };

    // how many bytes were taken so far
    ghost taken: { Self → ℕ };

    // how often the source failed
    ghost faults: { Self → ℕ };

    /// Fills a prefix of `into` with the next bytes, and answers its length.
    ///
    /// The answer 0 for an `into` that isn't empty is the end of the input.
    ///
    /// # Errors
    /// `Failed` takes nothing and leaves `into` as it was.
    fn take(&mut self, into: &mut [u8]) -> Result<usize, Failed>
        ensures within { ReadsAtMost result into.new }
        ensures bytes { ReadConsumes (left self.old) (left self.new) result into.new }
        ensures rest { LeavesRest result into.old into.new }
        ensures counted { RaisesBy result (taken self.old) (taken self.new) }
        ensures lasting { faults self.old ≤ faults self.new }
        ensures cause { OnErr result (HasRisen (faults self.old) (faults self.new)) };
}
