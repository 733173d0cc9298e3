//! Where bytes go.

ghost use Rattle.std.specs.Prelude.{ℕ, List, ◌<◌, ◌≤◌, length, IfOk, OnErr};
ghost use Rattle.std.specs.declared.option.Option.{Option};
ghost use Rattle.std.specs.Io.{WritesAtMost};
ghost use Rattle.std.specs.Io.KnownBytes.{WriteAppends};
ghost use Rattle.base_core.specs.Counts.{HasRisen};

use crate::source::Failed;

/// Something that takes bytes in order, in pieces of its own choice.
pub trait Sink {
    // the bytes that were written so far, where the sink tells them
    ghost written: { Self → Option (List ℕ) };

    // how often the sink failed
    ghost faults: { Self → ℕ };

    /// Appends a prefix of `bytes` and answers its length, which is 0 only where `bytes` is empty.
    ///
    /// # Errors
    /// `Failed` appends nothing. That no byte of a piece is taken counts as a fault.
    fn give(&mut self, bytes: &[u8]) -> Result<usize, Failed>
        ensures within { WritesAtMost result bytes.now }
        ensures bytes { WriteAppends (written self.old) (written self.new) result bytes.now }
        ensures some { IfOk result (λ n. 0 < length bytes.now → 0 < n) }
        ensures lasting { faults self.old ≤ faults self.new }
        ensures cause { OnErr result (HasRisen (faults self.old) (faults self.new)) };
}
