//! A list with a greatest length, which contracts see as the list of its parts.
//!
//! Growth past that length is want of memory, as any other growth that is refused.

ghost use Rattle.std.specs.Prelude.{◌≡◌, ◌+◌, ◌<◌, ◌≤◌, [], ◌∷◌, ◌++◌, length, slice_get, slice_set, ◌↔◌, IsTrue, IfOk, OnOk, OnErr, OnSome, MatchOption};
ghost use Rattle.std.specs.Option.{option_copied};
ghost use Rattle.base_core.specs.Limits.{most_parts};

use std::alloc::{AllocError, AllocFailed, Global};
use std::marker::Model;

/// Memory was refused, or a list would have grown past its greatest length.
#[derive(Clone, Copy, Debug, PartialEq, Eq)]
pub struct NoMemory;

impl From<AllocError> for NoMemory {
    fn from(_refused: AllocError) -> NoMemory {
        NoMemory
    }
}

impl<T: Drop> From<AllocFailed<T>> for NoMemory {
    fn from(_refused: AllocFailed<T>) -> NoMemory {
        NoMemory
    }
}

/// A list of at most 2147483647 parts.
#[derive(Debug, Drop)]
pub struct Sequence<T> {
    parts: Vec<T>,
}

/// A list of bytes.
pub type Bytes = Sequence<u8>;

/// A list of words of 32 bits.
pub type Words = Sequence<u32>;

/// The bytes of a name or another text.
pub type Text = Sequence<u8>;

/// The numbers of calls, counted from 0.
pub type Calls = Sequence<u64>;

/// The greatest number of parts.
const MOST_PARTS: usize = 2147483647;

impl<T> Model for Sequence<T> {
    ghost use Rattle.std.specs.Prelude.{List, length, ◌≤◌};
    ghost use Rattle.std.specs.Coded.{coded_list};
    ghost use Rattle.base_core.specs.Limits.{most_parts};

    ghost Value = { List T };

    ghost coded = { coded_list T.code };

    ghost view = { λ s. s.parts.items };

    ghost invariant = { λ s. length s.parts.items ≤ most_parts };
}

impl<T> Sequence<T> {
    /// The empty list, which takes no memory.
    pub fn new(alloc: Global) -> Sequence<T>
        ensures { result ≡ [] }
    {
        Sequence {
            parts: Vec::new(alloc),
        }
    }

    /// The number of parts.
    pub fn len(&self) -> usize
        ensures value { result ≡ length self.now }
        ensures limit { result ≤ most_parts }
    {
        self.parts.len()
    }

    /// Whether there is no part.
    pub fn is_empty(&self) -> bool
        ensures { IsTrue result ↔ (self.now ≡ []) }
    {
        self.parts.is_empty()
    }

    /// The parts in order.
    pub fn as_slice(&self) -> &[T]
        ensures value { result.now ≡ self.now }
        ensures limit { length self.now ≤ most_parts }
    {
        self.parts.as_slice()
    }

    /// The part at a place, or none past the end.
    pub fn get(&self, at: usize) -> Option<&T>
        ensures value { option_copied result ≡ slice_get self.now at }
        ensures within { OnSome result (at < length self.now) }
    {
        self.parts.get(at)
    }
}

impl<T: Drop> Sequence<T> {
    /// Makes room for so many more parts.
    ///
    /// # Errors
    /// `NoMemory` where memory is refused.
    pub fn reserve(&mut self, more: usize) -> Result<(), NoMemory>
        ensures { self.new ≡ self.old }
    {
        self.parts.reserve(more)?;
        Ok(())
    }

    /// Adds a part at the end.
    ///
    /// # Errors
    /// `NoMemory` leaves the list as it was.
    pub fn push(&mut self, part: T) -> Result<(), NoMemory>
        ensures ok { OnOk result (self.new ≡ self.old ++ part ∷ []) }
        ensures err { OnErr result (self.new ≡ self.old) }
    {
        if self.parts.len() == MOST_PARTS {
            return Err(NoMemory);
        }
        self.parts.push(part)?;
        Ok(())
    }

    /// The parts of a vector, in order.
    ///
    /// # Errors
    /// `NoMemory` where the vector is longer than a list may be.
    pub fn from_vec(parts: Vec<T>) -> Result<Sequence<T>, NoMemory>
        ensures { IfOk result (λ list. list ≡ parts.items) }
    {
        if parts.len() > MOST_PARTS {
            return Err(NoMemory);
        }
        Ok(Sequence { parts })
    }

    /// The parts as a vector, in order.
    pub fn into_vec(self) -> Vec<T>
        ensures { result.items ≡ self }
    {
        self.parts
    }
}

impl<T: Copy> Sequence<T> {
    /// A copy of the parts of a slice.
    ///
    /// # Errors
    /// `NoMemory` where memory is refused.
    pub fn from_slice(alloc: Global, parts: &[T]) -> Result<Sequence<T>, NoMemory>
        ensures { IfOk result (λ list. list ≡ parts.now) }
    {
        let parts = Vec::from_slice(alloc, parts)?;
        if parts.len() > MOST_PARTS {
            return Err(NoMemory);
        }
        Ok(Sequence { parts })
    }

    /// Adds copies of the parts of a slice at the end.
    ///
    /// # Errors
    /// `NoMemory` leaves the list as it was.
    pub fn extend_from_slice(&mut self, more: &[T]) -> Result<(), NoMemory>
        ensures ok { OnOk result (self.new ≡ self.old ++ more.now) }
        ensures err { OnErr result (self.new ≡ self.old) }
    {
        if more.len() > MOST_PARTS - self.parts.len() {
            return Err(NoMemory);
        }
        self.parts.extend_from_slice(more)?;
        Ok(())
    }
}
