//! Bits, written a word of 32 bits at a time.

ghost use Rattle.std.specs.Prelude.{◌≡◌, [], ◌++◌, ◌+◌, ◌*◌, ◌/◌, ◌^◌, ◌%◌, ◌<◌, ◌≤◌, length, OnOk, suc};
ghost use Rattle.bc_stream.specs.Bits.{Aligned, Chunked, bits_of, low_bits};
ghost use Rattle.bc_stream.specs.Writing.{Wrote};

use base_core::{Bytes, NoMemory, Sequence};
use std::alloc::Global;
use std::marker::Model;

/// The bits of a word.
const WORD_BITS: u32 = 32;

/// One more than the greatest word.
const WORD_LIMIT: u64 = 1 << 32;

/// Chunks of fewer bits than this are written up to four at a time: with their flags they fit a word.
const JOINED_UNITS: u32 = 8;

/// The bits that were written, in order. After an error no more is to be written.
#[derive(Drop)]
pub struct BitWriter {
    /// The whole words.
    words: Bytes,
    /// The bits behind them, the first of them lowest.
    last: u64,
    /// How many bits there are in `last`.
    used: u32,
}

impl Model for BitWriter {
    ghost use Rattle.std.specs.Prelude.{ℕ, List, length, ◌≡◌, ◌++◌, ◌%◌, ◌^◌, ◌<◌};
    ghost use Rattle.bc_stream.specs.Bits.{bits_of, low_bits};

    ghost Value = { List ℕ };

    ghost view = { λ w. bits_of w.words ++ low_bits w.used w.last };

    ghost invariant = { λ w. (length w.words % 4 ≡ 0) × (w.used < 32) × (w.last < 2 ^ w.used) };
}

/// Two numbers side by side in one, the first in the lowest `width` bits.
#[inline(always)]
fn joined(width: u32, first: u64, second: u64) -> u64
    requires width { width ≤ 16 }
    requires first { first < 2 ^ width }
    requires second { second < 2 ^ 32 }
    ensures { result ≡ first + second * 2 ^ width }
{
    first + (second << width)
}

/// The lowest chunk of a number with the bit behind it that says that another follows.
#[inline(always)]
fn flagged(unit: u32, number: u64) -> u64
    requires { unit < 32 }
    ensures { result ≡ number % 2 ^ unit + 2 ^ unit }
{
    let more: u64 = 1 << unit;
    number % more + more
}

impl BitWriter {
    /// No bits.
    pub fn new(alloc: Global) -> BitWriter
        ensures { result ≡ [] }
    {
        BitWriter {
            words: Sequence::new(alloc),
            last: 0,
            used: 0,
        }
    }

    /// Writes a number of at most 32 bits in `width` bits.
    ///
    /// # Errors
    /// `NoMemory` where memory is refused, or for more than 2147483647 bytes.
    #[inline]
    pub fn put(&mut self, width: u32, number: u64) -> Result<(), NoMemory>
        requires width { width ≤ 32 }
        requires fits { number < 2 ^ width }
        ensures { OnOk result (self.new ≡ self.old ++ low_bits width number) }
    {
        let bits = self.last + (number << self.used);
        let count = self.used + width;
        if count < WORD_BITS {
            self.last = bits;
            self.used = count;
            return Ok(());
        }
        let word = (bits % WORD_LIMIT) as u32;
        self.words.extend_from_slice(&word.to_le_bytes())?;
        self.last = bits >> WORD_BITS;
        self.used = count - WORD_BITS;
        Ok(())
    }

    /// Writes two numbers of the same width, as one.
    #[inline(always)]
    fn put_two(&mut self, width: u32, first: u64, second: u64) -> Result<(), NoMemory>
        requires width { width + width ≤ 32 }
        requires first { first < 2 ^ width }
        requires second { second < 2 ^ width }
        ensures { OnOk result (self.new ≡ (self.old ++ low_bits width first) ++ low_bits width second) }
    {
        self.put(width + width, joined(width, first, second))?;
        Ok(())
    }

    /// Writes three numbers of the same width, as one.
    #[inline(always)]
    fn put_three(&mut self, width: u32, first: u64, second: u64, third: u64) -> Result<(), NoMemory>
        requires width { width + (width + width) ≤ 32 }
        requires first { first < 2 ^ width }
        requires second { second < 2 ^ width }
        requires third { third < 2 ^ width }
        ensures { OnOk result (self.new ≡ ((self.old ++ low_bits width first) ++ low_bits width second) ++ low_bits width third) }
    {
        let behind = joined(width, second, third);
        self.put(width + (width + width), joined(width, first, behind))?;
        Ok(())
    }

    /// Writes four numbers of the same width, as one.
    #[inline(always)]
    fn put_four(
        &mut self,
        width: u32,
        first: u64,
        second: u64,
        third: u64,
        fourth: u64,
    ) -> Result<(), NoMemory>
        requires width { (width + width) + (width + width) ≤ 32 }
        requires first { first < 2 ^ width }
        requires second { second < 2 ^ width }
        requires third { third < 2 ^ width }
        requires fourth { fourth < 2 ^ width }
        ensures { OnOk result (self.new ≡ (((self.old ++ low_bits width first) ++ low_bits width second) ++ low_bits width third) ++ low_bits width fourth) }
    {
        let front = joined(width, first, second);
        let behind = joined(width, third, fourth);
        self.put_two(width + width, front, behind)?;
        Ok(())
    }

    /// Writes a number in chunks, one at a time.
    fn put_single_chunks(&mut self, unit: u32, number: u64) -> Result<(), NoMemory>
        requires { (0 < unit) × (unit < 32) }
        ensures { OnOk result (Wrote (Chunked unit number) self.old self.new) }
    {
        let mut rest = number;
        while rest >= 1 << unit {
            self.put(unit + 1, flagged(unit, rest))?;
            rest >>= unit;
        }
        self.put(unit + 1, rest)?;
        Ok(())
    }

    /// Writes a number in chunks, up to four at a time.
    #[inline(always)]
    fn put_joined_chunks(&mut self, unit: u32, number: u64) -> Result<(), NoMemory>
        requires { (0 < unit) × (unit < 8) }
        ensures { OnOk result (Wrote (Chunked unit number) self.old self.new) }
    {
        let mut rest = number;
        while rest >> unit >> unit >> unit >= 1 << unit {
            let second = rest >> unit;
            let third = second >> unit;
            let fourth = third >> unit;
            self.put_four(
                unit + 1,
                flagged(unit, rest),
                flagged(unit, second),
                flagged(unit, third),
                flagged(unit, fourth),
            )?;
            rest = fourth >> unit;
        }
        self.put_last_chunks(unit, rest)?;
        Ok(())
    }

    /// Writes a number of at most four chunks.
    #[inline(always)]
    fn put_last_chunks(&mut self, unit: u32, number: u64) -> Result<(), NoMemory>
        requires unit { (0 < unit) × (unit < 8) }
        requires few { number / 2 ^ unit / 2 ^ unit / 2 ^ unit < 2 ^ unit }
        ensures { OnOk result (Wrote (Chunked unit number) self.old self.new) }
    {
        let width = unit + 1;
        let more: u64 = 1 << unit;
        if number < more {
            self.put(width, number)?;
            return Ok(());
        }
        let first = flagged(unit, number);
        let second = number >> unit;
        if second < more {
            self.put_two(width, first, second)?;
            return Ok(());
        }
        let third = second >> unit;
        let second = flagged(unit, second);
        if third < more {
            self.put_three(width, first, second, third)?;
            return Ok(());
        }
        let fourth = third >> unit;
        self.put_four(width, first, second, flagged(unit, third), fourth)?;
        Ok(())
    }

    /// Writes a number in as few chunks of `unit` bits as it needs, each with the bit that says whether another follows.
    ///
    /// # Errors
    /// As `put`.
    #[inline(always)]
    pub fn put_chunks(&mut self, unit: u32, number: u64) -> Result<(), NoMemory>
        requires { (0 < unit) × (unit < 32) }
        ensures { OnOk result (Wrote (Chunked unit number) self.old self.new) }
    {
        if unit >= JOINED_UNITS {
            self.put_single_chunks(unit, number)?;
            return Ok(());
        }
        self.put_joined_chunks(unit, number)?;
        Ok(())
    }

    /// Writes zeros up to the next whole word.
    ///
    /// # Errors
    /// As `put`.
    pub fn align(&mut self) -> Result<(), NoMemory>
        ensures aligned { OnOk result (Wrote Aligned self.old self.new) }
        ensures whole { OnOk result (length self.new % 32 ≡ 0) }
    {
        if self.used == 0 {
            return Ok(());
        }
        let word = self.last as u32;
        self.words.extend_from_slice(&word.to_le_bytes())?;
        self.last = 0;
        self.used = 0;
        Ok(())
    }

    /// Writes whole words.
    ///
    /// # Errors
    /// As `put`.
    pub fn put_words(&mut self, words: &Bytes) -> Result<(), NoMemory>
        requires aligned { length self.old % 32 ≡ 0 }
        requires whole { length words.now % 4 ≡ 0 }
        ensures { OnOk result (self.new ≡ self.old ++ bits_of words.now) }
    {
        self.words.extend_from_slice(words.as_slice())?;
        Ok(())
    }

    /// The bytes of the bits.
    pub fn into_bytes(self) -> Bytes
        requires { length self % 32 ≡ 0 }
        ensures bits { bits_of result ≡ self }
        ensures whole { length result % 4 ≡ 0 }
    {
        self.words
    }
}
