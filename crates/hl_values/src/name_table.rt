//! Names in order, each with what it stands for.

ghost use Rattle.std.specs.Prelude.{◌≡◌, ℕ, ◌∷◌, ◌++◌, [], List, length, map, position, slice_get, option_map, if◌then◌else◌, bytes_eq, OnOk, OnErr, ◌≤◌};
ghost use Rattle.std.specs.Option.{option_copied};
ghost use Rattle.base_core.specs.Limits.{most_parts};
ghost use Rattle.hl_values.specs.NameEntries.{noted_for};
ghost use Rattle.hl_values.specs.NameTables.{first_named, is_named, positions_from};

use base_core::{NoMemory, Sequence};
use indexmap::IndexMap;
use std::alloc::Global;
use std::marker::Model;

/// The greatest number of entries of a table.
const MOST_ENTRIES: usize = 2147483647;

/// A name, and what it stands for.
#[derive(Drop)]
struct NameEntry<'a, T> {
    name: &'a [u8],
    value: T,
}

/// At most 2147483647 names in order, each with what it stands for. A name may have several entries.
///
/// What a name stands for is found without going through the others.
#[derive(Drop)]
pub struct NameTable<'a, T> {
    entries: Vec<NameEntry<'a, T>>,
    positions: IndexMap<&'a [u8], Sequence<usize>>,
}

impl<'a, T> Model for NameTable<'a, T> {
    ghost use Rattle.std.specs.Prelude.{ℕ, List, map};
    ghost use Rattle.std.specs.Coded.{coded_list, coded_ℕ, coded×};

    ghost Value = { List (List ℕ × T) };

    ghost coded = { coded_list (coded× (coded_list coded_ℕ) T.code) };

    ghost use Rattle.hl_values.specs.NameEntries.{IsTable, entry_of};

    ghost view = { λ t. map entry_of t.entries.items };

    ghost invariant = { λ t. IsTable t.entries.items t.positions };
}

/// Notes a further position of a name.
///
/// # Errors
/// `NoMemory` leaves the noted positions as they were.
fn note_position<'a>(
    positions: &mut IndexMap<&'a [u8], Sequence<usize>>,
    alloc: Global,
    name: &'a [u8],
    at: usize,
) -> Result<(), NoMemory>
    ensures ok { OnOk result ((other : List ℕ) → noted_for positions.new other ≡ noted_for positions.old other ++ (if bytes_eq name.now other then at ∷ [] else [])) }
    ensures err { OnErr result ((other : List ℕ) → noted_for positions.new other ≡ noted_for positions.old other) }
{
    match positions.get_mut(name) {
        Some(noted) => noted.push(at),
        None => {
            let mut noted = Sequence::new(alloc);
            noted.push(at)?;
            positions.insert(name, noted)?;
            Ok(())
        }
    }
}

impl<'a, T> NameTable<'a, T> {
    /// No name, which takes no memory.
    pub fn new(alloc: Global) -> NameTable<'a, T>
        ensures { result ≡ [] }
    {
        NameTable {
            entries: Vec::new(alloc),
            positions: IndexMap::new(alloc),
        }
    }

    /// The number of entries.
    pub fn len(&self) -> usize
        ensures value { result ≡ length self.now }
        ensures limit { result ≤ most_parts }
    {
        self.entries.len()
    }

    /// The positions of all entries of a name, in order.
    pub fn positions(&self, name: &[u8]) -> &[usize]
        ensures { result.now ≡ positions_from 0 name.now self.now }
    {
        match self.positions.get(name) {
            Some(noted) => noted.as_slice(),
            None => &[],
        }
    }

    /// The position of the first entry of a name.
    pub fn position(&self, name: &[u8]) -> Option<usize>
        ensures { result ≡ position (is_named name.now) self.now }
    {
        self.positions(name).first().copied()
    }

    /// The position of the first entry of a name, as a number.
    pub fn number(&self, name: &[u8]) -> Option<u32>
        ensures { result ≡ position (is_named name.now) self.now }
    {
        let at = self.position(name)?;
        // the entries are few enough
        let _ = &self.entries;
        Some(at as u32)
    }

    /// What the entry at a position stands for, or none past the end.
    pub fn value_at(&self, at: usize) -> Option<&T>
        ensures { option_copied result ≡ option_map (λ e. e.1) (slice_get self.now at) }
    {
        let entry = self.entries.get(at)?;
        Some(&entry.value)
    }

    /// The name of the entry at a position, or none past the end.
    pub fn name_at(&self, at: usize) -> Option<&'a [u8]>
        ensures { option_map (λ name. name.now) result ≡ option_map (λ e. e.0) (slice_get self.now at) }
    {
        let entry = self.entries.get(at)?;
        Some(entry.name)
    }

    /// What the first entry of a name stands for.
    pub fn get(&self, name: &[u8]) -> Option<&T>
        ensures { option_copied result ≡ first_named self.now name.now }
    {
        let at = self.position(name)?;
        self.value_at(at)
    }
}

impl<'a, T: Drop> NameTable<'a, T> {
    /// Adds an entry at the end.
    ///
    /// # Errors
    /// `NoMemory` where memory is refused or the table has its greatest length; the table stays as it was.
    pub fn push(&mut self, name: &'a [u8], value: T) -> Result<(), NoMemory>
        ensures ok { OnOk result (self.new ≡ self.old ++ (name.now, value) ∷ []) }
        ensures err { OnErr result (self.new ≡ self.old) }
    {
        if self.entries.len() == MOST_ENTRIES {
            return Err(NoMemory);
        }
        self.entries.reserve(1)?;
        let alloc = *self.positions.allocator();
        note_position(&mut self.positions, alloc, name, self.entries.len())?;
        self.entries.push(NameEntry { name, value })?;
        Ok(())
    }
}
