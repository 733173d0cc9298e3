//! The structs that are declared so far, and the words of types.

ghost use Rattle.std.specs.Prelude.{◌≡◌, ℕ, ◌∷◌, ◌++◌, [], List, length, map, slice_get, option_map, option_and_then, drop, ◌+◌, ◌<◌, OnOk, OnErr, ◌≤◌};
ghost use Rattle.std.specs.Option.{option_copied};
ghost use Rattle.base_core.specs.Limits.{most_parts};
ghost use Rattle.hl_meaning.specs.Views.{plain_ty};
ghost use Rattle.hl_rules.specs.Scopes as scopes;
ghost use Rattle.hl_values.specs.Innermost as innermost;
ghost use Rattle.hl_values.specs.Innermost.{innermosts};
ghost use Rattle.hl_values.specs.StructTables.{plain_member, plain_structs};
ghost use Rattle.hl_values.specs.Views.{plain_type_if};
ghost use Rattle.hl_values.specs.WordCounts.{counted};

use crate::name_table::NameTable;
use crate::words::WordCount;
use base_core::{NoMemory, Sequence};
use hl_meaning::HlType;
use std::alloc::Global;
use std::marker::Model;

/// The members of a struct: their names, each with its type where it has one.
pub type MemberTable<'a> = NameTable<'a, Option<HlType>>;

/// A struct: its name, its members, its words where all of them have types, and the number of its innermost struct.
#[derive(Drop)]
pub struct StructInfo<'a> {
    name: &'a [u8],
    members: MemberTable<'a>,
    words: Option<WordCount>,
    innermost: usize,
}

/// The structs that are declared so far, each by its number.
#[derive(Drop)]
pub struct Structs<'a> {
    list: Sequence<StructInfo<'a>>,
}

impl<'a> Model for Structs<'a> {
    ghost use Rattle.std.specs.Prelude.{ℕ, List, Option, map};
    ghost use Rattle.std.specs.Coded.{coded_list, coded_option, coded_ℕ, coded×};
    ghost use Rattle.hl_meaning.specs.declared.ty.HlType.{HlType};

    ghost Value = { List (List ℕ × List (List ℕ × Option HlType)) };

    ghost use Rattle.hl_meaning.specs.contracts.ty.HlType as held_type;

    ghost coded = { coded_list (coded× (coded_list coded_ℕ) (coded_list (coded× (coded_list coded_ℕ) (coded_option held_type.the_row.coded)))) };

    ghost use Rattle.hl_values.specs.StructEntries.{AreHeld, members_of};

    ghost view = { λ s. map members_of s.list };

    ghost invariant = { λ s. AreHeld s.list };
}

/// The struct that a type is, alone or in arrays of one element.
fn lone_struct(ty: &HlType) -> Option<u32>
    ensures { result ≡ innermost.lone_struct (plain_ty ty.now) }
{
    match ty {
        HlType::Void => None,
        HlType::Scalar(_) => None,
        HlType::Vector(_, _) => None,
        HlType::Array(element, length) => {
            if *length == 1 {
                lone_struct(element.get())
            } else {
                None
            }
        }
        HlType::Struct(number) => Some(*number),
    }
}

/// Such a struct of a type that may not be known.
fn lone_struct_if(ty: &Option<HlType>) -> Option<u32>
    ensures { result ≡ innermost.lone_struct_if (plain_type_if ty.now) }
{
    match ty {
        Some(ty) => lone_struct(ty),
        None => None,
    }
}

/// Such a struct of the only member of a struct.
fn lone_member(members: &MemberTable) -> Option<u32>
    ensures { result ≡ innermost.lone_member members.now }
{
    if members.len() != 1 {
        return None;
    }
    lone_struct_if(members.value_at(0)?)
}

impl<'a> Structs<'a> {
    /// No struct, which takes no memory.
    pub fn new(alloc: Global) -> Structs<'a>
        ensures { result ≡ [] }
    {
        Structs {
            list: Sequence::new(alloc),
        }
    }

    /// The number of structs.
    pub fn len(&self) -> usize
        ensures value { result ≡ length self.now }
        ensures limit { result ≤ most_parts }
    {
        self.list.len()
    }

    /// The name of a struct, or none where no struct has the number.
    pub fn name(&self, number: usize) -> Option<&'a [u8]>
        ensures { option_map (λ name. name.now) result ≡ option_map (λ d. d.0) (slice_get self.now number) }
    {
        let info = self.list.get(number)?;
        Some(info.name)
    }

    /// The members of a struct, or none where no struct has the number.
    pub fn members(&self, number: usize) -> Option<&MemberTable<'a>>
        ensures { option_copied result ≡ option_map (λ d. d.1) (slice_get self.now number) }
    {
        let info = self.list.get(number)?;
        Some(&info.members)
    }

    /// The words of a struct, where all of its members have types.
    pub fn words(&self, number: usize) -> Option<WordCount>
        ensures { result ≡ option_map counted (option_and_then (λ d. d.words) (slice_get (plain_structs self.now) number)) }
    {
        let info = self.list.get(number)?;
        info.words
    }

    /// The innermost struct of a struct, by its number: it has the same words, one for one. A struct whose only member is
    /// a struct, alone or in arrays of one element, has the innermost struct of that one, and another is its own.
    pub fn innermost(&self, number: usize) -> Option<usize>
        ensures { result ≡ slice_get (innermosts self.now) number }
    {
        let info = self.list.get(number)?;
        Some(info.innermost)
    }

    /// The words of a type, where all that it is made of has types.
    pub fn type_words(&self, ty: &HlType) -> Option<WordCount>
        ensures { result ≡ option_map counted (scopes.type_words (plain_structs self.now) (plain_ty ty.now)) }
    {
        match ty {
            HlType::Void => Some(WordCount::Few(0)),
            HlType::Scalar(_) => Some(WordCount::Few(1)),
            HlType::Vector(_, size) => Some(WordCount::Few(u64::from(*size))),
            HlType::Array(element, length) => {
                let words = self.type_words(element.get())?;
                Some(words.times(*length))
            }
            HlType::Struct(number) => self.words(*number as usize),
        }
    }

    /// The words of a type that may not be known.
    pub fn words_if(&self, ty: &Option<HlType>) -> Option<WordCount>
        ensures { result ≡ option_map counted (scopes.words_if (plain_structs self.now) (plain_type_if ty.now)) }
    {
        match ty {
            Some(ty) => self.type_words(ty),
            None => None,
        }
    }
}

impl<'a> Structs<'a> {
    /// The words of the members from one on, where all of them have types.
    fn words_from(
        &self,
        members: &MemberTable<'a>,
        at: usize,
        behind: Option<WordCount>,
    ) -> Option<WordCount>
        requires at { at < length members.now }
        requires behind { behind ≡ option_map counted (scopes.members_words (plain_structs self.now) (map plain_member (drop (at + 1) members.now))) }
        ensures { result ≡ option_map counted (scopes.members_words (plain_structs self.now) (map plain_member (drop at members.now))) }
    {
        let ty = members.value_at(at)?;
        let words = self.words_if(ty)?;
        let more = behind?;
        Some(words.plus(more))
    }

    /// The words of members together, where all of them have types.
    fn members_words(&self, members: &MemberTable<'a>) -> Option<WordCount>
        ensures { result ≡ option_map counted (scopes.members_words (plain_structs self.now) (map plain_member members.now)) }
    {
        let mut words = Some(WordCount::Few(0));
        for at in (0..members.len()).rev() {
            words = self.words_from(members, at, words);
        }
        words
    }

    /// The innermost struct of a next struct of these members.
    fn innermost_of(&self, members: &MemberTable<'a>) -> usize
        ensures { result ≡ innermost.innermost_in (innermosts self.now) members.now }
    {
        match lone_member(members) {
            Some(number) => match self.innermost(number as usize) {
                Some(innermost) => innermost,
                None => self.list.len(),
            },
            None => self.list.len(),
        }
    }

    /// Adds a struct of these members at the end.
    ///
    /// # Errors
    /// `NoMemory` leaves the structs as they were.
    pub fn push(&mut self, name: &'a [u8], members: MemberTable<'a>) -> Result<(), NoMemory>
        ensures ok { OnOk result (self.new ≡ self.old ++ (name.now, members.entry) ∷ []) }
        ensures err { OnErr result (self.new ≡ self.old) }
    {
        let words = self.members_words(&members);
        let innermost = self.innermost_of(&members);
        self.list.push(StructInfo {
            name,
            members,
            words,
            innermost,
        })?;
        Ok(())
    }
}
