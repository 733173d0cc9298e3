//! Whether expressions are places, and the letters of swizzles.

ghost use Rattle.std.specs.Prelude.{◌≡◌, ◌<◌, ◌≤◌, ◌==◌, if◌then◌else◌, IfOk, IfSome, List, Some, [], ◌∷◌, length, nat_lt, position, slice_index_or};
ghost use Rattle.std.specs.List.{list_all, list_any};
ghost use Rattle.hl_meaning.specs.Places.{is_without_repeats};
ghost use Rattle.hl_rules.specs.ExpressionRules.{is_unwritable, needs_constant_index};
ghost use Rattle.hl_rules.specs.Values.{indexed, is_longer, letters_in, letters_within, may_be_written, stepped, swizzle_letters, swizzled};
ghost use Rattle.hl_values.specs.Views.{plain_standing};

use crate::steps::{is_longer, merged_letters, one_letter};
use crate::typed::Standing;
use base_core::{Bytes, NoMemory};
use std::alloc::Global;

impl Standing {
    /// What stands behind a member or an index.
    pub fn stepped(self, alloc: Global) -> Standing
        ensures { plain_standing result ≡ stepped (plain_standing self) }
    {
        match self {
            Standing::Unclear => Standing::Unclear,
            Standing::NoPlace => Standing::NoPlace,
            Standing::Place {
                writable,
                atomic,
                ..
            } => Standing::Place {
                writable,
                atomic,
                letters: Bytes::new(alloc),
            },
        }
    }

    /// What stands behind a swizzle.
    ///
    /// # Errors
    /// `NoMemory` where memory is refused.
    pub fn swizzled(self, letters: &Bytes, alloc: Global) -> Result<Standing, NoMemory>
        ensures { IfOk result (λ standing. plain_standing standing ≡ swizzled letters.now (plain_standing self)) }
    {
        match self {
            Standing::Unclear => Ok(Standing::Unclear),
            Standing::NoPlace => Ok(Standing::NoPlace),
            Standing::Place {
                writable,
                atomic,
                letters: before,
            } => {
                let letters = merged_letters(&before, letters, alloc)?;
                Ok(Standing::Place {
                    writable,
                    atomic,
                    letters,
                })
            }
        }
    }

    /// What stands behind an index, which may be a constant number. Behind a longer swizzle that is one letter.
    ///
    /// # Errors
    /// `NoMemory` where memory is refused.
    pub fn indexed(self, number: Option<u32>, alloc: Global) -> Result<Standing, NoMemory>
        ensures { IfOk result (λ standing. plain_standing standing ≡ indexed number (plain_standing self)) }
    {
        match number {
            None => Ok(self.stepped(alloc)),
            Some(number) => self.at_number(number as usize, alloc),
        }
    }

    /// What stands behind an index that is a constant number.
    fn at_number(self, number: usize, alloc: Global) -> Result<Standing, NoMemory>
        ensures { IfOk result (λ standing. plain_standing standing ≡ indexed (Some number) (plain_standing self)) }
    {
        match self {
            Standing::Unclear => Ok(Standing::Unclear),
            Standing::NoPlace => Ok(Standing::NoPlace),
            Standing::Place {
                writable,
                atomic,
                letters: before,
            } => {
                let letters = letter_behind(&before, number, alloc)?;
                Ok(Standing::Place {
                    writable,
                    atomic,
                    letters,
                })
            }
        }
    }

    /// Whether it may be written: it is a place that may, and repeats no letter.
    pub fn may_be_written(&self) -> bool
        ensures { result ≡ may_be_written (plain_standing self.now) }
    {
        match self {
            Standing::Place {
                writable,
                letters,
                ..
            } => *writable && is_without_repeats(letters),
            Standing::Unclear | Standing::NoPlace => false,
        }
    }

    /// Whether it is known that it can't be written.
    pub fn is_unwritable(&self) -> bool
        ensures { result ≡ is_unwritable (plain_standing self.now) }
    {
        match self {
            Standing::Unclear => false,
            Standing::NoPlace => true,
            Standing::Place { .. } => !self.may_be_written(),
        }
    }

    /// Whether only a constant number may be an index of it: it is known to be no place, or is a swizzle of several
    /// letters.
    pub fn needs_constant_index(&self) -> bool
        ensures { result ≡ needs_constant_index (plain_standing self.now) }
    {
        match self {
            Standing::Unclear => false,
            Standing::NoPlace => true,
            Standing::Place { letters, .. } => is_longer(letters),
        }
    }
}

/// The letters behind an index: the one that it picks among several, and else none.
fn letter_behind(before: &Bytes, number: usize, alloc: Global) -> Result<Bytes, NoMemory>
    ensures { IfOk result (λ letters. letters ≡ (if is_longer before.now then slice_index_or before.now number 0 ∷ [] else [])) }
{
    if is_longer(before) {
        one_letter(before, number, alloc)
    } else {
        Ok(Bytes::new(alloc))
    }
}

/// Whether no letter stands twice.
fn is_without_repeats(letters: &Bytes) -> bool
    ensures { result ≡ is_without_repeats letters.now }
{
    let letters = letters.as_slice();
    for (place, letter) in letters.iter().enumerate() {
        if repeats(*letter, &letters[place + 1..]) {
            return false;
        }
    }
    true
}

/// Whether a letter stands among others.
fn repeats(letter: u8, others: &[u8]) -> bool
    ensures { result ≡ list_any (λ other. letter == other) others.now }
{
    others.iter().any(|other| letter == *other)
}

/// The letters of a swizzle of a value of so many components, and none where it names others.
///
/// # Errors
/// `NoMemory` where memory is refused.
pub fn letters_within(size: u8, name: &[u8], alloc: Global) -> Result<Option<Bytes>, NoMemory>
    ensures letters { IfOk result (λ letters. letters ≡ letters_within size name.now) }
    ensures few { IfOk result (λ letters. IfSome letters (λ l. length l ≤ 4)) }
{
    match swizzle_letters(name, alloc)? {
        Some(letters) => {
            if are_below(letters.as_slice(), size) {
                Ok(Some(letters))
            } else {
                Ok(None)
            }
        }
        None => Ok(None),
    }
}

/// Whether all letters are below a number.
fn are_below(letters: &[u8], size: u8) -> bool
    ensures { result ≡ list_all (λ letter. nat_lt letter size) letters.now }
{
    letters.iter().all(|letter| *letter < size)
}

/// The letters of a swizzle: up to four, all of `xyzw` or all of `rgba`.
fn swizzle_letters(name: &[u8], alloc: Global) -> Result<Option<Bytes>, NoMemory>
    ensures letters { IfOk result (λ letters. letters ≡ swizzle_letters name.now) }
    ensures few { IfOk result (λ letters. IfSome letters (λ l. length l ≤ 4)) }
{
    if name.len() > 4 {
        return Ok(None);
    }
    match letters_in(b"xyzw", name, alloc)? {
        Some(letters) => Ok(Some(letters)),
        None => letters_in(b"rgba", name, alloc),
    }
}

/// The numbers of letters in an alphabet, where it has all of them.
fn letters_in(alphabet: &[u8; 4], name: &[u8], alloc: Global) -> Result<Option<Bytes>, NoMemory>
    ensures letters { IfOk result (λ letters. letters ≡ letters_in alphabet.now name.now) }
    ensures length { IfOk result (λ letters. IfSome letters (λ l. length l ≡ length name.now)) }
{
    let mut letters = Bytes::new(alloc);
    for letter in name {
        let Some(number) = letter_in(alphabet, *letter) else {
            return Ok(None);
        };
        letters.push(number)?;
    }
    Ok(Some(letters))
}

/// The number of a letter in an alphabet.
fn letter_in(alphabet: &[u8; 4], letter: u8) -> Option<u8>
    ensures { result ≡ position (λ x. x == letter) alphabet.now }
{
    let place = place_of(alphabet, letter)?;
    Some(place as u8)
}

/// Where a byte stands first among bytes.
fn place_of(bytes: &[u8], byte: u8) -> Option<usize>
    ensures value { result ≡ position (λ x. x == byte) bytes.now }
    ensures within { IfSome result (λ place. place < length bytes.now) }
{
    bytes.iter().position(|x| *x == byte)
}
