//! Values by component: what operators, conversions and swizzles make of the words of values, in order. All functions with
//! an error give want of memory where memory is refused.

ghost use Rattle.std.specs.Prelude.{◌≡◌, ◌∷◌, [], IfOk, map, replicate, slice_index, take};
ghost use Rattle.hl_meaning.specs.Views.{plain_ty};
ghost use Rattle.hl_source.specs.Operations.{binary_words, chosen_word, converted, map_2, map_3, picked, resized, unary_word, word_as};
ghost use Rattle.hl_source.specs.State.{State, gives};
ghost use Rattle.hl_interpreter.specs.Runs.{Gives};

use crate::operations::{
    binary_word, chosen_word, component_count, component_kind, unary_word, word_as,
};
use crate::run::Stop;
use base_core::{NoMemory, Words};
use hl_meaning::{HlType, Kind};
use std::alloc::Global;

/// A value of one word.
pub(crate) fn one_word(alloc: Global, word: u32) -> Result<Words, NoMemory>
    ensures { IfOk result (λ words. words ≡ word ∷ []) }
{
    let mut words = Words::new(alloc);
    words.push(word)?;
    Ok(words)
}

/// A word so many times.
fn repeat_word(alloc: Global, word: u32, count: usize) -> Result<Words, NoMemory>
    ensures { IfOk result (λ words. words ≡ replicate count word) }
{
    let mut words = Words::new(alloc);
    for _done in 0..count {
        words.push(word)?;
    }
    Ok(words)
}

/// So many zeros.
pub(crate) fn zeros(alloc: Global, count: u32) -> Result<Words, NoMemory>
    ensures { IfOk result (λ words. words ≡ replicate count 0) }
{
    repeat_word(alloc, 0, count as usize)
}

/// The word of a value at a place, and 0 past its end.
pub(crate) fn word_at(words: &[u32], at: usize) -> u32
    ensures { result ≡ slice_index words.now at }
{
    words.get(at).copied().unwrap_or(0)
}

/// The first words of a value, all where there are fewer.
pub(crate) fn first_words(alloc: Global, words: &[u32], count: usize) -> Result<Words, NoMemory>
    ensures { IfOk result (λ first. first ≡ take count words.now) }
{
    Words::from_slice(alloc, &words[..count.min(words.len())])
}

/// A scalar repeated for a type, or a vector cut to it.
fn resize(alloc: Global, from: &HlType, to: &HlType, words: &[u32]) -> Result<Words, NoMemory>
    ensures { IfOk result (λ sized. sized ≡ resized (plain_ty from.now) (plain_ty to.now) words.now) }
{
    let count = component_count(to);
    match from {
        HlType::Scalar(_) => repeat_word(alloc, word_at(words, 0), count),
        _ => first_words(alloc, words, count),
    }
}

/// Each word as a value of a kind.
fn words_as(alloc: Global, kind: Kind, words: &[u32]) -> Result<Words, NoMemory>
    ensures { IfOk result (λ values. values ≡ map (word_as kind) words.now) }
{
    let mut result = Words::new(alloc);
    for word in words {
        result.push(word_as(kind, *word))?;
    }
    Ok(result)
}

/// A value of a scalar or a vector type as one of another.
pub(crate) fn convert(
    alloc: Global,
    from: &HlType,
    to: &HlType,
    words: &[u32],
) -> Result<Words, NoMemory>
    ensures { IfOk result (λ value. value ≡ converted (plain_ty from.now) (plain_ty to.now) words.now) }
{
    let sized = resize(alloc, from, to, words)?;
    words_as(alloc, component_kind(to), sized.as_slice())
}

/// Each word as a value of its own kind.
pub(crate) fn words_by_kind(alloc: Global, kinds: &[Kind], words: &[u32]) -> Result<Words, NoMemory>
    ensures { IfOk result (λ values. values ≡ map_2 word_as kinds.now words.now) }
{
    let mut result = Words::new(alloc);
    for at in 0..kinds.len().min(words.len()) {
        result.push(word_as(kinds[at], words[at]))?;
    }
    Ok(result)
}

/// What a unary operator makes of a value.
pub(crate) fn unary_words(alloc: Global, op: u8, words: &[u32]) -> Result<Words, NoMemory>
    ensures { IfOk result (λ values. values ≡ map (unary_word op) words.now) }
{
    let mut result = Words::new(alloc);
    for word in words {
        result.push(unary_word(op, *word))?;
    }
    Ok(result)
}

/// What a binary operator makes of two values of a kind.
///
/// # Errors
/// The run ends at the first fault of `/` and `%`.
pub(crate) fn binary_words(
    alloc: Global,
    op: u8,
    kind: Kind,
    left: &[u32],
    right: &[u32],
) -> Result<Words, Stop>
    ensures { (s : State) → Gives result s (gives (binary_words op kind left.now right.now) s) }
{
    let mut result = Words::new(alloc);
    for at in 0..left.len().min(right.len()) {
        let word = binary_word(op, kind, left[at], right[at])?;
        result.push(word)?;
    }
    Ok(result)
}

/// What `?:` takes of two values, by a condition.
pub(crate) fn chosen_words(
    alloc: Global,
    condition: &[u32],
    consequent: &[u32],
    alternative: &[u32],
) -> Result<Words, NoMemory>
    ensures { IfOk result (λ chosen. chosen ≡ map_3 chosen_word condition.now consequent.now alternative.now) }
{
    let mut result = Words::new(alloc);
    let count = condition.len().min(consequent.len()).min(alternative.len());
    for at in 0..count {
        result.push(chosen_word(condition[at], consequent[at], alternative[at]))?;
    }
    Ok(result)
}

/// The words of a value that letters pick, and all where there are none.
pub(crate) fn pick_words(alloc: Global, letters: &[u8], words: &[u32]) -> Result<Words, NoMemory>
    ensures { IfOk result (λ found. found ≡ picked letters.now words.now) }
{
    if letters.is_empty() {
        return Words::from_slice(alloc, words);
    }
    let mut result = Words::new(alloc);
    for letter in letters {
        result.push(word_at(words, *letter as usize))?;
    }
    Ok(result)
}
