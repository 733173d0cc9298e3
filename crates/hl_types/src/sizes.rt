//! How large types may be.

ghost use Rattle.std.specs.Prelude.{◌≡◌, ℕ, Option, nat_lt, option_map, unwrap_or, IfOk};
ghost use Rattle.hl_rules.specs.DeclarationRules as rules;
ghost use Rattle.hl_values.specs.WordCounts.{counted};

use base_core::NoMemory;
use hl_values::WordCount;

/// The greatest number of words of a type.
pub(crate) const MOST_WORDS: u64 = 65536;

/// The greatest number of words of an element of a structured buffer.
pub(crate) const MOST_ELEMENT_WORDS: u64 = 512;

/// Whether words are more than so many.
fn is_above(most: u64, words: WordCount) -> bool
    ensures { (known : ℕ) → words ≡ counted known → result ≡ nat_lt most known }
{
    match words {
        WordCount::Few(count) => most < count,
        WordCount::Many => true,
    }
}

/// Whether there are more words than so many.
pub(crate) fn is_more(most: u64, words: Option<WordCount>) -> bool
    ensures { (known : Option ℕ) → words ≡ option_map counted known → result ≡ rules.is_more most known }
{
    match words {
        Some(words) => is_above(most, words),
        None => false,
    }
}

/// So many words, where a type has them, and 0 for one that has none.
///
/// # Errors
/// `NoMemory` for 4294967296 words or more.
pub(crate) fn few_words(words: Option<WordCount>) -> Result<u32, NoMemory>
    ensures { (known : Option ℕ) → words ≡ option_map counted known → IfOk result (λ few. few ≡ unwrap_or known 0) }
{
    match words {
        None => Ok(0),
        Some(WordCount::Few(words)) => match u32::try_from(words) {
            Ok(words) => Ok(words),
            Err(_) => Err(NoMemory),
        },
        Some(WordCount::Many) => Err(NoMemory),
    }
}
