//! How many words types have.

ghost use Rattle.std.specs.Prelude.{◌≡◌, ℕ, ◌+◌, ◌*◌, ◌^◌, ◌<◌, SomeIff};
ghost use Rattle.hl_values.specs.WordCounts.{counted};

/// How many words something has.
#[derive(Clone, Copy, Debug, PartialEq, Eq)]
pub enum WordCount {
    /// So many.
    Few(u64),
    /// 2^64 or more.
    Many,
}

/// So many words, or more than a `u64` holds.
fn few_or_many(words: Option<u64>) -> WordCount
    ensures { (n : ℕ) → SomeIff words (n < 2 ^ 64) n → result ≡ counted n }
{
    match words {
        Some(words) => WordCount::Few(words),
        None => WordCount::Many,
    }
}

impl WordCount {
    /// These words and others together.
    pub fn plus(self, other: WordCount) -> WordCount
        ensures { (a b : ℕ) → self ≡ counted a → other ≡ counted b → result ≡ counted (a + b) }
    {
        match (self, other) {
            (WordCount::Few(words), WordCount::Few(more)) => few_or_many(words.checked_add(more)),
            _ => WordCount::Many,
        }
    }

    /// These words so many times.
    pub fn times(self, length: u32) -> WordCount
        ensures { (a : ℕ) → self ≡ counted a → result ≡ counted (length * a) }
    {
        if length == 0 {
            return WordCount::Few(0);
        }
        match self {
            WordCount::Few(words) => few_or_many(words.checked_mul(u64::from(length))),
            WordCount::Many => WordCount::Many,
        }
    }
}
