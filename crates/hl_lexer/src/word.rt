//! The words that are no names.

ghost use Rattle.std.specs.Prelude.{◌≡◌, ℕ, ◌<◌, ◌≤◌, [], length, slice_index, slice_index_or, MatchOption};
ghost use Rattle.hl_lexer.specs.Scanning.{word_slot};
ghost use Rattle.hl_lexer.specs.Spellings.{words};
ghost use Rattle.hl_lexer.specs.Tokens.{IsWord};

/// How many words there are.
const WORD_COUNT: usize = 35;

/// How many bytes the longest word has.
const LONGEST_WORD: usize = 19;

/// How many slots there are.
const SLOT_COUNT: usize = 128;

/// The letters of all words, one after the other.
static LETTERS: [u8; 217] = *b"\
    void\
    bool\
    int\
    uint\
    bool2\
    bool3\
    bool4\
    int2\
    int3\
    int4\
    uint2\
    uint3\
    uint4\
    struct\
    static\
    const\
    groupshared\
    in\
    out\
    inout\
    if\
    else\
    for\
    while\
    do\
    break\
    continue\
    return\
    true\
    false\
    register\
    ByteAddressBuffer\
    RWByteAddressBuffer\
    StructuredBuffer\
    RWStructuredBuffer";

/// Where the letters of each word begin, and at the end where those of the last one end.
static STARTS: [u8; WORD_COUNT + 1] = [
    0, 4, 8, 11, 15, 20, 25, 30, 34, 38, 42, 47, 52, 57, 63, 69, 74, 85, 87, 90, 95, 97, 101, 104,
    109, 111, 116, 124, 130, 134, 139, 147, 164, 183, 199, 217,
];

/// The number of the word that has a slot, or 255 where none has.
static SLOTS: [u8; SLOT_COUNT] = [
    255, 255, 255, 255, 255, 255, 255, 255, 255, 255, 255, 14, 255, 255, 255, 255, 34, 32, 28, 33,
    255, 255, 18, 255, 255, 255, 0, 255, 27, 255, 255, 255, 255, 255, 23, 255, 255, 255, 30, 255,
    255, 255, 255, 255, 255, 13, 255, 255, 255, 255, 10, 255, 11, 3, 12, 255, 255, 255, 255, 255,
    255, 255, 255, 31, 255, 26, 255, 255, 255, 25, 1, 21, 255, 255, 255, 255, 255, 29, 255, 255,
    255, 255, 255, 4, 24, 5, 16, 6, 255, 255, 255, 20, 15, 255, 255, 255, 255, 255, 255, 255, 255,
    22, 255, 255, 255, 255, 255, 17, 255, 255, 255, 255, 255, 255, 255, 255, 255, 7, 255, 8, 2, 9,
    19, 255, 255, 255, 255, 255,
];

/// The number of the word with this spelling, if it is one.
pub(crate) fn word_number(text: &[u8]) -> Option<u8>
    ensures { MatchOption result ((number : ℕ) → ¬ IsWord number text.now) (λ number. IsWord number text.now) }
{
    if text.is_empty() {
        return None;
    }
    if text.len() > LONGEST_WORD {
        return None;
    }
    let number = word_in(slot(text));
    if number as usize >= WORD_COUNT {
        return None;
    }
    if spelling(number) == text {
        Some(number)
    } else {
        None
    }
}

/// The slot of a text, which differs from word to word.
fn slot(text: &[u8]) -> usize
    requires some { 0 < length text.now }
    requires short { length text.now ≤ LONGEST_WORD }
    ensures { result ≡ word_slot text.now }
{
    let first = text[0] as usize;
    let last = text[text.len() - 1] as usize;
    (text.len() + 5 * first + 2 * last) % SLOT_COUNT
}

/// The number of the word that has a slot.
fn word_in(slot: usize) -> u8
    requires { slot < 128 }
    ensures { result ≡ slice_index SLOTS slot }
{
    SLOTS[slot]
}

/// The spelling of a word.
fn spelling(number: u8) -> &'static [u8]
    requires { number < 35 }
    ensures { result.now ≡ slice_index_or words number [] }
{
    let start = start_of(number as usize);
    let end = start_of(number as usize + 1);
    &letters()[start..end]
}

/// The letters of all words.
fn letters() -> &'static [u8]
    ensures { result.now ≡ LETTERS }
{
    &LETTERS
}

/// Where the letters of a word begin.
fn start_of(number: usize) -> usize
    requires { number ≤ 35 }
    ensures { result ≡ slice_index STARTS number }
{
    STARTS[number] as usize
}
