//! What is asked for: the words of the command line.

ghost use Rattle.std.specs.Prelude.{◌≡◌, [], ◌∷◌, length, IfOk, MatchOption, map, string_bytes};
ghost use Rattle.std.specs.Str.{all_ascii_digits};
ghost use Rattle.trace_driver.specs.Requests.{Asks, IsUsage, behind_comma, before_comma, each_of, is_decimal, lane_of, number_of, reply_of, reply_with};

use base_core::{NoMemory, Sequence, Text, Words};
use hl_interpreter::LanePlace;
use hl_lexer::is_name;
use lane_core::Reply;
use std::alloc::Global;

/// What is asked for.
#[derive(Debug, Drop)]
pub struct Request {
    /// The name of the entry.
    pub entry: Text,
    /// The lane of the dispatch that is run.
    pub lane: LanePlace,
    /// How many turns each loop may take.
    pub turns: u64,
    /// The replies to the events, in the order in which these are asked.
    pub replies: Sequence<Reply>,
}

/// The place of the word that names the entry.
const ENTRY: usize = 0;

/// The place of the first of the eight words of the lane.
const LANE: usize = 1;

/// The place of the word of the turns, right behind those of the lane.
const TURNS: usize = 9;

/// The place of the first reply. All words before it have to be there.
const REPLIES: usize = 10;

/// Whether all bytes are decimal digits.
fn are_digits(text: &[u8]) -> bool
    ensures { result ≡ all_ascii_digits text.now }
{
    for byte in text {
        if !byte.is_ascii_digit() {
            return false;
        }
    }
    true
}

/// Whether a text is a decimal number: digits alone, and at least one.
fn is_decimal(text: &str) -> bool
    ensures { result ≡ is_decimal text.now }
{
    !text.is_empty() && are_digits(text.as_bytes())
}

/// A decimal number below 2^32.
fn word_of(text: &str) -> Option<u32>
    ensures { result ≡ number_of 32 text.now }
{
    if is_decimal(text) {
        text.parse::<u32>().ok()
    } else {
        None
    }
}

/// A decimal number below 2^64.
fn count_of(text: &str) -> Option<u64>
    ensures { result ≡ number_of 64 text.now }
{
    if is_decimal(text) {
        text.parse::<u64>().ok()
    } else {
        None
    }
}

/// A text up to its first comma, and behind it.
fn at_comma(text: &str) -> (&str, &str)
    ensures before { result.0.now ≡ before_comma text.now }
    ensures behind { result.1.now ≡ behind_comma text.now }
{
    match text.split_once(',') {
        Some((before, behind)) => (before, behind),
        None => (text, ""),
    }
}

/// A reply of its four words.
fn reply_with(first: &str, second: &str, third: &str, fourth: &str) -> Option<Reply>
    ensures { result ≡ reply_with (first.now ∷ second.now ∷ third.now ∷ fourth.now ∷ []) }
{
    let words = [
        word_of(first)?,
        word_of(second)?,
        word_of(third)?,
        word_of(fourth)?,
    ];
    Some(Reply { words })
}

/// A reply: four decimal numbers with commas between.
fn reply_of(text: &str) -> Option<Reply>
    ensures { result ≡ reply_of text.now }
{
    let (first, rest) = at_comma(text);
    let (second, rest) = at_comma(rest);
    let (third, fourth) = at_comma(rest);
    reply_with(first, second, third, fourth)
}

/// The numbers that words write, or none where one of them writes none.
fn numbers_of(alloc: Global, words: &[String]) -> Result<Option<Words>, NoMemory>
    ensures { IfOk result (λ found. found ≡ each_of (number_of 32) (map string_bytes words.now)) }
{
    let mut numbers = Words::new(alloc);
    for word in words {
        match word_of(word.as_str()) {
            Some(number) => numbers.push(number)?,
            None => return Ok(None),
        }
    }
    Ok(Some(numbers))
}

/// The replies that words write, or none where one of them writes none.
fn replies_of(alloc: Global, words: &[String]) -> Result<Option<Sequence<Reply>>, NoMemory>
    ensures { IfOk result (λ found. found ≡ each_of reply_of (map string_bytes words.now)) }
{
    let mut replies = Sequence::new(alloc);
    for word in words {
        match reply_of(word.as_str()) {
            Some(reply) => replies.push(reply)?,
            None => return Ok(None),
        }
    }
    Ok(Some(replies))
}

/// The lane of eight numbers.
fn lane_of(numbers: &[u32]) -> LanePlace
    requires { length numbers.now ≡ 8 }
    ensures { result ≡ lane_of numbers.now }
{
    LanePlace {
        group: [numbers[0], numbers[1], numbers[2]],
        thread: [numbers[3], numbers[4], numbers[5]],
        lane_index: numbers[6],
        wave_size: numbers[7],
    }
}

impl Request {
    /// The request of the words, where they are one: the name of an entry, the group, the thread in the group, the index
    /// in the wave, the size of the wave, the turns and the replies.
    ///
    /// # Errors
    /// `NoMemory` where memory is refused.
    pub fn from_words(alloc: Global, words: &[String]) -> Result<Option<Request>, NoMemory>
        ensures { IfOk result (λ found. MatchOption found (IsUsage (map string_bytes words.now)) (Asks (map string_bytes words.now))) }
    {
        if words.len() < REPLIES {
            return Ok(None);
        }
        if !is_name(words[ENTRY].as_bytes()) {
            return Ok(None);
        }
        let Some(turns) = count_of(words[TURNS].as_str()) else {
            return Ok(None);
        };
        let Some(numbers) = numbers_of(alloc, &words[LANE..TURNS])? else {
            return Ok(None);
        };
        let Some(replies) = replies_of(alloc, &words[REPLIES..])? else {
            return Ok(None);
        };
        let entry = Text::from_slice(alloc, words[ENTRY].as_bytes())?;
        Ok(Some(Request {
            entry,
            lane: lane_of(numbers.as_slice()),
            turns,
            replies,
        }))
    }
}
