//! Loads and stores of buffers, each of up to four words. A function with errors also gives want of memory where memory
//! is refused.

ghost use Rattle.std.specs.Prelude.{◌≡◌, ◌*◌, ◌^◌, ◌<◌, ◌++◌, drop, length, replicate, take};
ghost use Rattle.hl_source.specs.Memory.{byte_offset, load_four, load_words, store_four, store_words};
ghost use Rattle.hl_interpreter.specs.Runs.{Does, Gives, state_of};

use crate::components::{first_words, word_at};
use crate::run::{Run, Stop};
use crate::state::{State, ask, ask_four};
use base_core::Words;
use lane_core::{Event, Slot};

/// The byte offset of the word that stands so many words behind an offset.
pub(crate) fn byte_offset(offset: u32, words: u32) -> u32
    ensures { result ≡ byte_offset offset words }
{
    4u32.wrapping_mul(offset.wrapping_add(words))
}

/// One load of four words at a byte offset of an element.
///
/// # Errors
/// The end of the run where the event has no reply yet.
pub(crate) fn load_four(
    run: &Run,
    slot: Slot,
    index: u32,
    offset: u32,
    state: &mut State,
) -> Result<Words, Stop>
    ensures { Gives result (state_of run.now.replies.now state.new) (load_four slot index offset (state_of run.now.replies.now state.old)) }
{
    let event = Event::BufferLoad {
        slot,
        index,
        offset,
    };
    ask_four(run, event, state)
}

/// The first four words, with 0 for those that aren't there.
fn four_words(words: &[u32]) -> [u32; 4]
    ensures { result ≡ take 4 (words.now ++ replicate 4 0) }
{
    [
        word_at(words, 0),
        word_at(words, 1),
        word_at(words, 2),
        word_at(words, 3),
    ]
}

/// One store of up to four words at a byte offset of an element.
///
/// # Errors
/// `Memory` for more words than an event can count, which no program stores.
pub(crate) fn store_four(
    run: &Run,
    slot: Slot,
    index: u32,
    offset: u32,
    words: &[u32],
    state: &mut State,
) -> Result<(), Stop>
    ensures { Does result (state_of run.now.replies.now state.new) (store_four slot index offset words.now (state_of run.now.replies.now state.old)) }
{
    let Ok(count) = u8::try_from(words.len()) else {
        return Err(Stop::Memory);
    };
    let event = Event::BufferStore {
        slot,
        index,
        offset,
        count,
        words: four_words(words),
    };
    ask(run, event, state)?;
    Ok(())
}

/// Reads words of an element: one load for every four of them or part of four.
///
/// # Errors
/// The end of the run at a load without a reply.
pub(crate) fn load_words(
    run: &Run,
    slot: Slot,
    index: u32,
    offset: u32,
    count: u32,
    state: &mut State,
) -> Result<Words, Stop>
    ensures { Gives result (state_of run.now.replies.now state.new) (load_words slot index offset count (state_of run.now.replies.now state.old)) }
{
    let mut words = Words::new(run.alloc);
    for piece in 0..count.div_ceil(4) {
        let four = load_four(run, slot, index, byte_offset(offset, 4 * piece), state)?;
        words.extend_from_slice(four.as_slice())?;
    }
    let first = first_words(run.alloc, words.as_slice(), count as usize)?;
    Ok(first)
}

/// Up to four words from a place on.
fn four_at<'a>(words: &'a [u32], first: usize) -> &'a [u32]
    ensures { result.now ≡ take 4 (drop first words.now) }
{
    let rest = &words[first.min(words.len())..];
    &rest[..rest.len().min(4)]
}

/// Writes words of an element: one store for every four of them or part of four.
///
/// # Errors
/// The end of the run at a store without a reply.
pub(crate) fn store_words(
    run: &Run,
    slot: Slot,
    index: u32,
    offset: u32,
    words: &[u32],
    state: &mut State,
) -> Result<(), Stop>
    requires { length words.now < 2 ^ 32 }
    ensures { Does result (state_of run.now.replies.now state.new) (store_words slot index offset words.now (state_of run.now.replies.now state.old)) }
{
    for piece in 0..words.len().div_ceil(4) {
        let first = 4 * piece;
        let some = four_at(words, first);
        store_four(
            run,
            slot,
            index,
            byte_offset(offset, first as u32),
            some,
            state,
        )?;
    }
    Ok(())
}
