//! How the words of places are read. A function with errors also gives want of memory where memory is refused.

ghost use Rattle.std.specs.Prelude.{◌≡◌, [], IfOk, slice_get, unwrap_or};
ghost use Rattle.lane_core.specs.declared.event.Event.TheVariants.{SharedLoad};
ghost use Rattle.hl_source.specs.Memory.{cell, constant_words, read_words, shared_size, within, word_of, word_offsets};
ghost use Rattle.hl_source.specs.State.{State as PlainState, asks_word, each};
ghost use Rattle.hl_interpreter.specs.HeldPlaces.{plain_holder};
ghost use Rattle.hl_interpreter.specs.Runs.{Gives, Meets, context_of, run_context, state_in, state_of};

use crate::buffers::load_words;
use crate::places::Holder;
use crate::run::{Context, Run, Stop};
use crate::state::{State, ask_word};
use base_core::{NoMemory, Words};
use hl_layout::words_of;
use lane_core::{Cell, Event, LaneFault};
use std::alloc::Global;

/// The words of a constant, none of one that isn't there.
fn constant_words<'a>(run: &Run<'a>, number: u32) -> &'a [u32]
    ensures { result.now ≡ constant_words (run_context run.now) number }
{
    match run.program.constants.get(number as usize) {
        Some(constant) => constant.words.as_slice(),
        None => &[],
    }
}

/// How many words a groupshared variable has.
///
/// # Errors
/// `NoMemory` where they are too many to be held.
pub(crate) fn shared_size(run: &Run, number: u32) -> Result<u32, NoMemory>
    ensures { IfOk result (λ size. size ≡ shared_size (run_context run.now) number) }
{
    match run.program.shared.get(number as usize) {
        Some(variable) => words_of(run.program, &variable.ty),
        None => Ok(0),
    }
}

/// The words of a variable, none of one that isn't there.
fn variable_words(state: &State, number: u32) -> &[u32]
    ensures { result.now ≡ unwrap_or (slice_get state.now.variables.items number) [] }
{
    match state.variables.get(number as usize) {
        Some(words) => words.as_slice(),
        None => &[],
    }
}

/// The word at an offset.
///
/// # Errors
/// The fault `OutOfBounds` where it isn't there.
fn word_of(words: &[u32], offset: u32) -> Result<u32, Stop>
    ensures { (s : PlainState) → Meets (λ word. word) result s (word_of words.now offset s) }
{
    match words.get(offset as usize) {
        Some(word) => Ok(*word),
        None => Err(Stop::from(LaneFault::OutOfBounds)),
    }
}

/// So many words from an offset on, each sum wrapped.
///
/// # Errors
/// The fault `OutOfBounds` at the first one that isn't there.
fn words_from(alloc: Global, words: &[u32], offset: u32, count: u32) -> Result<Words, Stop>
    ensures { (s : PlainState) → Gives result s (each (word_of words.now) (word_offsets offset count) s) }
{
    let mut found = Words::new(alloc);
    for more in 0..count {
        let word = word_of(words, offset.wrapping_add(more))?;
        found.push(word)?;
    }
    Ok(found)
}

/// One word of a groupshared variable.
fn shared_word(run: &Run, number: u32, size: u32, at: u32, state: &mut State) -> Result<u32, Stop>
    ensures { Meets (λ word. word) result (state_of run.now.replies.now state.new) (within at size (asks_word (SharedLoad (cell number at))) (state_of run.now.replies.now state.old)) }
{
    if at >= size {
        return Err(Stop::from(LaneFault::OutOfBounds));
    }
    let cell = Cell {
        variable: number,
        word: at,
    };
    ask_word(run, Event::SharedLoad { cell }, state)
}

/// So many words of a groupshared variable, one event each.
///
/// # Errors
/// The fault `OutOfBounds` at the first one that isn't there, and the end of the run at an event without a reply.
fn shared_words(
    run: &Run,
    number: u32,
    offset: u32,
    count: u32,
    state: &mut State,
) -> Result<Words, Stop>
    ensures { Gives result (state_of run.now.replies.now state.new)
        (each (λ at. within at (shared_size (run_context run.now) number) (asks_word (SharedLoad (cell number at)))) (word_offsets offset count) (state_of run.now.replies.now state.old)) }
{
    let size = shared_size(run, number)?;
    let mut found = Words::new(run.alloc);
    for more in 0..count {
        let word = shared_word(run, number, size, offset.wrapping_add(more), state)?;
        found.push(word)?;
    }
    Ok(found)
}

/// So many words from an offset of what a place stands in.
///
/// # Errors
/// The fault `OutOfBounds` at the first one that isn't there, and the end of the run at an event without a reply.
pub(crate) fn read_words(
    context: &Context,
    holder: Holder,
    offset: u32,
    count: u32,
    state: &mut State,
) -> Result<Words, Stop>
    ensures { Gives result (state_in context.now state.new) (read_words (context_of context.now) (plain_holder holder) offset count (state_in context.now state.old)) }
{
    let run = context.run;
    match holder {
        Holder::Variable(number) => {
            words_from(run.alloc, variable_words(state, number), offset, count)
        }
        Holder::Constant(number) => {
            words_from(run.alloc, constant_words(run, number), offset, count)
        }
        Holder::Shared(number) => shared_words(run, number, offset, count, state),
        Holder::Element { slot, index } => load_words(run, slot, index, offset, count, state),
    }
}
