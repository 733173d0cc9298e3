//! How the words of places are written. A function with errors also gives want of memory where memory is refused.

ghost use Rattle.std.specs.Prelude.{◌≡◌, ℕ, ◌^◌, ◌<◌, ◌≤◌, List, [], length, slice_get, slice_set, unwrap_or, zip};
ghost use Rattle.lane_core.specs.declared.event.Reply.{Reply};
ghost use Rattle.lane_core.specs.declared.event.Event.TheVariants.{SharedStore};
ghost use Rattle.hl_source.specs.Memory.{cell, shared_size, within, word_offsets, write_variable_word, write_words};
ghost use Rattle.hl_source.specs.State.{State as PlainState, asks, each, no_value, variable_words, with_variable};
ghost use Rattle.hl_interpreter.specs.HeldPlaces.{plain_holder};
ghost use Rattle.hl_interpreter.specs.Runs.{Does, context_of, run_context, state_in, state_of};

use crate::buffers::store_words;
use crate::places::Holder;
use crate::reading::shared_size;
use crate::run::{Context, Run, Stop};
use crate::state::{State, ask};
use base_core::{Sequence, Words};
use lane_core::{Cell, Event, LaneFault};
use std::alloc::Global;
use std::mem;

/// Writes a word at a place.
///
/// # Errors
/// The fault `OutOfBounds` where there is none.
fn set_word(variable: &mut [u32], at: u32, word: u32) -> Result<(), Stop>
    ensures { (number : ℕ) (s : PlainState) → number < length s.variables → variable_words s number ≡ variable.old
        → Does result (with_variable number variable.new s) (no_value (write_variable_word number at word s)) }
{
    let at = at as usize;
    if at >= variable.len() {
        return Err(Stop::from(LaneFault::OutOfBounds));
    }
    variable[at] = word;
    Ok(())
}

/// Writes words from an offset on, each sum wrapped.
///
/// # Errors
/// The fault `OutOfBounds` at the first one that isn't there.
fn set_words(variable: &mut [u32], offset: u32, words: &[u32]) -> Result<(), Stop>
    requires { length words.now < 2 ^ 32 }
    ensures { (number : ℕ) (s : PlainState) → number < length s.variables → variable_words s number ≡ variable.old
        → Does result (with_variable number variable.new s) (no_value (each (λ w. write_variable_word number w.0 w.1) (zip (word_offsets offset (length words.now)) words.now) s)) }
{
    for (more, word) in words.iter().enumerate() {
        set_word(variable, offset.wrapping_add(more as u32), *word)?;
    }
    Ok(())
}

/// Writes words to a variable that isn't there.
fn set_nothing(words: &[u32]) -> Result<(), Stop>
    ensures { (number : ℕ) (offset : ℕ) (s : PlainState) → length s.variables ≤ number
        → Does result s (no_value (each (λ w. write_variable_word number w.0 w.1) (zip (word_offsets offset (length words.now)) words.now) s)) }
{
    if words.is_empty() {
        Ok(())
    } else {
        Err(Stop::from(LaneFault::OutOfBounds))
    }
}

/// Takes the words of a variable out.
fn take_variable(alloc: Global, number: usize, state: &mut State) -> Vec<u32>
    requires { number < length state.old.variables.items }
    ensures value { result.items ≡ unwrap_or (slice_get state.old.variables.items number) [] }
    ensures variables { state.new.variables.items ≡ slice_set state.old.variables.items number [] }
    ensures events { state.new.events ≡ state.old.events }
{
    mem::replace(&mut state.variables[number], Words::new(alloc)).into_vec()
}

/// Writes words of a variable.
///
/// # Errors
/// The fault `OutOfBounds` at the first one that isn't there.
fn write_variable(
    alloc: Global,
    number: u32,
    offset: u32,
    words: &[u32],
    state: &mut State,
) -> Result<(), Stop>
    requires { length words.now < 2 ^ 32 }
    ensures { (replies : List Reply) → Does result (state_of replies state.new)
        (no_value (each (λ w. write_variable_word number w.0 w.1) (zip (word_offsets offset (length words.now)) words.now) (state_of replies state.old))) }
{
    let number = number as usize;
    if number >= state.variables.len() {
        return set_nothing(words);
    }
    let mut variable = take_variable(alloc, number, state);
    set_words(variable.as_mut_slice(), offset, words)?;
    state.variables[number] = Sequence::from_vec(variable)?;
    Ok(())
}

/// Writes one word of a groupshared variable.
fn write_shared_word(
    run: &Run,
    number: u32,
    size: u32,
    at: u32,
    word: u32,
    state: &mut State,
) -> Result<(), Stop>
    ensures { Does result (state_of run.now.replies.now state.new) (no_value (within at size (asks (SharedStore (cell number at) word)) (state_of run.now.replies.now state.old))) }
{
    if at >= size {
        return Err(Stop::from(LaneFault::OutOfBounds));
    }
    let cell = Cell {
        variable: number,
        word: at,
    };
    ask(run, Event::SharedStore { cell, word }, state)?;
    Ok(())
}

/// Writes words of a groupshared variable, one event each.
///
/// # Errors
/// The fault `OutOfBounds` at the first one that isn't there, and the end of the run at an event without a reply.
fn write_shared(
    run: &Run,
    number: u32,
    offset: u32,
    words: &[u32],
    state: &mut State,
) -> Result<(), Stop>
    requires { length words.now < 2 ^ 32 }
    ensures { Does result (state_of run.now.replies.now state.new)
        (no_value (each (λ w. within w.0 (shared_size (run_context run.now) number) (asks (SharedStore (cell number w.0) w.1))) (zip (word_offsets offset (length words.now)) words.now) (state_of run.now.replies.now state.old))) }
{
    let size = shared_size(run, number)?;
    for (more, word) in words.iter().enumerate() {
        let at = offset.wrapping_add(more as u32);
        write_shared_word(run, number, size, at, *word, state)?;
    }
    Ok(())
}

/// Writes words from an offset of what a place stands in. Nothing is written to a constant.
///
/// # Errors
/// The fault `OutOfBounds` at the first one that isn't there, and the end of the run at an event without a reply.
pub(crate) fn write_words(
    context: &Context,
    holder: Holder,
    offset: u32,
    words: &[u32],
    state: &mut State,
) -> Result<(), Stop>
    requires { length words.now < 2 ^ 32 }
    ensures { Does result (state_in context.now state.new) (write_words (context_of context.now) (plain_holder holder) offset words.now (state_in context.now state.old)) }
{
    let run = context.run;
    match holder {
        Holder::Variable(number) => write_variable(run.alloc, number, offset, words, state),
        Holder::Constant(_) => Ok(()),
        Holder::Shared(number) => write_shared(run, number, offset, words, state),
        Holder::Element { slot, index } => store_words(run, slot, index, offset, words, state),
    }
}
