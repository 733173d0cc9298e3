//! How places are read and written as values of their types. A function with errors also gives want of memory where
//! memory is refused.

ghost use Rattle.std.specs.Prelude.{◌≡◌, ◌∷◌, ◌^◌, ◌<◌, [], IfOk, length};
ghost use Rattle.std.specs.List.{zip};
ghost use Rattle.lane_core.specs.Words.{wrapping_add};
ghost use Rattle.hl_meaning.specs.Layout.{kinds_of};
ghost use Rattle.hl_meaning.specs.Views.{plain_location, plain_structs};
ghost use Rattle.hl_source.specs.Memory.{read_place, read_reached, write_letters, write_place, write_words};
ghost use Rattle.hl_source.specs.Operations.{map_2, picked, word_as};
ghost use Rattle.hl_source.specs.State.{each, no_value};
ghost use Rattle.hl_interpreter.specs.HeldPlaces.{plain_holder, plain_reached, plain_type};
ghost use Rattle.hl_interpreter.specs.Runs.{Does, Gives, context_of, state_in};

use crate::components::{pick_words, words_by_kind};
use crate::places::{Holder, Reached, place_of, reached_kinds, reached_words};
use crate::reading::read_words;
use crate::run::{Context, Run, Stop};
use crate::state::State;
use crate::writing::write_words;
use base_core::{NoMemory, Words};
use hl_meaning::Location;

/// Words as a value of what was reached. A swizzle of more than one letter picks among those of the whole vector.
fn value_of(run: &Run, at: Reached, words: &[u32]) -> Result<Words, NoMemory>
    ensures { IfOk result (λ value. value ≡ picked at.entry.letters.now (map_2 word_as (kinds_of (plain_structs run.now.program.now.structs) (plain_type at.entry.ty)) words.now)) }
{
    let kinds = reached_kinds(run, at.ty)?;
    let value = words_by_kind(run.alloc, kinds.as_slice(), words)?;
    pick_words(run.alloc, at.letters, value.as_slice())
}

/// The value of what was reached.
fn read_reached(
    context: &Context,
    holder: Holder,
    at: Reached,
    state: &mut State,
) -> Result<Words, Stop>
    ensures { Gives result (state_in context.now state.new) (read_reached (context_of context.now) (plain_holder holder) (plain_reached at.entry) (state_in context.now state.old)) }
{
    let run = context.run;
    let count = reached_words(run.program, at.ty)?;
    let words = read_words(context, holder, at.offset, count, state)?;
    let value = value_of(run, at, words.as_slice())?;
    Ok(value)
}

/// Writes words one by one, each at the component of its letter.
fn write_each(
    context: &Context,
    holder: Holder,
    offset: u32,
    letters: &[u8],
    words: &[u32],
    state: &mut State,
) -> Result<(), Stop>
    ensures { Does result (state_in context.now state.new)
        (no_value (each (λ w. write_words (context_of context.now) (plain_holder holder) (wrapping_add offset w.0) (w.1 ∷ [])) (zip letters.now words.now) (state_in context.now state.old))) }
{
    for number in 0..letters.len().min(words.len()) {
        let at = offset.wrapping_add(u32::from(letters[number]));
        write_words(context, holder, at, &[words[number]], state)?;
    }
    Ok(())
}

/// Writes a value to what was reached. A swizzle of more than one letter writes its components one by one, in the order of
/// the letters.
fn write_letters(
    context: &Context,
    holder: Holder,
    at: Reached,
    words: &[u32],
    state: &mut State,
) -> Result<(), Stop>
    requires { length words.now < 2 ^ 32 }
    ensures { Does result (state_in context.now state.new) (write_letters (context_of context.now) (plain_holder holder) at.entry.offset at.entry.letters.now words.now (state_in context.now state.old)) }
{
    if at.letters.is_empty() {
        write_words(context, holder, at.offset, words, state)
    } else {
        write_each(context, holder, at.offset, at.letters, words, state)
    }
}

/// The value of a place, with the words of its indexes.
///
/// # Errors
/// The fault `OutOfBounds` at a word that isn't there, and the end of the run at an event without a reply.
pub(crate) fn read_place(
    context: &Context,
    location: &Location,
    indexes: &[u32],
    state: &mut State,
) -> Result<Words, Stop>
    ensures { Gives result (state_in context.now state.new) (read_place (context_of context.now) (plain_location location.now) indexes.now (state_in context.now state.old)) }
{
    let place = place_of(context, location, indexes)?;
    read_reached(context, place.holder, place.reached, state)
}

/// Writes a value to a place, with the words of its indexes.
///
/// # Errors
/// The fault `OutOfBounds` at a word that isn't there, and the end of the run at an event without a reply.
pub(crate) fn write_place(
    context: &Context,
    location: &Location,
    indexes: &[u32],
    words: &[u32],
    state: &mut State,
) -> Result<(), Stop>
    requires { length words.now < 2 ^ 32 }
    ensures { Does result (state_in context.now state.new) (write_place (context_of context.now) (plain_location location.now) indexes.now words.now (state_in context.now state.old)) }
{
    let place = place_of(context, location, indexes)?;
    write_letters(context, place.holder, place.reached, words, state)
}
