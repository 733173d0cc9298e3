//! Atomic operations. Each is one event, whose reply is the word that was there before. A function with errors also
//! gives want of memory where memory is refused.

ghost use Rattle.std.specs.Prelude.{◌≡◌, [], ◌∷◌};
ghost use Rattle.hl_meaning.specs.Views.{plain_maybe_location, plain_target};
ghost use Rattle.hl_source.specs.Expressions.{atomic_original, write_if};
ghost use Rattle.hl_source.specs.Memory.{atomic_word, buffer_atomic, shared_atomic, shared_size, within};
ghost use Rattle.hl_source.specs.State.{asks_word};
ghost use Rattle.hl_interpreter.specs.HeldPlaces.{plain_holder};
ghost use Rattle.hl_interpreter.specs.Runs.{Does, Meets, context_of, run_context, state_in, state_of};

use crate::buffers::byte_offset;
use crate::components::word_at;
use crate::memory::write_place;
use crate::places::{Holder, place_of, slot_of};
use crate::reading::shared_size;
use crate::run::{Context, Run, Stop};
use crate::state::{State, ask_word};
use hl_meaning::{Location, Target};
use lane_core::{AtomicKind, Cell, Event, LaneFault, Slot};

/// The event on a word of a groupshared variable: an operation of a kind, or else a compare exchange.
fn shared_atomic(cell: Cell, kind: Option<AtomicKind>, compare: u32, word: u32) -> Event
    ensures { result ≡ shared_atomic cell kind compare word }
{
    match kind {
        Some(kind) => Event::SharedAtomic { cell, kind, word },
        None => Event::SharedCompareExchange {
            cell,
            compare,
            word,
        },
    }
}

/// The event on a word of a buffer: an operation of a kind, or else a compare exchange.
fn buffer_atomic(
    slot: Slot,
    index: u32,
    offset: u32,
    kind: Option<AtomicKind>,
    compare: u32,
    word: u32,
) -> Event
    ensures { result ≡ buffer_atomic slot index offset kind compare word }
{
    match kind {
        Some(kind) => Event::BufferAtomic {
            slot,
            index,
            offset,
            kind,
            word,
        },
        None => Event::BufferCompareExchange {
            slot,
            index,
            offset,
            compare,
            word,
        },
    }
}

/// An atomic operation on a word of a groupshared variable.
fn atomic_shared(
    run: &Run,
    cell: Cell,
    kind: Option<AtomicKind>,
    compare: u32,
    word: u32,
    state: &mut State,
) -> Result<u32, Stop>
    ensures { Meets (λ before. before) result (state_of run.now.replies.now state.new)
        (within cell.word (shared_size (run_context run.now) cell.variable) (asks_word (shared_atomic cell kind compare word)) (state_of run.now.replies.now state.old)) }
{
    let size = shared_size(run, cell.variable)?;
    if cell.word >= size {
        return Err(Stop::from(LaneFault::OutOfBounds));
    }
    ask_word(run, shared_atomic(cell, kind, compare, word), state)
}

/// An atomic operation on a word of what a place stands in. In a variable or a constant, which no well-formed program has
/// as a target, it gives 0 and asks nothing.
fn atomic_word(
    run: &Run,
    holder: Holder,
    offset: u32,
    kind: Option<AtomicKind>,
    compare: u32,
    word: u32,
    state: &mut State,
) -> Result<u32, Stop>
    ensures { Meets (λ before. before) result (state_of run.now.replies.now state.new) (atomic_word (run_context run.now) (plain_holder holder) offset kind compare word (state_of run.now.replies.now state.old)) }
{
    match holder {
        Holder::Shared(number) => {
            let cell = Cell {
                variable: number,
                word: offset,
            };
            atomic_shared(run, cell, kind, compare, word, state)
        }
        Holder::Element { slot, index } => {
            let at = byte_offset(offset, 0);
            ask_word(
                run,
                buffer_atomic(slot, index, at, kind, compare, word),
                state,
            )
        }
        Holder::Variable(_) => Ok(0),
        Holder::Constant(_) => Ok(0),
    }
}

/// The word that the target of an atomic operation had, with the words of its indexes or its address.
///
/// # Errors
/// The fault `OutOfBounds` at a word that isn't there, and the end of the run where the event has no reply yet.
pub(crate) fn atomic_original(
    context: &Context,
    target: &Target,
    kind: Option<AtomicKind>,
    indexes: &[u32],
    compare: u32,
    word: u32,
    state: &mut State,
) -> Result<u32, Stop>
    ensures { Meets (λ before. before) result (state_in context.now state.new) (atomic_original (context_of context.now) (plain_target target.now) kind indexes.now compare word (state_in context.now state.old)) }
{
    let run = context.run;
    match target {
        Target::Place(location) => {
            let place = place_of(context, location, indexes)?;
            atomic_word(
                run,
                place.holder,
                place.reached.offset,
                kind,
                compare,
                word,
                state,
            )
        }
        Target::Bytes { resource, .. } => {
            let slot = slot_of(run, *resource);
            let address = word_at(indexes, 0);
            ask_word(
                run,
                buffer_atomic(slot, address, 0, kind, compare, word),
                state,
            )
        }
    }
}

/// Writes the original value where a place for it is given.
///
/// # Errors
/// The fault `OutOfBounds` at a word that isn't there, and the end of the run at an event without a reply.
pub(crate) fn write_original(
    context: &Context,
    original: &Option<Location>,
    indexes: &[u32],
    word: u32,
    state: &mut State,
) -> Result<(), Stop>
    ensures { Does result (state_in context.now state.new) (write_if (context_of context.now) (plain_maybe_location original.now) indexes.now (word ∷ []) (state_in context.now state.old)) }
{
    match original {
        Some(place) => write_place(context, place, indexes, &[word], state),
        None => Ok(()),
    }
}
