//! What a lane keeps while a function runs, and the events that it asks. A function with errors also gives want of
//! memory where memory is refused.

ghost use Rattle.hl_source.specs.State.{after, asks, asks_word, goes_with};
ghost use Rattle.lane_core.specs.Replies.{reply_words};
ghost use Rattle.hl_interpreter.specs.Runs.{Gives, Meets, state_of};

use crate::run::{Run, Stop};
use base_core::{Sequence, Words};
use lane_core::{Asked, Event, Reply};

/// The words of each variable of the function that runs, and the events that had a reply.
#[derive(Debug, Drop)]
pub(crate) struct State {
    /// The words of each variable.
    pub variables: Vec<Words>,
    /// The events that had a reply, in order.
    pub events: Sequence<Event>,
}

/// Asks an event, and gives its reply.
///
/// # Errors
/// The end of the run where the event has no reply yet.
pub(crate) fn ask(run: &Run, event: Event, state: &mut State) -> Result<Reply, Stop>
    ensures { Meets (λ reply. reply) result (state_of run.now.replies.now state.new) (asks event (state_of run.now.replies.now state.old)) }
{
    match run.replies.get(state.events.len()) {
        None => Err(Stop::Ends(Asked::Asks(event))),
        Some(reply) => {
            state.events.push(event)?;
            Ok(*reply)
        }
    }
}

/// Asks an event whose reply is one word.
///
/// # Errors
/// The end of the run where the event has no reply yet.
pub(crate) fn ask_word(run: &Run, event: Event, state: &mut State) -> Result<u32, Stop>
    ensures { Meets (λ word. word) result (state_of run.now.replies.now state.new) (asks_word event (state_of run.now.replies.now state.old)) }
{
    let reply = ask(run, event, state)?;
    Ok(reply.words[0])
}

/// Asks an event whose reply is four words.
///
/// # Errors
/// The end of the run where the event has no reply yet.
pub(crate) fn ask_four(run: &Run, event: Event, state: &mut State) -> Result<Words, Stop>
    ensures { Gives result (state_of run.now.replies.now state.new)
        (after (asks event (state_of run.now.replies.now state.old)) (λ reply s. goes_with (reply_words 4 reply) s)) }
{
    let reply = ask(run, event, state)?;
    let words = Words::from_slice(run.alloc, &reply.words)?;
    Ok(words)
}
