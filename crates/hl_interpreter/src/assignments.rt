//! How a value is assigned to a place. All functions give want of memory where memory is refused, and the end of the run
//! where it ends in them.

ghost use Rattle.hl_meaning.specs.Views.{plain_location, plain_ty};
ghost use Rattle.hl_source.specs.Expressions.{assigned, assigns, read_if};
ghost use Rattle.hl_source.specs.State.{State as PlainState};
ghost use Rattle.hl_interpreter.specs.Runs.{Gives, context_of, state_in};

use crate::components::{binary_words, convert};
use crate::memory::{read_place, write_place};
use crate::operations::component_kind;
use crate::run::{Context, Run, Stop};
use crate::state::State;
use base_core::Words;
use hl_meaning::{HlType, Location};

/// A place is read for an operator alone.
fn read_if(
    context: &Context,
    op: Option<u8>,
    place: &Location,
    indexes: &[u32],
    state: &mut State,
) -> Result<Words, Stop>
    ensures { Gives result (state_in context.now state.new) (read_if (context_of context.now) op (plain_location place.now) indexes.now (state_in context.now state.old)) }
{
    match op {
        Some(_) => read_place(context, place, indexes, state),
        None => Ok(Words::new(context.run.alloc)),
    }
}

/// What is written: the value; or, with an operator, what it computes in a type from the value that the place has and the
/// new one, converted to the type of the place.
fn written_words(
    run: &Run,
    op: Option<u8>,
    common: &HlType,
    to: &HlType,
    before: &[u32],
    words: Words,
) -> Result<Words, Stop>
    ensures { (s : PlainState) → Gives result s (assigned op (plain_ty common.now) (plain_ty to.now) before.now words s) }
{
    match op {
        Some(op) => {
            let before = convert(run.alloc, to, common, before)?;
            let computed = binary_words(
                run.alloc,
                op,
                component_kind(common),
                before.as_slice(),
                words.as_slice(),
            )?;
            let written = convert(run.alloc, common, to, computed.as_slice())?;
            Ok(written)
        }
        None => Ok(words),
    }
}

/// An assignment with the words of its operands. Its value is what is written, or where `old` holds what stood there.
pub(crate) fn assign(
    context: &Context,
    to: &Location,
    op: Option<u8>,
    common: &HlType,
    old: bool,
    indexes: &[u32],
    words: Words,
    state: &mut State,
) -> Result<Words, Stop>
    ensures { Gives result (state_in context.now state.new) (assigns (context_of context.now) (plain_location to.now) op (plain_ty common.now) old indexes.now words (state_in context.now state.old)) }
{
    let before = read_if(context, op, to, indexes, state)?;
    let written = written_words(context.run, op, common, &to.ty, before.as_slice(), words)?;
    write_place(context, to, indexes, written.as_slice(), state)?;
    if old { Ok(before) } else { Ok(written) }
}
