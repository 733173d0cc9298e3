//! The run of a lane.

ghost use Rattle.std.specs.Prelude.{◌≡◌, [], IfOk, Some, map, slice_index_or};
ghost use Rattle.hl_meaning.specs.Held.{plain_program};
ghost use Rattle.hl_meaning.specs.Slots.{slots_of};
ghost use Rattle.hl_meaning.specs.Views.{plain_function, plain_resource};
ghost use Rattle.hl_source.specs.Expressions.{no_callee};
ghost use Rattle.hl_source.specs.SourceLane.{entry_run, source_lane};
ghost use Rattle.lane_core.specs.Lane.{standing};
ghost use Rattle.hl_interpreter.specs.Runs.{callees_behind, lane_of, run_of, state_of};

use crate::calling::run_function;
use crate::inputs::inputs;
use crate::run::{LanePlace, Run, Stop};
use crate::slots::slots_of;
use crate::state::State;
use base_core::{NoMemory, Sequence};
use hl_layout::struct_kinds;
use hl_meaning::Program;
use lane_core::{Asked, Event, Reply, Slot};
use std::alloc::Global;

/// A run of a lane: the events that had a reply, in order, and where the lane stands after them.
#[derive(Debug, Drop)]
pub struct LaneRun {
    /// The events that had a reply, in order.
    pub events: Sequence<Event>,
    /// Where the lane stands after them.
    pub outcome: Asked,
}

/// The run of a lane of a program under these replies, where each loop takes at most so many turns, counted anew each time
/// that it is entered.
///
/// The first reply answers the first event, and so on; replies past the last event aren't read. The run ends with `Asks`
/// at the first event without a reply, with `Goes` where a loop has no turns left, with `Fault` at a fault, and else with
/// `Ended`.
///
/// # Errors
/// `NoMemory` where memory is refused.
pub fn run_lane(
    alloc: Global,
    program: &Program,
    lane: LanePlace,
    replies: &[Reply],
    turns: u64,
) -> Result<LaneRun, NoMemory>
    ensures { IfOk result (λ run. source_lane (plain_program program.now) turns (lane_of lane) replies.now ≡ Some (run_of run)) }
{
    let slots = slots_of(alloc, program.resources.as_slice())?;
    run_in(alloc, program, slots.as_slice(), &lane, replies, turns)
}

/// The run of a lane of a program whose buffers have these slots.
fn run_in(
    alloc: Global,
    program: &Program,
    slots: &[Slot],
    lane: &LanePlace,
    replies: &[Reply],
    turns: u64,
) -> Result<LaneRun, NoMemory>
    requires { slots.now ≡ slots_of (map plain_resource program.now.resources) }
    ensures { IfOk result (λ run. source_lane (plain_program program.now) turns (lane_of lane.now) replies.now ≡ Some (run_of run)) }
{
    let kinds = struct_kinds(alloc, program.structs.as_slice())?;
    let run = Run {
        alloc,
        program,
        kinds: kinds.as_slice(),
        slots,
        lane,
        replies,
        turns,
    };
    let inputs = inputs(&run)?;
    let mut state = State {
        variables: inputs.into_vec(),
        events: Sequence::new(alloc),
    };
    let outcome = run_entry(&run, &mut state)?;
    let State { events, .. } = state;
    Ok(LaneRun { events, outcome })
}

/// Where the run of the entry ends.
fn run_entry(run: &Run, state: &mut State) -> Result<Asked, NoMemory>
    ensures { IfOk result (λ outcome. entry_run (slice_index_or (callees_behind run.now [] [] (map plain_function run.now.program.now.functions)) run.now.program.now.entry no_callee
        state.old.variables.items (state_of run.now.replies.now state.old).exchange) ≡ standing (state_of run.now.replies.now state.new).exchange outcome) }
{
    let functions = run.program.functions.as_slice();
    match run_function(run, functions, run.program.entry, state) {
        Ok(_) => Ok(Asked::Ended),
        Err(Stop::Ends(outcome)) => Ok(outcome),
        Err(Stop::Memory) => Err(NoMemory),
    }
}
