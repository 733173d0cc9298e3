//! The inputs of the entry (HLSL, "Semantics").

ghost use Rattle.std.specs.Prelude.{◌≡◌, ◌∷◌, [], IfOk, map, slice_get, unwrap_or};
ghost use Rattle.hl_meaning.specs.Held.{plain_program};
ghost use Rattle.hl_meaning.specs.Places.{variable_type};
ghost use Rattle.hl_meaning.specs.Types.{component_count, void_type};
ghost use Rattle.hl_meaning.specs.Views.{plain_variable};
ghost use Rattle.hl_source.specs.SourceLane.{input_words, inputs, semantic_components};
ghost use Rattle.lane_core.specs.Inputs.{components, coordinates_of, dispatch_thread, flat_index};
ghost use Rattle.lane_core.specs.Words.{wrapped};
ghost use Rattle.hl_interpreter.specs.Runs.{lane_of};

use crate::components::{first_words, one_word};
use crate::operations::component_count;
use crate::run::{LanePlace, Run};
use base_core::{NoMemory, Sequence, Words};
use hl_meaning::{FunctionDef, Parameter, Semantic};
use std::alloc::Global;

/// A thread's number in its group.
fn flat_index(threads: [u32; 3], thread: [u32; 3]) -> u32
    ensures { result ≡ wrapped (flat_index (coordinates_of threads) (coordinates_of thread)) }
{
    let plane = threads[0].wrapping_mul(threads[1]);
    let planes = thread[2].wrapping_mul(plane);
    let rows = thread[1].wrapping_mul(threads[0]);
    thread[0].wrapping_add(rows.wrapping_add(planes))
}

/// A thread's place in the whole dispatch: its group times the threads of a group, and its place in the group.
fn dispatch_thread(threads: [u32; 3], lane: &LanePlace) -> [u32; 3]
    ensures { result ≡ map wrapped (components (dispatch_thread (coordinates_of threads) (lane_of lane.now).group (lane_of lane.now).thread)) }
{
    [
        lane.group[0]
            .wrapping_mul(threads[0])
            .wrapping_add(lane.thread[0]),
        lane.group[1]
            .wrapping_mul(threads[1])
            .wrapping_add(lane.thread[1]),
        lane.group[2]
            .wrapping_mul(threads[2])
            .wrapping_add(lane.thread[2]),
    ]
}

/// The words of a place in a grid.
fn place_words(alloc: Global, place: [u32; 3]) -> Result<Words, NoMemory>
    ensures { IfOk result (λ words. words ≡ map wrapped (components (coordinates_of place))) }
{
    three_words(alloc, place[0], place[1], place[2])
}

/// Three words.
fn three_words(alloc: Global, x: u32, y: u32, z: u32) -> Result<Words, NoMemory>
    ensures { IfOk result (λ words. words ≡ map wrapped (x ∷ y ∷ z ∷ [])) }
{
    Words::from_slice(alloc, &[x, y, z])
}

/// The components of what a semantic says.
fn components_of(
    alloc: Global,
    threads: [u32; 3],
    lane: &LanePlace,
    semantic: Semantic,
) -> Result<Words, NoMemory>
    ensures { IfOk result (λ words. words ≡ map wrapped (semantic_components (coordinates_of threads) (lane_of lane.now) (Some semantic))) }
{
    match semantic {
        Semantic::DispatchThreadId => { Words::from_slice(alloc, &dispatch_thread(threads, lane)) }
        Semantic::GroupId => place_words(alloc, lane.group),
        Semantic::GroupThreadId => place_words(alloc, lane.thread),
        Semantic::GroupIndex => one_word(alloc, flat_index(threads, lane.thread)),
    }
}

/// The components of an input, none without a semantic.
fn semantic_words(
    alloc: Global,
    threads: [u32; 3],
    lane: &LanePlace,
    semantic: Option<Semantic>,
) -> Result<Words, NoMemory>
    ensures { IfOk result (λ words. words ≡ map wrapped (semantic_components (coordinates_of threads) (lane_of lane.now) semantic)) }
{
    match semantic {
        Some(semantic) => components_of(alloc, threads, lane, semantic),
        None => Ok(Words::new(alloc)),
    }
}

/// How many components a parameter has.
fn parameter_count(function: &FunctionDef, parameter: &Parameter) -> usize
    ensures { result ≡ component_count (unwrap_or (variable_type (map plain_variable function.now.variables) parameter.now.variable) void_type) }
{
    match function.variables.get(parameter.variable as usize) {
        Some(variable) => component_count(&variable.ty),
        None => 0,
    }
}

/// The words of a parameter of the entry: the first components of its input.
fn input_words(run: &Run, function: &FunctionDef, parameter: &Parameter) -> Result<Words, NoMemory>
    ensures { IfOk result (λ words. words ≡ input_words (plain_program run.now.program.now) (lane_of run.now.lane.now) (map plain_variable function.now.variables) parameter.now) }
{
    let threads = run.program.threads;
    let words = semantic_words(run.alloc, threads, run.lane, parameter.semantic)?;
    first_words(
        run.alloc,
        words.as_slice(),
        parameter_count(function, parameter),
    )
}

/// The words of each parameter of a function as the entry.
fn inputs_of(run: &Run, function: &FunctionDef) -> Result<Sequence<Words>, NoMemory>
    ensures { IfOk result (λ words. words
        ≡ map (input_words (plain_program run.now.program.now) (lane_of run.now.lane.now) (map plain_variable function.now.variables)) function.now.parameters) }
{
    let mut inputs = Sequence::new(run.alloc);
    for parameter in function.parameters.as_slice() {
        let words = input_words(run, function, parameter)?;
        inputs.push(words)?;
    }
    Ok(inputs)
}

/// The words of each parameter of the entry.
///
/// # Errors
/// `NoMemory` where memory is refused.
pub(crate) fn inputs(run: &Run) -> Result<Sequence<Words>, NoMemory>
    ensures { IfOk result (λ words. words ≡ inputs (plain_program run.now.program.now) (lane_of run.now.lane.now) (slice_get (plain_program run.now.program.now).functions run.now.program.now.entry)) }
{
    match run.program.functions.get(run.program.entry as usize) {
        Some(function) => inputs_of(run, function),
        None => Ok(Sequence::new(run.alloc)),
    }
}
