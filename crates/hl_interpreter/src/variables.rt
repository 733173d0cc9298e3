//! The variables of the function that runs.

ghost use Rattle.std.specs.Prelude.{◌≡◌, ◌∷◌, ◌++◌, [], OnOk, drop, length, map, slice_get, slice_set, unwrap_or};
ghost use Rattle.hl_meaning.specs.Views.{plain_variable};
ghost use Rattle.hl_source.specs.Memory.{zeros_of};
ghost use Rattle.hl_interpreter.specs.Runs.{run_context};

use crate::components::zeros;
use crate::run::Run;
use crate::state::State;
use base_core::{NoMemory, Words};
use hl_layout::words_of;
use hl_meaning::FunctionDef;
use std::alloc::Global;

/// Adds a variable.
fn push_variable(words: Words, state: &mut State) -> Result<(), NoMemory>
    ensures variables { OnOk result (state.new.variables.items ≡ state.old.variables.items ++ words ∷ []) }
    ensures events { state.new.events ≡ state.old.events }
{
    state.variables.push(words)?;
    Ok(())
}

/// Adds the zeros of the variables of a function that aren't parameters.
///
/// # Errors
/// `NoMemory` where memory is refused.
pub(crate) fn add_variables(
    run: &Run,
    function: &FunctionDef,
    state: &mut State,
) -> Result<(), NoMemory>
    ensures variables { OnOk result (state.new.variables.items
        ≡ state.old.variables.items ++ map (λ v. zeros_of (run_context run.now) v.ty) (drop (length function.now.parameters) (map plain_variable function.now.variables))) }
    ensures events { state.new.events ≡ state.old.events }
{
    let variables = function.variables.as_slice();
    let first = function.parameters.len().min(variables.len());
    for variable in &variables[first..] {
        let count = words_of(run.program, &variable.ty)?;
        let words = zeros(run.alloc, count)?;
        push_variable(words, state)?;
    }
    Ok(())
}

/// A variable gets these words. One that isn't there gets none.
pub(crate) fn set_variable(variable: u32, words: Words, state: &mut State)
    ensures variables { state.new.variables.items ≡ slice_set state.old.variables.items variable words }
    ensures events { state.new.events ≡ state.old.events }
{
    let number = variable as usize;
    if number < state.variables.len() {
        state.variables[number] = words;
    }
}

/// A variable gets zeros.
pub(crate) fn clear_variable(
    alloc: Global,
    variable: u32,
    state: &mut State,
) -> Result<(), NoMemory>
    ensures variables { OnOk result (state.new.variables.items
        ≡ slice_set state.old.variables.items variable (map (λ _. 0) (unwrap_or (slice_get state.old.variables.items variable) []))) }
    ensures events { state.new.events ≡ state.old.events }
{
    let number = variable as usize;
    if number < state.variables.len() {
        let count = state.variables[number].len();
        state.variables[number] = zeros(alloc, count as u32)?;
    }
    Ok(())
}
