//! What calls do: a function runs with variables of its own, which its arguments fill, and afterwards the values of its
//! `out` and `inout` parameters are written back. All functions give want of memory where memory is refused, and the end
//! of the run where it ends in them.

ghost use Rattle.std.specs.Prelude.{◌≡◌, ◌<◌, ℕ, List, [], IfOk, get_or, length, map, slice_index_or};
ghost use Rattle.hl_meaning.specs.declared.program.Parameter.{Parameter};
ghost use Rattle.hl_meaning.specs.Trees.{call_form, place_type};
ghost use Rattle.hl_meaning.specs.Types.{Ty};
ghost use Rattle.hl_meaning.specs.Views.{plain_arg, plain_args, plain_function, plain_location};
ghost use Rattle.hl_source.specs.Expressions.{argument_of, arguments, copies_in, copies_out, no_callee, parameters_of, value_of_words};
ghost use Rattle.hl_source.specs.Memory.{write_place};
ghost use Rattle.hl_source.specs.SourceLane.{returned_value};
ghost use Rattle.hl_interpreter.specs.Operands.{copies_if, interleaved, operands_of, pair_of};
ghost use Rattle.hl_interpreter.specs.Runs.{Does, Gives, Meets, callees_behind, context_of, form_value, plain_leaving, state_in, state_of};

use crate::components::{words_by_kind, zeros};
use crate::expressions::{evaluate, indexes};
use crate::memory::{read_place, write_place};
use crate::places::kinds_of;
use crate::run::{Context, Run, Stop};
use crate::state::State;
use crate::statements::{Leaving, run_statements};
use crate::variables::add_variables;
use base_core::{Sequence, Words};
use hl_layout::words_of;
use hl_meaning::{Arg, Args, Copying, FunctionDef, Location, Parameter};
use std::mem;

/// An argument: the words of the indexes of its place, none where it is a value, and the words that its parameter has at
/// first.
#[derive(Debug, Drop)]
struct PassedArgument {
    indexes: Words,
    initial: Words,
}

/// The arguments of a call: of each the words of the indexes of its place, and those that its parameter has at first.
#[derive(Debug, Drop)]
struct Passed {
    indexes: Sequence<Words>,
    initial_parameters: Sequence<Words>,
}

/// A call runs the function with variables of its own. Its result is computed before the values are written back.
#[cycle(running)]
pub(crate) fn call_function(
    context: &Context,
    function: u32,
    args: &Args,
    state: &mut State,
) -> Result<Words, Stop>
    ensures { (ty : Ty) → Gives result (state_in context.now state.new) (form_value (context_of context.now) ty (call_form function (plain_args args.now)) (state_in context.now state.old)) }
{
    let parameters = parameters_of(context, function);
    let Passed {
        indexes,
        initial_parameters,
    } = arguments(context, parameters, args, state)?;
    let own = mem::replace(&mut state.variables, initial_parameters.into_vec());
    let result = run_function(context.run, context.callees, function, state)?;
    let parameters = mem::replace(&mut state.variables, own);
    copy_out(
        context,
        args,
        indexes.as_slice(),
        parameters.as_slice(),
        state,
    )?;
    Ok(result)
}

/// The function of a number, as it is called: the state has the words of its parameters, and afterwards those of all its
/// variables. A function that isn't there does nothing.
#[cycle(running)]
pub(crate) fn run_function(
    run: &Run,
    functions: &[FunctionDef],
    number: u32,
    state: &mut State,
) -> Result<Words, Stop>
    ensures { Gives result (state_of run.now.replies.now state.new)
        (slice_index_or (callees_behind run.now [] [] (map plain_function functions.now)) number no_callee
        state.old.variables.items (state_of run.now.replies.now state.old).exchange) }
{
    let number = number as usize;
    if number >= functions.len() {
        return Ok(Words::new(run.alloc));
    }
    let function = &functions[number];
    let context = Context {
        run: &*run,
        callees: &functions[..number],
        function,
    };
    add_variables(run, function, state)?;
    let leaving = run_statements(&context, &function.body, state)?;
    Ok(returned_value(run, leaving))
}

/// The value that a body is left with.
fn returned_value(run: &Run, leaving: Leaving) -> Words
    ensures { result ≡ returned_value (plain_leaving leaving) }
{
    match leaving {
        Leaving::ByReturn(value) => value,
        Leaving::AtEnd | Leaving::ByBreak | Leaving::ByContinue => Words::new(run.alloc),
    }
}

/// The arguments of a call, in order.
#[cycle(running)]
fn arguments(
    context: &Context,
    parameters: &[Parameter],
    args: &Args,
    state: &mut State,
) -> Result<Passed, Stop>
    ensures both { IfOk result (λ passed. length passed.indexes ≡ length passed.initial_parameters) }
    ensures met { Meets operands_of result (state_in context.now state.new) (arguments (context_of context.now) (plain_args args.now) parameters.now (state_in context.now state.old)) }
{
    let mut indexes = Sequence::new(context.run.alloc);
    let mut initial_parameters = Sequence::new(context.run.alloc);
    let items = args.as_slice();
    for at in 0..items.len().min(parameters.len()) {
        let PassedArgument {
            indexes: words,
            initial,
        } = argument(context, copying_at(parameters, at), &items[at], state)?;
        indexes.push(words)?;
        initial_parameters.push(initial)?;
    }
    Ok(Passed {
        indexes,
        initial_parameters,
    })
}

/// An argument of a call: an `in` argument is evaluated; of another one the indexes are evaluated, and an `inout` argument
/// is then read.
#[cycle(running)]
fn argument(
    context: &Context,
    copying: Copying,
    arg: &Arg,
    state: &mut State,
) -> Result<PassedArgument, Stop>
    ensures { Meets pair_of result (state_in context.now state.new) (argument_of (context_of context.now) (plain_arg arg.now) copying (state_in context.now state.old)) }
{
    match arg {
        Arg::Value(value) => {
            let initial = evaluate(context, value, state)?;
            let indexes = Words::new(context.run.alloc);
            Ok(PassedArgument { indexes, initial })
        }
        Arg::Place(place) => {
            let indexes = indexes(context, place, state)?;
            let initial = copy_in(context, copying, place, indexes.as_slice(), state)?;
            Ok(PassedArgument { indexes, initial })
        }
    }
}

/// Copy-in: the words that a parameter has at first whose argument is a place. An `out` parameter has zeros, and an
/// `inout` parameter the value of the place.
fn copy_in(
    context: &Context,
    copying: Copying,
    place: &Location,
    indexes: &[u32],
    state: &mut State,
) -> Result<Words, Stop>
    ensures { Gives result (state_in context.now state.new) (copies_in (context_of context.now) copying (plain_location place.now) indexes.now (state_in context.now state.old)) }
{
    match copying {
        Copying::CopyOut => {
            let count = words_of(context.run.program, &place.ty)?;
            let words = zeros(context.run.alloc, count)?;
            Ok(words)
        }
        Copying::CopyIn | Copying::CopyBoth => read_place(context, place, indexes, state),
    }
}

/// The parameters of the function of a number.
fn parameters_of<'a>(context: &Context<'a>, function: u32) -> &'a [Parameter]
    ensures { result.now ≡ parameters_of (context_of context.now) function }
{
    match context.callees.get(function as usize) {
        Some(function) => function.parameters.as_slice(),
        None => &[],
    }
}

/// How the argument of a parameter is passed.
fn copying_at(parameters: &[Parameter], at: usize) -> Copying
    requires { at < length parameters.now }
    ensures { (p : Parameter) → p ≡ get_or parameters.now at p → result ≡ p.copying }
{
    parameters[at].copying
}

/// Writes the value of a parameter back, read as a value of the type of its place.
fn copy_back(
    context: &Context,
    place: &Location,
    indexes: &[u32],
    words: &[u32],
    state: &mut State,
) -> Result<(), Stop>
    ensures { Does result (state_in context.now state.new) (write_place (context_of context.now) (plain_location place.now) indexes.now (value_of_words (context_of context.now) (place_type (plain_location place.now)) words.now) (state_in context.now state.old)) }
{
    let run = context.run;
    let kinds = kinds_of(run, &place.ty)?;
    let words = words_by_kind(run.alloc, kinds.as_slice(), words)?;
    write_place(context, place, indexes, words.as_slice(), state)
}

/// Writes the value of a parameter back where its argument is a place.
fn copy_if_place(
    context: &Context,
    arg: &Arg,
    indexes: &[u32],
    words: &[u32],
    state: &mut State,
) -> Result<(), Stop>
    ensures { Does result (state_in context.now state.new) (copies_if (context_of context.now) (plain_arg arg.now) indexes.now words.now (state_in context.now state.old)) }
{
    match arg {
        Arg::Place(place) => copy_back(context, place, indexes, words, state),
        Arg::Value(_) => Ok(()),
    }
}

/// Copy-out: behind the body the values of `out` and `inout` parameters are written back, in order of the parameters.
fn copy_out(
    context: &Context,
    args: &Args,
    indexes: &[Words],
    parameters: &[Words],
    state: &mut State,
) -> Result<(), Stop>
    ensures { (initial : List (List ℕ)) → length initial ≡ length indexes.now
        → Does result (state_in context.now state.new) (copies_out (context_of context.now) (plain_args args.now) (interleaved indexes.now initial) parameters.now (state_in context.now state.old)) }
{
    let items = args.as_slice();
    for at in 0..items.len().min(indexes.len()).min(parameters.len()) {
        let words = parameters[at].as_slice();
        copy_if_place(context, &items[at], indexes[at].as_slice(), words, state)?;
    }
    Ok(())
}
