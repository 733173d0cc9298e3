//! What the intrinsic functions do with their arguments. A function with errors also gives want of memory where memory
//! is refused.

ghost use Rattle.std.specs.Prelude.{◌≡◌, [], ◌∷◌, IfOk, map};
ghost use Rattle.lane_core.specs.declared.event.Event.TheVariants.{Barrier};
ghost use Rattle.hl_meaning.specs.Views.{plain_ty};
ghost use Rattle.hl_source.specs.Intrinsics.{absolute, clamped, greater, lesser, wave_words, work_of, worked};
ghost use Rattle.hl_source.specs.Operations.{map_2, map_3};
ghost use Rattle.hl_source.specs.State.{State as PlainState, asks, no_value};
ghost use Rattle.hl_interpreter.specs.HeldWorks.{plain_judgement, plain_one, plain_told, plain_two, plain_work};
ghost use Rattle.hl_interpreter.specs.Runs.{Gives, lane_of, run_context, state_of};

use crate::components::{one_word, word_at};
use crate::operations::{component_kind, less, word_as};
use crate::run::{LanePlace, Run, Stop};
use crate::state::{State, ask, ask_four, ask_word};
use crate::words::{first_bit_low, holds, truth};
use crate::works::{Judgement, OneWork, Told, TwoWork, Work, wave_kind, work_of};
use base_core::{NoMemory, Words};
use hl_meaning::{HlType, Kind};
use lane_core::{Event, WaveKind};
use std::alloc::Global;

/// The lesser of two words of a kind.
fn lesser(kind: Kind, left: u32, right: u32) -> u32
    ensures { result ≡ lesser kind left right }
{
    if less(kind, right, left) { right } else { left }
}

/// The greater of two words of a kind.
fn greater(kind: Kind, left: u32, right: u32) -> u32
    ensures { result ≡ greater kind left right }
{
    if less(kind, left, right) { right } else { left }
}

/// For int the greater of the word and 0 less the word, which wraps; for uint the word.
fn absolute(kind: Kind, word: u32) -> u32
    ensures { result ≡ absolute kind word }
{
    match kind {
        Kind::Int => greater(kind, word, 0u32.wrapping_sub(word)),
        Kind::Bool | Kind::Uint => word,
    }
}

/// What a function of one argument computes of a word.
fn compute_one(work: OneWork, kind: Kind, word: u32) -> u32
    ensures { result ≡ plain_one work kind word }
{
    match work {
        OneWork::Absolute => absolute(kind, word),
        OneWork::CountBits => word.count_ones(),
        OneWork::ReverseBits => word.reverse_bits(),
        OneWork::FirstBitLow => first_bit_low(word),
        OneWork::SameBits => word,
    }
}

/// What `min` or `max` computes of two words.
fn compute_two(work: TwoWork, kind: Kind, left: u32, right: u32) -> u32
    ensures { result ≡ plain_two work kind left right }
{
    match work {
        TwoWork::Lesser => lesser(kind, left, right),
        TwoWork::Greater => greater(kind, left, right),
    }
}

/// Each word of an argument by itself.
fn compute_each(alloc: Global, work: OneWork, kind: Kind, words: &[u32]) -> Result<Words, NoMemory>
    ensures { IfOk result (λ values. values ≡ map (plain_one work kind) words.now) }
{
    let mut result = Words::new(alloc);
    for word in words {
        result.push(compute_one(work, kind, *word))?;
    }
    Ok(result)
}

/// Each word of an argument with that of another.
fn compute_each_pair(
    alloc: Global,
    work: TwoWork,
    kind: Kind,
    left: &[u32],
    right: &[u32],
) -> Result<Words, NoMemory>
    ensures { IfOk result (λ values. values ≡ map_2 (plain_two work kind) left.now right.now) }
{
    let mut result = Words::new(alloc);
    for at in 0..left.len().min(right.len()) {
        result.push(compute_two(work, kind, left[at], right[at]))?;
    }
    Ok(result)
}

/// Each word of an argument between those of two others.
fn clamp_words(
    alloc: Global,
    kind: Kind,
    words: &[u32],
    low: &[u32],
    high: &[u32],
) -> Result<Words, NoMemory>
    ensures { IfOk result (λ values. values ≡ map_3 (clamped kind) words.now low.now high.now) }
{
    let mut result = Words::new(alloc);
    for at in 0..words.len().min(low.len()).min(high.len()) {
        result.push(lesser(kind, greater(kind, words[at], low[at]), high[at]))?;
    }
    Ok(result)
}

/// A barrier of a mode, which gives no value.
fn barrier(run: &Run, mode: u8, state: &mut State) -> Result<Words, Stop>
    ensures { Gives result (state_of run.now.replies.now state.new) (no_value (asks (Barrier mode) (state_of run.now.replies.now state.old))) }
{
    ask(run, Event::Barrier { mode }, state)?;
    Ok(Words::new(run.alloc))
}

/// A wave operation with each word, one event after another.
///
/// # Errors
/// The end of the run where an event has no reply yet.
fn wave_words(
    run: &Run,
    wave: WaveKind,
    lane: u32,
    kind: Kind,
    words: &[u32],
    state: &mut State,
) -> Result<Words, Stop>
    ensures { Gives result (state_of run.now.replies.now state.new) (wave_words wave lane kind words.now (state_of run.now.replies.now state.old)) }
{
    let mut found = Words::new(run.alloc);
    for operand in words {
        let event = Event::Wave {
            kind: wave,
            operand: *operand,
            lane,
        };
        let word = ask_word(run, event, state)?;
        found.push(word_as(kind, word))?;
    }
    Ok(found)
}

/// How all words of an argument are judged together.
fn judge(judgement: Judgement, words: &[u32]) -> bool
    ensures { result ≡ plain_judgement judgement words.now }
{
    match judgement {
        Judgement::Any => words.iter().any(|word| holds(*word)),
        Judgement::All => words.iter().all(|word| holds(*word)),
    }
}

/// What is told of a lane.
fn tell(told: Told, lane: &LanePlace) -> u32
    ensures { result ≡ plain_told told (lane_of lane.now) }
{
    match told {
        Told::LaneIndex => lane.lane_index,
        Told::WaveSize => lane.wave_size,
    }
}

/// What a function without an argument does.
fn call_with_none(run: &Run, work: Work, ty: &HlType, state: &mut State) -> Result<Words, Stop>
    ensures { Gives result (state_of run.now.replies.now state.new) (worked (run_context run.now) (plain_work work) (plain_ty ty.now) [] (state_of run.now.replies.now state.old)) }
{
    match work {
        Work::Tell(told) => {
            let words = one_word(run.alloc, tell(told, run.lane))?;
            Ok(words)
        }
        Work::Barrier(mode) => barrier(run, mode, state),
        Work::WaveAlone(wave) => wave_words(run, wave, 0, component_kind(ty), &[0], state),
        _ => Ok(Words::new(run.alloc)),
    }
}

/// What a function of one argument does.
fn call_with_one(
    run: &Run,
    work: Work,
    ty: &HlType,
    words: &[u32],
    state: &mut State,
) -> Result<Words, Stop>
    ensures { Gives result (state_of run.now.replies.now state.new) (worked (run_context run.now) (plain_work work) (plain_ty ty.now) (words.now ∷ []) (state_of run.now.replies.now state.old)) }
{
    match work {
        Work::One(one) => {
            let words = compute_each(run.alloc, one, component_kind(ty), words)?;
            Ok(words)
        }
        Work::Judge(judgement) => {
            let words = one_word(run.alloc, truth(judge(judgement, words)))?;
            Ok(words)
        }
        Work::Wave(wave) => {
            let kind = component_kind(ty);
            wave_words(run, wave_kind(wave, kind), 0, kind, words, state)
        }
        Work::WaveFour(wave) => {
            let event = Event::Wave {
                kind: wave,
                operand: word_at(words, 0),
                lane: 0,
            };
            ask_four(run, event, state)
        }
        _ => Ok(Words::new(run.alloc)),
    }
}

/// What a function of two arguments does.
fn call_with_two(
    run: &Run,
    work: Work,
    ty: &HlType,
    words: &[u32],
    others: &[u32],
    state: &mut State,
) -> Result<Words, Stop>
    ensures { Gives result (state_of run.now.replies.now state.new) (worked (run_context run.now) (plain_work work) (plain_ty ty.now) (words.now ∷ others.now ∷ []) (state_of run.now.replies.now state.old)) }
{
    match work {
        Work::Two(two) => {
            let words = compute_each_pair(run.alloc, two, component_kind(ty), words, others)?;
            Ok(words)
        }
        Work::WaveAt(wave) => {
            let lane = word_at(others, 0);
            wave_words(run, wave, lane, component_kind(ty), words, state)
        }
        _ => Ok(Words::new(run.alloc)),
    }
}

/// What a function of three arguments does.
fn call_with_three(
    run: &Run,
    work: Work,
    ty: &HlType,
    words: &[u32],
    low: &[u32],
    high: &[u32],
) -> Result<Words, Stop>
    ensures { (s : PlainState) → Gives result s (worked (run_context run.now) (plain_work work) (plain_ty ty.now) (words.now ∷ low.now ∷ high.now ∷ []) s) }
{
    match work {
        Work::Clamp => {
            let words = clamp_words(run.alloc, component_kind(ty), words, low, high)?;
            Ok(words)
        }
        _ => Ok(Words::new(run.alloc)),
    }
}

/// What the intrinsic function of a number does with its arguments, for a result of a type.
///
/// # Errors
/// The end of the run at an event without a reply.
pub(crate) fn call_intrinsic(
    run: &Run,
    number: u8,
    ty: &HlType,
    arguments: &[Words],
    state: &mut State,
) -> Result<Words, Stop>
    ensures { Gives result (state_of run.now.replies.now state.new) (worked (run_context run.now) (work_of number) (plain_ty ty.now) arguments.now (state_of run.now.replies.now state.old)) }
{
    let work = work_of(number);
    match arguments {
        [] => call_with_none(run, work, ty, state),
        [words] => call_with_one(run, work, ty, words.as_slice(), state),
        [words, others] => call_with_two(run, work, ty, words.as_slice(), others.as_slice(), state),
        [words, low, high] => call_with_three(
            run,
            work,
            ty,
            words.as_slice(),
            low.as_slice(),
            high.as_slice(),
        ),
        _ => Ok(Words::new(run.alloc)),
    }
}
