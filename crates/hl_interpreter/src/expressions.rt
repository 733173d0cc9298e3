//! What expressions give.
//!
//! An expression evaluates its operands from left to right, and then acts on their words. All functions give want of
//! memory where memory is refused, and the end of the run where it ends in them.

ghost use Rattle.std.specs.Prelude.{◌≡◌, ℕ, List, [], ◌∷◌, IfOk, slice_index, take};
ghost use Rattle.std.specs.List.{concat};
ghost use Rattle.hl_meaning.specs.Trees.{atomic_form, binary_form, choose_form, method_form};
ghost use Rattle.hl_meaning.specs.Types.{Ty};
ghost use Rattle.hl_meaning.specs.Views.{plain_expr, plain_exprs, plain_location, plain_maybe_expr, plain_maybe_location, plain_part, plain_root, plain_target};
ghost use Rattle.hl_source.specs.Expressions.{atomic_original, write_if, evaluates, indexes, indexes_if, root_index, step_index, target_indexes, value_if, values};
ghost use Rattle.hl_source.specs.Memory.{load_four, store_four};
ghost use Rattle.hl_source.specs.Offsets.{slot_of};
ghost use Rattle.hl_source.specs.State.{State as PlainState, after, goes_with, no_value};
ghost use Rattle.hl_interpreter.specs.Runs.{Gives, Meets, context_of, form_value, run_context, state_in, state_of};

use crate::assignments::assign;
use crate::atomics::{atomic_original, write_original};
use crate::buffers::{load_four, store_four};
use crate::calling::call_function;
use crate::components::{
    binary_words, chosen_words, convert, first_words, one_word, unary_words, word_at,
};
use crate::intrinsics::call_intrinsic;
use crate::memory::read_place;
use crate::operations::component_kind;
use crate::places::{picked_words, slot_of};
use crate::run::{Context, Run, Stop};
use crate::state::State;
use base_core::{NoMemory, Sequence, Words};
use hl_meaning::{Expr, Exprs, Form, Location, PathPart, Root, Target};
use lane_core::AtomicKind;
use sqlite_items::Boxed;
use std::alloc::Global;

/// The value of an expression.
#[cycle(running)]
pub(crate) fn evaluate(context: &Context, expr: &Expr, state: &mut State) -> Result<Words, Stop>
    ensures { Gives result (state_in context.now state.new) (evaluates (context_of context.now) (plain_expr expr.now) (state_in context.now state.old)) }
{
    let alloc = context.run.alloc;
    match &expr.form {
        Form::Literal(word) => or_stop(one_word(alloc, *word)),
        Form::Read(place) => {
            let indexes = indexes(context, place, state)?;
            read_place(context, place, indexes.as_slice(), state)
        }
        Form::Write {
            to,
            op,
            common,
            value,
            old,
        } => {
            let indexes = indexes(context, to, state)?;
            let words = evaluate(context, value.get(), state)?;
            assign(
                context,
                to,
                *op,
                common,
                *old,
                indexes.as_slice(),
                words,
                state,
            )
        }
        Form::Convert(value) => {
            let value = value.get();
            let words = evaluate(context, value, state)?;
            or_stop(convert(alloc, &value.ty, &expr.ty, words.as_slice()))
        }
        Form::Unary { op, value } => {
            let words = evaluate(context, value.get(), state)?;
            or_stop(unary_words(alloc, *op, words.as_slice()))
        }
        Form::Binary { op, left, right } => {
            evaluate_binary(context, *op, left.get(), right.get(), state)
        }
        Form::Choose { cond, yes, no } => {
            evaluate_choice(context, cond.get(), yes.get(), no.get(), state)
        }
        Form::Build(parts) => {
            let values = values(context, parts, state)?;
            or_stop(concatenate(alloc, values.as_slice()))
        }
        Form::Pick { value, parts } => {
            let value = value.get();
            let words = evaluate(context, value, state)?;
            or_stop(picked_words(context.run, &value.ty, parts.as_slice(), words.as_slice()))
        }
        Form::Call { function, args } => call_function(context, *function, args, state),
        Form::Intrinsic { number, args } => {
            let values = values(context, args, state)?;
            call_intrinsic(context.run, *number, &expr.ty, values.as_slice(), state)
        }
        Form::Method {
            resource,
            count,
            address,
            value,
        } => call_method(context, *resource, *count, address.get(), value, state),
        Form::Atomic {
            target,
            kind,
            compare,
            value,
            original,
        } => evaluate_atomic(
            context,
            target,
            *kind,
            compare,
            value.get(),
            original,
            state,
        ),
    }
}

/// What a binary operator computes.
#[cycle(running)]
fn evaluate_binary(
    context: &Context,
    op: u8,
    left: &Expr,
    right: &Expr,
    state: &mut State,
) -> Result<Words, Stop>
    ensures { (ty : Ty) → Gives result (state_in context.now state.new) (form_value (context_of context.now) ty (binary_form op (plain_expr left.now) (plain_expr right.now)) (state_in context.now state.old)) }
{
    let words = evaluate(context, left, state)?;
    let others = evaluate(context, right, state)?;
    binary_words(
        context.run.alloc,
        op,
        component_kind(&left.ty),
        words.as_slice(),
        others.as_slice(),
    )
}

/// What `?:` chooses. It evaluates all its operands.
#[cycle(running)]
fn evaluate_choice(
    context: &Context,
    cond: &Expr,
    consequent: &Expr,
    alternative: &Expr,
    state: &mut State,
) -> Result<Words, Stop>
    ensures { (ty : Ty) → Gives result (state_in context.now state.new) (form_value (context_of context.now) ty (choose_form (plain_expr cond.now) (plain_expr consequent.now) (plain_expr alternative.now)) (state_in context.now state.old)) }
{
    let truths = evaluate(context, cond, state)?;
    let words = evaluate(context, consequent, state)?;
    let others = evaluate(context, alternative, state)?;
    or_stop(chosen_words(
        context.run.alloc,
        truths.as_slice(),
        words.as_slice(),
        others.as_slice(),
    ))
}

/// Words, where there was memory for them.
fn or_stop(words: Result<Words, NoMemory>) -> Result<Words, Stop>
    ensures { (value : List ℕ) (s : PlainState) → IfOk words (λ found. found ≡ value) → Gives result s (goes_with value s) }
{
    match words {
        Ok(words) => Ok(words),
        Err(_) => Err(Stop::Memory),
    }
}

/// The words of values, one after another.
fn concatenate(alloc: Global, values: &[Words]) -> Result<Words, NoMemory>
    ensures { IfOk result (λ words. words ≡ concat values.now) }
{
    let mut words = Words::new(alloc);
    for value in values {
        words.extend_from_slice(value.as_slice())?;
    }
    Ok(words)
}

/// The indexes of a place, in order, the one of an element of a buffer first. Each is one word.
#[cycle(running)]
pub(crate) fn indexes(context: &Context, place: &Location, state: &mut State) -> Result<Words, Stop>
    ensures { Gives result (state_in context.now state.new) (indexes (context_of context.now) (plain_location place.now) (state_in context.now state.old)) }
{
    let mut indexes = root_index(context, &place.root, state)?;
    for part in place.parts.as_slice() {
        let words = step_index(context, part, state)?;
        indexes.extend_from_slice(words.as_slice())?;
    }
    Ok(indexes)
}

/// The index of a step.
#[cycle(running)]
fn step_index(context: &Context, part: &PathPart, state: &mut State) -> Result<Words, Stop>
    ensures { Gives result (state_in context.now state.new) (step_index (context_of context.now) (plain_part part.now) (state_in context.now state.old)) }
{
    match part {
        PathPart::Index(index) => evaluate(context, index.get(), state),
        PathPart::Member(_) | PathPart::Swizzle(_) => Ok(Words::new(context.run.alloc)),
    }
}

/// The index of an element of a buffer.
#[cycle(running)]
fn root_index(context: &Context, root: &Root, state: &mut State) -> Result<Words, Stop>
    ensures { Gives result (state_in context.now state.new) (root_index (context_of context.now) (plain_root root.now) (state_in context.now state.old)) }
{
    match root {
        Root::Element { index, .. } => evaluate(context, index.get(), state),
        Root::Variable(_) | Root::Constant(_) | Root::Shared(_) => {
            Ok(Words::new(context.run.alloc))
        }
    }
}

/// The values of expressions, in order.
#[cycle(running)]
fn values(context: &Context, exprs: &Exprs, state: &mut State) -> Result<Sequence<Words>, Stop>
    ensures { Meets (λ list. list) result (state_in context.now state.new) (values (context_of context.now) (plain_exprs exprs.now) (state_in context.now state.old)) }
{
    let mut values = Sequence::new(context.run.alloc);
    for expr in exprs.as_slice() {
        let words = evaluate(context, expr, state)?;
        values.push(words)?;
    }
    Ok(values)
}

/// A load or a store of a byte-address buffer.
#[cycle(running)]
fn call_method(
    context: &Context,
    resource: u32,
    count: u8,
    address: &Expr,
    value: &Option<Boxed<Expr>>,
    state: &mut State,
) -> Result<Words, Stop>
    ensures { (ty : Ty) → Gives result (state_in context.now state.new) (form_value (context_of context.now) ty (method_form resource count (plain_expr address.now) (plain_maybe_expr value.now)) (state_in context.now state.old)) }
{
    let run = context.run;
    let at = evaluate(context, address, state)?;
    match value {
        None => load_method(run, resource, count, at.as_slice(), state),
        Some(value) => {
            let words = evaluate(context, value.get(), state)?;
            store_method(run, resource, at.as_slice(), words.as_slice(), state)
        }
    }
}

/// The first words of one load at a byte address.
fn load_method(
    run: &Run,
    resource: u32,
    count: u8,
    at: &[u32],
    state: &mut State,
) -> Result<Words, Stop>
    ensures { Gives result (state_of run.now.replies.now state.new)
        (after (load_four (slot_of (run_context run.now) resource) (slice_index at.now 0) 0 (state_of run.now.replies.now state.old)) (λ words s. goes_with (take count words) s)) }
{
    let slot = slot_of(run, resource);
    let words = load_four(run, slot, word_at(at, 0), 0, state)?;
    or_stop(first_words(run.alloc, words.as_slice(), count as usize))
}

/// One store at a byte address. It has no words.
fn store_method(
    run: &Run,
    resource: u32,
    at: &[u32],
    words: &[u32],
    state: &mut State,
) -> Result<Words, Stop>
    ensures { Gives result (state_of run.now.replies.now state.new)
        (store_four (slot_of (run_context run.now) resource) (slice_index at.now 0) 0 words.now (state_of run.now.replies.now state.old)) }
{
    let slot = slot_of(run, resource);
    store_four(run, slot, word_at(at, 0), 0, words, state)?;
    Ok(Words::new(run.alloc))
}

/// An atomic operation.
#[cycle(running)]
fn evaluate_atomic(
    context: &Context,
    target: &Target,
    kind: Option<AtomicKind>,
    compare: &Option<Boxed<Expr>>,
    value: &Expr,
    original: &Option<Location>,
    state: &mut State,
) -> Result<Words, Stop>
    ensures { (ty : Ty) → Gives result (state_in context.now state.new) (form_value (context_of context.now) ty (atomic_form (plain_target target.now) kind (plain_maybe_expr compare.now) (plain_expr value.now) (plain_maybe_location original.now)) (state_in context.now state.old)) }
{
    let at = target_indexes(context, target, state)?;
    let compared = value_if(context, compare, state)?;
    let words = evaluate(context, value, state)?;
    let place = indexes_if(context, original, state)?;
    let compare = word_at(compared.as_slice(), 0);
    let word = word_at(words.as_slice(), 0);
    apply_atomic(
        context,
        target,
        kind,
        original,
        at.as_slice(),
        compare,
        word,
        place.as_slice(),
        state,
    )
}

/// An atomic operation with the words of its operands. It has no words: the original value is written where a place for it
/// is given.
fn apply_atomic(
    context: &Context,
    target: &Target,
    kind: Option<AtomicKind>,
    original: &Option<Location>,
    at: &[u32],
    compare: u32,
    word: u32,
    place: &[u32],
    state: &mut State,
) -> Result<Words, Stop>
    ensures { Gives result (state_in context.now state.new)
        (after (atomic_original (context_of context.now) (plain_target target.now) kind at.now compare word (state_in context.now state.old))
        (λ before s. no_value (write_if (context_of context.now) (plain_maybe_location original.now) place.now (before ∷ []) s))) }
{
    let before = atomic_original(context, target, kind, at, compare, word, state)?;
    write_original(context, original, place, before, state)?;
    Ok(Words::new(context.run.alloc))
}

/// The indexes of the place, or the address.
#[cycle(running)]
fn target_indexes(context: &Context, target: &Target, state: &mut State) -> Result<Words, Stop>
    ensures { Gives result (state_in context.now state.new) (target_indexes (context_of context.now) (plain_target target.now) (state_in context.now state.old)) }
{
    match target {
        Target::Place(place) => indexes(context, place, state),
        Target::Bytes { address, .. } => evaluate(context, address.get(), state),
    }
}

/// A value that may be left out.
#[cycle(running)]
fn value_if(
    context: &Context,
    value: &Option<Boxed<Expr>>,
    state: &mut State,
) -> Result<Words, Stop>
    ensures { Gives result (state_in context.now state.new) (value_if (context_of context.now) (plain_maybe_expr value.now) (state_in context.now state.old)) }
{
    match value {
        Some(value) => evaluate(context, value.get(), state),
        None => Ok(Words::new(context.run.alloc)),
    }
}

/// The indexes of a place that may be left out.
#[cycle(running)]
fn indexes_if(context: &Context, place: &Option<Location>, state: &mut State) -> Result<Words, Stop>
    ensures { Gives result (state_in context.now state.new) (indexes_if (context_of context.now) (plain_maybe_location place.now) (state_in context.now state.old)) }
{
    match place {
        Some(place) => indexes(context, place, state),
        None => Ok(Words::new(context.run.alloc)),
    }
}
