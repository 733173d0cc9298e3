//! What statements do, and how control leaves them. All functions give want of memory where memory is refused, and the
//! end of the run where it ends in them.

ghost use Rattle.std.specs.Prelude.{option_map};
ghost use Rattle.hl_meaning.specs.Trees.{if_stmt};
ghost use Rattle.hl_meaning.specs.Views.{plain_expr, plain_maybe_stmt, plain_stmt, plain_stmts};
ghost use Rattle.hl_source.specs.Statements.{computes_if, condition, condition_if, declares, does_all, returns};
ghost use Rattle.hl_interpreter.specs.Runs.{Meets, context_of, done_in, plain_leaving, state_in};

use crate::components::word_at;
use crate::expressions::evaluate;
use crate::loops::{do_loop, for_loop, while_loop};
use crate::run::{Context, Run, Stop};
use crate::state::State;
use crate::variables::{clear_variable, set_variable};
use crate::words::holds;
use base_core::Words;
use hl_meaning::{Expr, Stmt, Stmts};
use sqlite_items::Boxed;

/// How control leaves a statement: at its end, by `break`, by `continue`, or by `return` with a value, which has no words
/// where there is none.
#[derive(Debug, Drop)]
pub(crate) enum Leaving {
    AtEnd,
    ByBreak,
    ByContinue,
    ByReturn(Words),
}

/// What a statement does.
#[cycle(running)]
pub(crate) fn run_statement(
    context: &Context,
    stmt: &Stmt,
    state: &mut State,
) -> Result<Leaving, Stop>
    ensures { Meets plain_leaving result (state_in context.now state.new) (done_in context.now (plain_stmt stmt.now) (state_in context.now state.old)) }
{
    match stmt {
        Stmt::Block(body) => run_statements(context, body, state),
        Stmt::Local { variable, init } => declare(context, *variable, init, state),
        Stmt::Run(value) => {
            evaluate(context, value, state)?;
            Ok(Leaving::AtEnd)
        }
        Stmt::If { cond, yes, no } => run_if(context, cond, yes.get(), no, state),
        Stmt::For {
            init,
            cond,
            step,
            body,
        } => for_loop(context, init, cond, step, body.get(), state),
        Stmt::While { cond, body } => while_loop(context, cond, body.get(), state),
        Stmt::Do { body, cond } => do_loop(context, body.get(), cond, state),
        Stmt::Break => Ok(Leaving::ByBreak),
        Stmt::Continue => Ok(Leaving::ByContinue),
        Stmt::Return(value) => return_value(context, value, state),
    }
}

/// Statements one after another.
#[cycle(running)]
pub(crate) fn run_statements(
    context: &Context,
    stmts: &Stmts,
    state: &mut State,
) -> Result<Leaving, Stop>
    ensures { Meets plain_leaving result (state_in context.now state.new) (does_all (context_of context.now) context.now.run.now.turns (plain_stmts stmts.now) (state_in context.now state.old)) }
{
    for stmt in stmts.as_slice() {
        match run_statement(context, stmt, state)? {
            Leaving::AtEnd => {}
            leaving => return Ok(leaving),
        }
    }
    Ok(Leaving::AtEnd)
}

/// The truth value of a condition.
#[cycle(running)]
pub(crate) fn condition(context: &Context, cond: &Expr, state: &mut State) -> Result<bool, Stop>
    ensures { Meets (λ truth. truth) result (state_in context.now state.new) (condition (context_of context.now) (plain_expr cond.now) (state_in context.now state.old)) }
{
    let words = evaluate(context, cond, state)?;
    Ok(holds(word_at(words.as_slice(), 0)))
}

/// The truth value of the condition of a `for`, which goes on without one.
#[cycle(running)]
pub(crate) fn condition_if(
    context: &Context,
    cond: &Option<Expr>,
    state: &mut State,
) -> Result<bool, Stop>
    ensures { Meets (λ truth. truth) result (state_in context.now state.new) (condition_if (context_of context.now) (option_map plain_expr cond.now) (state_in context.now state.old)) }
{
    match cond {
        Some(cond) => condition(context, cond, state),
        None => Ok(true),
    }
}

/// A value that isn't used is computed all the same.
#[cycle(running)]
pub(crate) fn compute_if(
    context: &Context,
    value: &Option<Expr>,
    state: &mut State,
) -> Result<Leaving, Stop>
    ensures { Meets plain_leaving result (state_in context.now state.new) (computes_if (context_of context.now) (option_map plain_expr value.now) (state_in context.now state.old)) }
{
    match value {
        Some(value) => {
            evaluate(context, value, state)?;
            Ok(Leaving::AtEnd)
        }
        None => Ok(Leaving::AtEnd),
    }
}

/// The declaration of a variable, which is set to zeros where it has no initialiser.
#[cycle(running)]
fn declare(
    context: &Context,
    variable: u32,
    init: &Option<Expr>,
    state: &mut State,
) -> Result<Leaving, Stop>
    ensures { Meets plain_leaving result (state_in context.now state.new) (declares (context_of context.now) variable (option_map plain_expr init.now) (state_in context.now state.old)) }
{
    match init {
        Some(init) => {
            let words = evaluate(context, init, state)?;
            set_variable(variable, words, state);
            Ok(Leaving::AtEnd)
        }
        None => {
            clear_variable(context.run.alloc, variable, state)?;
            Ok(Leaving::AtEnd)
        }
    }
}

/// `return`, whose value is left.
#[cycle(running)]
fn return_value(context: &Context, value: &Option<Expr>, state: &mut State) -> Result<Leaving, Stop>
    ensures { Meets plain_leaving result (state_in context.now state.new) (returns (context_of context.now) (option_map plain_expr value.now) (state_in context.now state.old)) }
{
    match value {
        Some(value) => {
            let words = evaluate(context, value, state)?;
            Ok(Leaving::ByReturn(words))
        }
        None => Ok(Leaving::ByReturn(Words::new(context.run.alloc))),
    }
}

/// An `if`.
#[cycle(running)]
fn run_if(
    context: &Context,
    cond: &Expr,
    consequent: &Stmt,
    alternative: &Option<Boxed<Stmt>>,
    state: &mut State,
) -> Result<Leaving, Stop>
    ensures { Meets plain_leaving result (state_in context.now state.new) (done_in context.now (if_stmt (plain_expr cond.now) (plain_stmt consequent.now) (plain_maybe_stmt alternative.now)) (state_in context.now state.old)) }
{
    if condition(context, cond, state)? {
        return run_statement(context, consequent, state);
    }
    match alternative {
        Some(alternative) => run_statement(context, alternative.get(), state),
        None => Ok(Leaving::AtEnd),
    }
}
