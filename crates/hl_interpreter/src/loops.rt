//! What loops do: turns, until one leaves the loop or no turns are left. All functions give want of memory where memory is
//! refused, and the end of the run where it ends in them.

ghost use Rattle.std.specs.Prelude.{◌≡◌, None, Some, option_map};
ghost use Rattle.hl_meaning.specs.Trees.{do_stmt, for_stmt, while_stmt};
ghost use Rattle.hl_meaning.specs.Views.{plain_expr, plain_stmt, plain_stmts};
ghost use Rattle.hl_source.specs.State.{State as PlainState};
ghost use Rattle.hl_source.specs.Statements.{Doing, after_turn, do_turn, for_turn, turns};
ghost use Rattle.hl_interpreter.specs.Runs.{Meets, context_of, done_in, loop_left, plain_leaving, state_in, tests};

use crate::run::{Context, Stop};
use crate::state::State;
use crate::statements::{
    Leaving, compute_if, condition, condition_if, run_statement, run_statements,
};
use hl_meaning::{Expr, Stmt, Stmts};
use lane_core::Asked;

/// A `for`: its first part, and then turns.
#[cycle(running)]
pub(crate) fn for_loop(
    context: &Context,
    init: &Stmts,
    cond: &Option<Expr>,
    step: &Option<Expr>,
    body: &Stmt,
    state: &mut State,
) -> Result<Leaving, Stop>
    ensures { Meets plain_leaving result (state_in context.now state.new) (done_in context.now (for_stmt (plain_stmts init.now) (option_map plain_expr cond.now) (option_map plain_expr step.now) (plain_stmt body.now)) (state_in context.now state.old)) }
{
    match run_statements(context, init, state)? {
        Leaving::AtEnd => for_turns(context, cond, step, body, state),
        leaving => Ok(leaving),
    }
}

/// The turns of a `for`.
#[cycle(running)]
fn for_turns(
    context: &Context,
    cond: &Option<Expr>,
    step: &Option<Expr>,
    body: &Stmt,
    state: &mut State,
) -> Result<Leaving, Stop>
    ensures { Meets plain_leaving result (state_in context.now state.new) (turns context.now.run.now.turns (for_turn (context_of context.now) (option_map plain_expr cond.now) (done_in context.now (plain_stmt body.now)) (option_map plain_expr step.now)) (state_in context.now state.old)) }
{
    for _turn in 0..context.run.turns {
        let leaving = for_turn(context, cond, step, body, state)?;
        if let Some(leaving) = behind_turn(leaving) {
            return Ok(leaving);
        }
    }
    Err(Stop::Ends(Asked::Goes))
}

/// A turn of a `for`: the condition, the body, and the step, also where the body continues.
#[cycle(running)]
fn for_turn(
    context: &Context,
    cond: &Option<Expr>,
    step: &Option<Expr>,
    body: &Stmt,
    state: &mut State,
) -> Result<Leaving, Stop>
    ensures { Meets plain_leaving result (state_in context.now state.new) (for_turn (context_of context.now) (option_map plain_expr cond.now) (done_in context.now (plain_stmt body.now)) (option_map plain_expr step.now) (state_in context.now state.old)) }
{
    if !condition_if(context, cond, state)? {
        return Ok(Leaving::ByBreak);
    }
    match run_statement(context, body, state)? {
        Leaving::AtEnd => compute_if(context, step, state),
        Leaving::ByContinue => compute_if(context, step, state),
        leaving => Ok(leaving),
    }
}

/// A `while`.
#[cycle(running)]
pub(crate) fn while_loop(
    context: &Context,
    cond: &Expr,
    body: &Stmt,
    state: &mut State,
) -> Result<Leaving, Stop>
    ensures { Meets plain_leaving result (state_in context.now state.new) (done_in context.now (while_stmt (plain_expr cond.now) (plain_stmt body.now)) (state_in context.now state.old)) }
{
    for _turn in 0..context.run.turns {
        let leaving = while_turn(context, cond, body, state)?;
        if let Some(leaving) = behind_turn(leaving) {
            return Ok(leaving);
        }
    }
    Err(Stop::Ends(Asked::Goes))
}

/// A turn of a `while`: the condition, and the body.
#[cycle(running)]
fn while_turn(
    context: &Context,
    cond: &Expr,
    body: &Stmt,
    state: &mut State,
) -> Result<Leaving, Stop>
    ensures { Meets plain_leaving result (state_in context.now state.new) (for_turn (context_of context.now) (Some (plain_expr cond.now)) (done_in context.now (plain_stmt body.now)) None (state_in context.now state.old)) }
{
    if !condition(context, cond, state)? {
        return Ok(Leaving::ByBreak);
    }
    match run_statement(context, body, state)? {
        Leaving::ByContinue => Ok(Leaving::AtEnd),
        leaving => Ok(leaving),
    }
}

/// A `do`: in each turn the body, and then the condition, also where the body continues.
#[cycle(running)]
pub(crate) fn do_loop(
    context: &Context,
    body: &Stmt,
    cond: &Expr,
    state: &mut State,
) -> Result<Leaving, Stop>
    ensures { Meets plain_leaving result (state_in context.now state.new) (done_in context.now (do_stmt (plain_stmt body.now) (plain_expr cond.now)) (state_in context.now state.old)) }
{
    for _turn in 0..context.run.turns {
        let leaving = do_turn(context, body, cond, state)?;
        if let Some(leaving) = behind_turn(leaving) {
            return Ok(leaving);
        }
    }
    Err(Stop::Ends(Asked::Goes))
}

/// A turn of a `do`: the body, and then the condition, also where the body continues.
#[cycle(running)]
fn do_turn(context: &Context, body: &Stmt, cond: &Expr, state: &mut State) -> Result<Leaving, Stop>
    ensures { Meets plain_leaving result (state_in context.now state.new) (do_turn (context_of context.now) (done_in context.now (plain_stmt body.now)) (plain_expr cond.now) (state_in context.now state.old)) }
{
    match run_statement(context, body, state)? {
        Leaving::AtEnd => test_condition(context, cond, state),
        Leaving::ByContinue => test_condition(context, cond, state),
        leaving => Ok(leaving),
    }
}

/// The condition of a `do`, behind which the loop goes on or breaks off.
#[cycle(running)]
fn test_condition(context: &Context, cond: &Expr, state: &mut State) -> Result<Leaving, Stop>
    ensures { Meets plain_leaving result (state_in context.now state.new) (tests (context_of context.now) (plain_expr cond.now) (state_in context.now state.old)) }
{
    if condition(context, cond, state)? {
        Ok(Leaving::AtEnd)
    } else {
        Ok(Leaving::ByBreak)
    }
}

/// How a loop is left behind a turn that is left so, and none where another turn follows.
fn behind_turn(leaving: Leaving) -> Option<Leaving>
    ensures { (next : Doing) (s : PlainState) → after_turn next (plain_leaving leaving) s ≡ loop_left next result s }
{
    match leaving {
        Leaving::AtEnd => None,
        Leaving::ByContinue => None,
        Leaving::ByBreak => Some(Leaving::AtEnd),
        Leaving::ByReturn(value) => Some(Leaving::ByReturn(value)),
    }
}
