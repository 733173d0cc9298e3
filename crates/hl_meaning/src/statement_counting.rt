//! What each statement and function of a program holds.

ghost use Rattle.std.specs.Prelude.{◌≡◌, map, option_map};
ghost use Rattle.hl_meaning.specs.Stopping.{stopped};
ghost use Rattle.hl_meaning.specs.Sums.{constant_words, expr_option_sums, function_sums, stmt_if_sums, stmt_sums, stmts_sums, stop_all, variable_words};
ghost use Rattle.hl_meaning.specs.Views.{plain_constant, plain_expr, plain_function, plain_maybe_stmt, plain_stmt, plain_stmts, plain_structs, plain_variable};
ghost use Rattle.hl_meaning.specs.Held.{HasWords};
ghost use Rattle.hl_meaning.specs.Counters.{counted_by};

use crate::counting::{Counter, expr_sums};
use crate::expression::Expr;
use crate::layout::stopped_words;
use crate::program::{Constants, FunctionDef, StructDefs, Variables};
use crate::statement::{Stmt, Stmts};
use crate::sums::{Sums, stop};
use sqlite_items::Boxed;

/// What a statement holds.
#[cycle(statement_counting)]
fn stmt_sums(counter: &Counter, stmt: &Stmt) -> Sums
    requires { HasWords (plain_structs counter.now.structs.now) }
    ensures { result ≡ stop_all (stmt_sums (counted_by counter.now) (plain_stmt stmt.now)) }
{
    match stmt {
        Stmt::Block(body) => stmts_sums(counter, body).node(1),
        Stmt::Local { init, .. } => option_sums(counter, init).node(0),
        Stmt::Run(value) => expr_sums(counter, value).node(1),
        Stmt::If { cond, yes, no } => {
            let branches = stmt_sums(counter, yes.get()).both(stmt_if_sums(counter, no));
            expr_sums(counter, cond).both(branches).branch()
        }
        Stmt::For {
            init,
            cond,
            step,
            body,
        } => {
            let turn = option_sums(counter, step).both(stmt_sums(counter, body.get()));
            let turns = option_sums(counter, cond).both(turn);
            stmts_sums(counter, init).both(turns).branch()
        }
        Stmt::While { cond, body } => {
            expr_sums(counter, cond)
                .both(stmt_sums(counter, body.get()))
                .branch()
        }
        Stmt::Do { body, cond } => {
            stmt_sums(counter, body.get())
                .both(expr_sums(counter, cond))
                .branch()
        }
        Stmt::Break => Sums::NOTHING.branch(),
        Stmt::Continue => Sums::NOTHING.branch(),
        Stmt::Return(value) => option_sums(counter, value).branch(),
    }
}

/// What statements hold together.
#[cycle(statement_counting)]
fn stmts_sums(counter: &Counter, stmts: &Stmts) -> Sums
    requires { HasWords (plain_structs counter.now.structs.now) }
    ensures { result ≡ stop_all (stmts_sums (counted_by counter.now) (plain_stmts stmts.now)) }
{
    let mut sums = Sums::NOTHING;
    for stmt in stmts.as_slice() {
        sums = sums.both(stmt_sums(counter, stmt));
    }
    sums
}

/// What a statement holds that may be there.
#[cycle(statement_counting)]
fn stmt_if_sums(counter: &Counter, stmt: &Option<Boxed<Stmt>>) -> Sums
    requires { HasWords (plain_structs counter.now.structs.now) }
    ensures { result ≡ stop_all (stmt_if_sums (counted_by counter.now) (plain_maybe_stmt stmt.now)) }
{
    match stmt {
        Some(stmt) => stmt_sums(counter, stmt.get()),
        None => Sums::NOTHING,
    }
}

/// What an expression holds that may be there.
fn option_sums(counter: &Counter, value: &Option<Expr>) -> Sums
    requires { HasWords (plain_structs counter.now.structs.now) }
    ensures { result ≡ stop_all (expr_option_sums (counted_by counter.now) (option_map plain_expr value.now)) }
{
    match value {
        Some(value) => expr_sums(counter, value),
        None => Sums::NOTHING,
    }
}

/// The words of variables together.
pub(crate) fn variables_words(structs: &StructDefs, variables: &Variables) -> u64
    requires { HasWords (plain_structs structs.now) }
    ensures { result ≡ stopped (variable_words (plain_structs structs.now) (map plain_variable variables.now)) }
{
    let mut words: u64 = 0;
    for variable in variables.as_slice() {
        words = stop(words.saturating_add(stopped_words(structs, &variable.ty)));
    }
    words
}

/// The words of constants together.
pub(crate) fn constants_words(structs: &StructDefs, constants: &Constants) -> u64
    requires { HasWords (plain_structs structs.now) }
    ensures { result ≡ stopped (constant_words (plain_structs structs.now) (map plain_constant constants.now)) }
{
    let mut words: u64 = 0;
    for constant in constants.as_slice() {
        words = stop(words.saturating_add(stopped_words(structs, &constant.variable.ty)));
    }
    words
}

/// What a function holds.
pub(crate) fn function_sums(counter: &Counter, function: &FunctionDef) -> Sums
    requires { HasWords (plain_structs counter.now.structs.now) }
    ensures { result ≡ stop_all (function_sums (counted_by counter.now) (plain_function function.now)) }
{
    let words = variables_words(counter.structs, &function.variables);
    let result_words = stopped_words(counter.structs, &function.result);
    let memory = Sums::memory(words, words.saturating_add(result_words));
    stmts_sums(counter, &function.body).both(memory)
}
