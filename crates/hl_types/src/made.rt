//! Statements as they are made of their parts. What isn't there because a rule is broken leaves the whole out.

ghost use Rattle.std.specs.Prelude.{◌≡◌, IfOk, Some, option_map};
ghost use Rattle.hl_meaning.specs.Trees.{block_stmt, do_stmt, if_stmt, run_stmt, some_stmt, while_stmt};
ghost use Rattle.hl_meaning.specs.Views.{plain_expr, plain_stmt, plain_stmts};
ghost use Rattle.hl_rules.specs.Expressions.{with_three, with_two};
ghost use Rattle.hl_rules.specs.Statements.{appended, for_code, one_stmt, single};
ghost use Rattle.hl_types.specs.Walks.{made_expr, made_expr_if, made_stmt_if, made_stmts};

use base_core::NoMemory;
use hl_meaning::{Expr, Stmt, Stmts};
use sqlite_items::{Boxed, Items};
use std::alloc::Global;

/// One statement.
pub(crate) fn one(stmt: Stmt, alloc: Global) -> Result<Stmts, NoMemory>
    ensures { IfOk result (λ made. plain_stmts made ≡ one_stmt (plain_stmt stmt)) }
{
    let mut made = Items::new(alloc);
    made.push(stmt)?;
    Ok(made)
}

/// Statements behind others.
pub(crate) fn append(made: Option<Stmts>, more: Option<Stmts>) -> Result<Option<Stmts>, NoMemory>
    ensures { IfOk result (λ all. made_stmts all ≡ appended (made_stmts made) (made_stmts more)) }
{
    let Some(mut made) = made else {
        return Ok(None);
    };
    let Some(more) = more else {
        return Ok(None);
    };
    made.append(more)?;
    Ok(Some(made))
}

/// The statement that statements are where one must stand: one is itself, and others are a block.
pub(crate) fn single(mut made: Stmts) -> Stmt
    ensures { plain_stmt result ≡ single (plain_stmts made) }
{
    if made.len() == 1 {
        made.remove(0)
    } else {
        Stmt::Block(made)
    }
}

/// A block.
pub(crate) fn block_of(body: Option<Stmts>, alloc: Global) -> Result<Option<Stmts>, NoMemory>
    ensures { IfOk result (λ made. made_stmts made ≡ option_map (λ inner. one_stmt (block_stmt inner)) (made_stmts body)) }
{
    let Some(body) = body else {
        return Ok(None);
    };
    Ok(Some(one(Stmt::Block(body), alloc)?))
}

/// An expression as a statement.
pub(crate) fn run_of(value: Option<Expr>, alloc: Global) -> Result<Option<Stmts>, NoMemory>
    ensures { IfOk result (λ made. made_stmts made ≡ option_map (λ e. one_stmt (run_stmt e)) (made_expr value)) }
{
    let Some(value) = value else {
        return Ok(None);
    };
    Ok(Some(one(Stmt::Run(value), alloc)?))
}

/// A `while`.
pub(crate) fn while_of(
    cond: Option<Expr>,
    body: Option<Stmts>,
    alloc: Global,
) -> Result<Option<Stmts>, NoMemory>
    ensures { IfOk result (λ made. made_stmts made ≡ with_two (λ c inner. Some (one_stmt (while_stmt c (single inner)))) (made_expr cond) (made_stmts body)) }
{
    let Some(cond) = cond else {
        return Ok(None);
    };
    let Some(body) = body else {
        return Ok(None);
    };
    let body = Boxed::new(alloc, single(body))?;
    Ok(Some(one(Stmt::While { cond, body }, alloc)?))
}

/// A `do`.
pub(crate) fn do_of(
    body: Option<Stmts>,
    cond: Option<Expr>,
    alloc: Global,
) -> Result<Option<Stmts>, NoMemory>
    ensures { IfOk result (λ made. made_stmts made ≡ with_two (λ inner c. Some (one_stmt (do_stmt (single inner) c))) (made_stmts body) (made_expr cond)) }
{
    let Some(body) = body else {
        return Ok(None);
    };
    let Some(cond) = cond else {
        return Ok(None);
    };
    let body = Boxed::new(alloc, single(body))?;
    Ok(Some(one(Stmt::Do { body, cond }, alloc)?))
}

/// An `else` that may be there.
pub(crate) fn alternative_of(
    made: Option<Stmts>,
    alloc: Global,
) -> Result<Option<Option<Boxed<Stmt>>>, NoMemory>
    ensures { IfOk result (λ other. made_stmt_if other ≡ option_map (λ inner. some_stmt (single inner)) (made_stmts made)) }
{
    let Some(made) = made else {
        return Ok(None);
    };
    Ok(Some(Some(Boxed::new(alloc, single(made))?)))
}

/// An `if`.
pub(crate) fn if_of(
    cond: Option<Expr>,
    yes: Option<Stmts>,
    no: Option<Option<Boxed<Stmt>>>,
    alloc: Global,
) -> Result<Option<Stmts>, NoMemory>
    ensures { IfOk result (λ made. made_stmts made ≡ with_three (λ c inner other. Some (one_stmt (if_stmt c (single inner) other))) (made_expr cond) (made_stmts yes) (made_stmt_if no)) }
{
    let Some(cond) = cond else {
        return Ok(None);
    };
    let Some(yes) = yes else {
        return Ok(None);
    };
    let Some(no) = no else {
        return Ok(None);
    };
    let yes = Boxed::new(alloc, single(yes))?;
    Ok(Some(one(Stmt::If { cond, yes, no }, alloc)?))
}

/// A `for`.
pub(crate) fn for_of(
    init: Option<Stmts>,
    cond: Option<Option<Expr>>,
    step: Option<Option<Expr>>,
    body: Option<Stmts>,
    alloc: Global,
) -> Result<Option<Stmts>, NoMemory>
    ensures { IfOk result (λ made. made_stmts made ≡ for_code (made_stmts init) (made_expr_if cond) (made_expr_if step) (made_stmts body)) }
{
    let Some(init) = init else {
        return Ok(None);
    };
    let Some(cond) = cond else {
        return Ok(None);
    };
    for_with(init, cond, step, body, alloc)
}

/// A `for` with its first part and its condition.
fn for_with(
    init: Stmts,
    cond: Option<Expr>,
    step: Option<Option<Expr>>,
    body: Option<Stmts>,
    alloc: Global,
) -> Result<Option<Stmts>, NoMemory>
    ensures { IfOk result (λ made. made_stmts made ≡ for_code (Some (plain_stmts init)) (Some (option_map plain_expr cond)) (made_expr_if step) (made_stmts body)) }
{
    let Some(step) = step else {
        return Ok(None);
    };
    let Some(body) = body else {
        return Ok(None);
    };
    let body = Boxed::new(alloc, single(body))?;
    let made = Stmt::For {
        init,
        cond,
        step,
        body,
    };
    Ok(Some(one(made, alloc)?))
}
