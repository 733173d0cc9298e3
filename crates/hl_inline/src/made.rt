//! Statements made of their parts.

ghost use Rattle.std.specs.Prelude.{◌≡◌, IfOk};
ghost use Rattle.hl_meaning.specs.Views.{plain_expr};
ghost use Rattle.hl_inline.specs.Building.{plain_code};
ghost use Rattle.hl_inline.specs.EmittedCode.{as_alternative, as_one};
ghost use Rattle.hl_inline.specs.FlatTrees.{flat_block, flat_if, flat_leave, flat_loop, flat_named, no_flat_stmts, some_flat_stmt};
ghost use Rattle.hl_inline.specs.FlatViews.{plain_flat_stmt, plain_maybe_flat_stmt};

use crate::flat::{FlatStmt, FlatStmts};
use base_core::NoMemory;
use hl_meaning::Expr;
use sqlite_items::Boxed;
use std::alloc::Global;

/// Statements as one.
pub(crate) fn as_one(mut stmts: FlatStmts) -> FlatStmt
    ensures { plain_flat_stmt result ≡ as_one (plain_code stmts) }
{
    if stmts.len() != 1 {
        return FlatStmt::Block(stmts);
    }
    match stmts.pop() {
        Some(stmt) => stmt,
        None => FlatStmt::Block(stmts),
    }
}

/// Statements as an alternative, which is left out where it does nothing.
///
/// # Errors
/// `NoMemory` where memory is refused, as in each call below.
pub(crate) fn as_alternative(
    alloc: Global,
    stmts: FlatStmts,
) -> Result<Option<Boxed<FlatStmt>>, NoMemory>
    ensures { IfOk result (λ stmt. plain_maybe_flat_stmt stmt ≡ as_alternative (plain_code stmts)) }
{
    if stmts.is_empty() {
        return Ok(None);
    }
    let stmt = Boxed::new(alloc, as_one(stmts))?;
    Ok(Some(stmt))
}

/// An `if`.
pub(crate) fn choice(
    alloc: Global,
    cond: Expr,
    consequent: FlatStmts,
    alternative: FlatStmts,
) -> Result<FlatStmt, NoMemory>
    ensures { IfOk result (λ stmt. plain_flat_stmt stmt ≡ flat_if (plain_expr cond) (as_one (plain_code consequent)) (as_alternative (plain_code alternative))) }
{
    let yes = Boxed::new(alloc, as_one(consequent))?;
    let no = as_alternative(alloc, alternative)?;
    Ok(FlatStmt::If { cond, yes, no })
}

/// What leaves a name unless a condition holds.
pub(crate) fn leave_unless(alloc: Global, name: u32, cond: Expr) -> Result<FlatStmt, NoMemory>
    ensures { IfOk result (λ stmt. plain_flat_stmt stmt ≡ flat_if (plain_expr cond) (flat_block no_flat_stmts) (some_flat_stmt (flat_leave name))) }
{
    let yes = Boxed::new(alloc, FlatStmt::Block(FlatStmts::new(alloc)))?;
    let no = Boxed::new(alloc, FlatStmt::Leave(name))?;
    Ok(FlatStmt::If {
        cond,
        yes,
        no: Some(no),
    })
}

/// Statements inside a name.
pub(crate) fn named(alloc: Global, name: u32, stmts: FlatStmts) -> Result<FlatStmt, NoMemory>
    ensures { IfOk result (λ stmt. plain_flat_stmt stmt ≡ flat_named name (as_one (plain_code stmts))) }
{
    let body = Boxed::new(alloc, as_one(stmts))?;
    Ok(FlatStmt::Named { name, body })
}

/// A loop of turns inside a name.
pub(crate) fn loop_of(alloc: Global, name: u32, turn: FlatStmts) -> Result<FlatStmt, NoMemory>
    ensures { IfOk result (λ stmt. plain_flat_stmt stmt ≡ flat_named name (flat_loop (as_one (plain_code turn)))) }
{
    let turn = Boxed::new(alloc, as_one(turn))?;
    let body = Boxed::new(alloc, FlatStmt::Loop(turn))?;
    Ok(FlatStmt::Named { name, body })
}
