//! Statements that are added behind others.

ghost use Rattle.std.specs.Prelude.{◌≡◌, ◌∷◌, ◌++◌, [], None, Some, OnOk};
ghost use Rattle.hl_meaning.specs.Views.{plain_expr};
ghost use Rattle.hl_inline.specs.Building.{plain_code};
ghost use Rattle.hl_inline.specs.EmittedCode.{as_alternative, as_one};
ghost use Rattle.hl_inline.specs.FlatTrees.{flat_block, flat_if, flat_leave, flat_local, flat_loop, flat_named, flat_run, no_flat_stmts, some_flat_stmt};
ghost use Rattle.hl_inline.specs.FlatViews.{flat_stmts_of, plain_flat_stmt};

use crate::flat::{FlatStmt, FlatStmts};
use crate::made::{choice, leave_unless, loop_of, named};
use base_core::NoMemory;
use hl_meaning::Expr;
use sqlite_items::Boxed;
use std::alloc::Global;

/// Adds a statement.
///
/// # Errors
/// `NoMemory` where memory is refused, as in each call below.
pub(crate) fn add(stmt: FlatStmt, code: &mut FlatStmts) -> Result<(), NoMemory>
    ensures { OnOk result (plain_code code.new ≡ plain_code code.old ++ plain_flat_stmt stmt ∷ []) }
{
    code.push(stmt)?;
    Ok(())
}

/// Adds what leaves a name.
pub(crate) fn add_leave(name: u32, code: &mut FlatStmts) -> Result<(), NoMemory>
    ensures { OnOk result (plain_code code.new ≡ plain_code code.old ++ flat_leave name ∷ []) }
{
    add(FlatStmt::Leave(name), code)
}

/// Adds what sets a variable to a value.
pub(crate) fn add_set(variable: u32, value: Expr, code: &mut FlatStmts) -> Result<(), NoMemory>
    ensures { OnOk result (plain_code code.new ≡ plain_code code.old ++ flat_local variable (Some (plain_expr value)) ∷ []) }
{
    add(
        FlatStmt::Local {
            variable,
            init: Some(value),
        },
        code,
    )
}

/// Adds what sets a variable to zeros.
pub(crate) fn add_zeros(variable: u32, code: &mut FlatStmts) -> Result<(), NoMemory>
    ensures { OnOk result (plain_code code.new ≡ plain_code code.old ++ flat_local variable None ∷ []) }
{
    add(
        FlatStmt::Local {
            variable,
            init: None,
        },
        code,
    )
}

/// Adds what computes a value.
pub(crate) fn add_run(value: Expr, code: &mut FlatStmts) -> Result<(), NoMemory>
    ensures { OnOk result (plain_code code.new ≡ plain_code code.old ++ flat_run (plain_expr value) ∷ []) }
{
    add(FlatStmt::Run(value), code)
}

/// Adds statements as a block.
pub(crate) fn add_block(inner: FlatStmts, code: &mut FlatStmts) -> Result<(), NoMemory>
    ensures { OnOk result (plain_code code.new ≡ plain_code code.old ++ flat_block (flat_stmts_of (plain_code inner)) ∷ []) }
{
    add(FlatStmt::Block(inner), code)
}

/// Adds statements as a block inside a name.
pub(crate) fn add_named_block(
    alloc: Global,
    name: u32,
    inner: FlatStmts,
    code: &mut FlatStmts,
) -> Result<(), NoMemory>
    ensures { OnOk result (plain_code code.new ≡ plain_code code.old ++ flat_named name (flat_block (flat_stmts_of (plain_code inner))) ∷ []) }
{
    let body = Boxed::new(alloc, FlatStmt::Block(inner))?;
    add(FlatStmt::Named { name, body }, code)
}

/// Adds statements inside a name.
pub(crate) fn add_named(
    alloc: Global,
    name: u32,
    inner: FlatStmts,
    code: &mut FlatStmts,
) -> Result<(), NoMemory>
    ensures { OnOk result (plain_code code.new ≡ plain_code code.old ++ flat_named name (as_one (plain_code inner)) ∷ []) }
{
    let stmt = named(alloc, name, inner)?;
    add(stmt, code)
}

/// Adds a loop of turns inside a name.
pub(crate) fn add_loop(
    alloc: Global,
    name: u32,
    turn: FlatStmts,
    code: &mut FlatStmts,
) -> Result<(), NoMemory>
    ensures { OnOk result (plain_code code.new ≡ plain_code code.old ++ flat_named name (flat_loop (as_one (plain_code turn))) ∷ []) }
{
    let stmt = loop_of(alloc, name, turn)?;
    add(stmt, code)
}

/// Adds what leaves a name unless a condition holds.
pub(crate) fn add_test(
    alloc: Global,
    name: u32,
    cond: Expr,
    code: &mut FlatStmts,
) -> Result<(), NoMemory>
    ensures { OnOk result (plain_code code.new ≡ plain_code code.old ++ flat_if (plain_expr cond) (flat_block no_flat_stmts) (some_flat_stmt (flat_leave name)) ∷ []) }
{
    let stmt = leave_unless(alloc, name, cond)?;
    add(stmt, code)
}

/// Adds an `if`.
pub(crate) fn add_choice(
    alloc: Global,
    cond: Expr,
    consequent: FlatStmts,
    alternative: FlatStmts,
    code: &mut FlatStmts,
) -> Result<(), NoMemory>
    ensures { OnOk result (plain_code code.new ≡ plain_code code.old ++ flat_if (plain_expr cond) (as_one (plain_code consequent)) (as_alternative (plain_code alternative)) ∷ []) }
{
    let stmt = choice(alloc, cond, consequent, alternative)?;
    add(stmt, code)
}

/// Adds other statements.
pub(crate) fn add_all(more: FlatStmts, code: &mut FlatStmts) -> Result<(), NoMemory>
    ensures { OnOk result (plain_code code.new ≡ plain_code code.old ++ plain_code more) }
{
    code.append(more)?;
    Ok(())
}
