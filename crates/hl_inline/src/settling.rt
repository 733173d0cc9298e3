//! Values that stay as they are while further statements run.

ghost use Rattle.std.specs.Prelude.{◌≡◌, [], false, IfOk};
ghost use Rattle.hl_meaning.specs.Views.{plain_expr};
ghost use Rattle.hl_inline.specs.Building.{made, operand_behind, plain_code, plain_fresh, valued};
ghost use Rattle.hl_inline.specs.Emitting.{saved, settled};

use crate::copies::reading;
use crate::flat::{FlatStmt, FlatStmts};
use crate::fresh::Fresh;
use base_core::NoMemory;
use hl_meaning::Expr;
use std::alloc::Global;

/// What becomes of an expression. Where it is fixed, statements behind leave its value alone.
#[derive(Debug, Drop)]
pub(crate) struct Emitted {
    pub value: Expr,
    pub fixed: bool,
}

/// A value that stays as it is while the statements behind it run, where there are any.
///
/// # Errors
/// `NoMemory` where memory is refused, as in each call below.
pub(crate) fn settle(
    alloc: Global,
    further: bool,
    emitted: Emitted,
    fresh: &mut Fresh,
    code: &mut FlatStmts,
) -> Result<Expr, NoMemory>
    ensures { IfOk result (λ value. operand_behind [] (settled further (valued (plain_code code.old) (plain_expr emitted.value) emitted.fixed (plain_fresh fresh.old))) ≡ made (plain_code code.new) (plain_expr value) (plain_fresh fresh.new)) }
{
    if further && !emitted.fixed {
        return save(alloc, emitted.value, fresh, code);
    }
    Ok(emitted.value)
}

/// Puts a value into a variable, and gives what reads that.
fn save(
    alloc: Global,
    value: Expr,
    fresh: &mut Fresh,
    code: &mut FlatStmts,
) -> Result<Expr, NoMemory>
    ensures { IfOk result (λ read. operand_behind [] (saved (valued (plain_code code.old) (plain_expr value) false (plain_fresh fresh.old))) ≡ made (plain_code code.new) (plain_expr read) (plain_fresh fresh.new)) }
{
    let number = fresh.next();
    let at = value.at;
    let read = reading(alloc, &value.ty, at, number)?;
    fresh.add_unnamed(alloc, &value.ty, at)?;
    code.push(FlatStmt::Local {
        variable: number,
        init: Some(value),
    })?;
    Ok(read)
}
