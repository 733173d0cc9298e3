//! Constants, which become variables that are set first.

ghost use Rattle.std.specs.Prelude.{◌≡◌, List, [], ◌++◌, IfOk, OnOk, map};
ghost use Rattle.hl_meaning.specs.Layout.{struct_kinds_after};
ghost use Rattle.hl_meaning.specs.Programs.{StructDef};
ghost use Rattle.hl_meaning.specs.Views.{plain_constant, plain_expr, plain_structs};
ghost use Rattle.hl_inline.specs.Building.{plain_code};
ghost use Rattle.hl_inline.specs.InlinedPrograms.{constant_value, literals, set_constants};

use crate::flat::{FlatStmt, FlatStmts};
use base_core::NoMemory;
use hl_layout::{Kinds, kinds_in, struct_kinds};
use hl_meaning::{Constant, Constants, Expr, Exprs, Form, HlType, Kind, StructDefs};
use std::alloc::Global;

/// Sets the variables of constants, of which the first has number 0.
///
/// # Errors
/// `NoMemory` where memory is refused, as in each call below.
pub(crate) fn set_constants(
    alloc: Global,
    structs: &StructDefs,
    constants: &Constants,
    code: &mut FlatStmts,
) -> Result<(), NoMemory>
    ensures { OnOk result (plain_code code.new ≡ plain_code code.old ++ set_constants (plain_structs structs.now) 0 (map plain_constant constants.now)) }
{
    if constants.is_empty() {
        return Ok(());
    }
    let known = struct_kinds(alloc, structs.as_slice())?;
    set_each(alloc, known.as_slice(), constants, code)
}

/// Sets them, given the kinds of each struct.
fn set_each(
    alloc: Global,
    known: &[Kinds],
    constants: &Constants,
    code: &mut FlatStmts,
) -> Result<(), NoMemory>
    ensures { (structs : List StructDef) → known.now ≡ struct_kinds_after [] structs → OnOk result (plain_code code.new ≡ plain_code code.old ++ set_constants structs 0 (map plain_constant constants.now)) }
{
    for (number, constant) in constants.as_slice().iter().enumerate() {
        let value = constant_value(alloc, known, constant)?;
        code.push(FlatStmt::Local {
            variable: number as u32,
            init: Some(value),
        })?;
    }
    Ok(())
}

/// The value of a constant, made of its words.
fn constant_value(alloc: Global, known: &[Kinds], constant: &Constant) -> Result<Expr, NoMemory>
    ensures { (structs : List StructDef) → known.now ≡ struct_kinds_after [] structs → IfOk result (λ value. plain_expr value ≡ constant_value structs (plain_constant constant.now)) }
{
    let variable = &constant.variable;
    let kinds = kinds_in(alloc, known, &variable.ty)?;
    let words = constant.words.as_slice();
    let parts = literals(alloc, variable.at, kinds.as_slice(), words)?;
    let ty = variable.ty.copied(alloc)?;
    Ok(Expr {
        ty,
        at: variable.at,
        form: Form::Build(parts),
    })
}

/// Words of these kinds, one literal each.
fn literals(alloc: Global, at: usize, kinds: &[Kind], words: &[u32]) -> Result<Exprs, NoMemory>
    ensures { IfOk result (λ parts. map plain_expr parts ≡ literals at kinds.now words.now) }
{
    let mut parts = Exprs::new(alloc);
    let count = kinds.len().min(words.len());
    for index in 0..count {
        parts.push(Expr {
            ty: HlType::Scalar(kinds[index]),
            at,
            form: Form::Literal(words[index]),
        })?;
    }
    Ok(parts)
}
