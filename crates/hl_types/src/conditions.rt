//! Expressions in statements: conditions, steps, and values that are converted to a type.

ghost use Rattle.std.specs.Prelude.{◌≡◌, IfOk, OnOk, Some, option_and_then, option_map};
ghost use Rattle.hl_meaning.specs.Trees.{run_stmt};
ghost use Rattle.hl_meaning.specs.Views.{plain_expr, plain_ty};
ghost use Rattle.hl_parser.specs.Views.{plain_maybe, plain_of};
ghost use Rattle.hl_rules.specs.Expressions.{value_code};
ghost use Rattle.hl_rules.specs.Nodes as nodes;
ghost use Rattle.hl_rules.specs.Rules.{noted};
ghost use Rattle.hl_rules.specs.Sites.{condition_if, condition_sites, expression_if, expression_sites};
ghost use Rattle.hl_rules.specs.Statements.{condition_code, condition_code_if, one_stmt, value_code_if};
ghost use Rattle.hl_types.specs.Walks.{made_expr, made_expr_if, made_stmts};
ghost use Rattle.hl_values.specs.ScopeViews.{scope_of};
ghost use Rattle.hl_values.specs.Views.{plain_code_if, plain_type_if};

use crate::expressions::{expression, used};
use crate::made::run_of;
use crate::types::is_no_scalar;
use base_core::NoMemory;
use hl_meaning::{Expr, HlType, Kind, Stmts};
use hl_parser::Tree;
use hl_rules::{Broken, note_if};
use hl_values::{Code, Scope, converted_code};
use sqlite_items::Boxed;
use std::alloc::Global;

/// What stands in a box, where there is one.
fn unboxed(value: Option<Boxed<Expr>>) -> Option<Expr>
    ensures { made_expr result ≡ option_map plain_expr value }
{
    match value {
        Some(value) => Some(value.into_inner()),
        None => None,
    }
}

/// What something becomes, as a value of a type, where it becomes something and converts to it.
///
/// # Errors
/// `NoMemory` where memory is refused, as in each call below.
pub(crate) fn converted_if(
    ty: &HlType,
    code: Option<Code>,
    alloc: Global,
) -> Result<Option<Expr>, NoMemory>
    ensures { IfOk result (λ made. made_expr made ≡ option_and_then (nodes.converted_code (plain_ty ty.now)) (plain_code_if code)) }
{
    match code {
        Some(code) => {
            let value = converted_code(ty, code, alloc)?;
            Ok(unboxed(value))
        }
        None => Ok(None),
    }
}

/// What something becomes, as a value of a type that may not be known.
pub(crate) fn converted_to(
    ty: &Option<HlType>,
    code: Option<Code>,
    alloc: Global,
) -> Result<Option<Expr>, NoMemory>
    ensures { IfOk result (λ made. made_expr made ≡ option_and_then (λ own. option_and_then (nodes.converted_code own) (plain_code_if code)) (plain_type_if ty.now)) }
{
    match ty {
        Some(ty) => converted_if(ty, code, alloc),
        None => Ok(None),
    }
}

/// What something becomes, as a value, where it becomes something.
fn value_if(code: Option<Code>, alloc: Global) -> Result<Option<Expr>, NoMemory>
    ensures { IfOk result (λ made. made_expr made ≡ option_map nodes.value_of_code (plain_code_if code)) }
{
    match code {
        Some(code) => {
            let value = code.value(alloc)?;
            Ok(Some(value.into_inner()))
        }
        None => Ok(None),
    }
}

/// What may be left out, where it is given.
pub(crate) fn given(value: Option<Expr>) -> Option<Option<Expr>>
    ensures { made_expr_if result ≡ option_map (λ v. Some v) (made_expr value) }
{
    match value {
        Some(value) => Some(Some(value)),
        None => None,
    }
}

/// The condition of an `if` or a loop, which becomes a bool.
pub(crate) fn condition(
    scope: &Scope,
    tree: &Tree,
    found: &mut Option<Broken>,
    alloc: Global,
) -> Result<Option<Expr>, NoMemory>
    ensures code { IfOk result (λ made. made_expr made ≡ condition_code (scope_of scope.now) (plain_of tree.now)) }
    ensures found { OnOk result (found.new ≡ noted found.old (condition_sites (scope_of scope.now) (plain_of tree.now))) }
{
    let typed = used(scope, tree, found, alloc)?;
    note_if(found, is_no_scalar(&typed.ty), tree.at(), 22);
    converted_if(&HlType::Scalar(Kind::Bool), typed.code, alloc)
}

/// A condition that may be left out.
pub(crate) fn condition_if(
    scope: &Scope,
    tree: &Option<Boxed<Tree>>,
    found: &mut Option<Broken>,
    alloc: Global,
) -> Result<Option<Option<Expr>>, NoMemory>
    ensures code { IfOk result (λ made. made_expr_if made ≡ condition_code_if (scope_of scope.now) (plain_maybe tree.now)) }
    ensures found { OnOk result (found.new ≡ noted found.old (condition_if (scope_of scope.now) (plain_maybe tree.now))) }
{
    match tree {
        Some(tree) => {
            let cond = condition(scope, tree.get(), found, alloc)?;
            Ok(given(cond))
        }
        None => Ok(Some(None)),
    }
}

/// An expression whose value isn't used, as a value.
pub(crate) fn run(
    scope: &Scope,
    tree: &Tree,
    found: &mut Option<Broken>,
    alloc: Global,
) -> Result<Option<Expr>, NoMemory>
    ensures code { IfOk result (λ made. made_expr made ≡ value_code (scope_of scope.now) (plain_of tree.now)) }
    ensures found { OnOk result (found.new ≡ noted found.old (expression_sites (scope_of scope.now) (plain_of tree.now))) }
{
    let typed = expression(scope, tree, found, alloc)?;
    value_if(typed.code, alloc)
}

/// An expression as a statement.
pub(crate) fn run_statement(
    scope: &Scope,
    tree: &Tree,
    found: &mut Option<Broken>,
    alloc: Global,
) -> Result<Option<Stmts>, NoMemory>
    ensures code { IfOk result (λ made. made_stmts made ≡ option_map (λ value. one_stmt (run_stmt value)) (value_code (scope_of scope.now) (plain_of tree.now))) }
    ensures found { OnOk result (found.new ≡ noted found.old (expression_sites (scope_of scope.now) (plain_of tree.now))) }
{
    let value = run(scope, tree, found, alloc)?;
    run_of(value, alloc)
}

/// The step of a `for`, which may be left out.
pub(crate) fn step_if(
    scope: &Scope,
    tree: &Option<Boxed<Tree>>,
    found: &mut Option<Broken>,
    alloc: Global,
) -> Result<Option<Option<Expr>>, NoMemory>
    ensures code { IfOk result (λ made. made_expr_if made ≡ value_code_if (scope_of scope.now) (plain_maybe tree.now)) }
    ensures found { OnOk result (found.new ≡ noted found.old (expression_if (scope_of scope.now) (plain_maybe tree.now))) }
{
    match tree {
        Some(tree) => {
            let value = run(scope, tree.get(), found, alloc)?;
            Ok(given(value))
        }
        None => Ok(Some(None)),
    }
}
