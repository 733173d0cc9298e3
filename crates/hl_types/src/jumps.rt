//! `break`, `continue` and `return`.

ghost use Rattle.std.specs.Prelude.{◌≡◌, IfOk, OnOk, Some, option_map};
ghost use Rattle.hl_meaning.specs.Trees.{return_stmt};
ghost use Rattle.hl_parser.specs.Trees.{a_jump, present};
ghost use Rattle.hl_parser.specs.Views.{plain_maybe, plain_of};
ghost use Rattle.hl_rules.specs.Rules.{noted};
ghost use Rattle.hl_rules.specs.Sites.{jump_sites, statement_sites};
ghost use Rattle.hl_rules.specs.Source.{terminal_at};
ghost use Rattle.hl_rules.specs.Statements.{jump_code, one_stmt, return_code, statement_code};
ghost use Rattle.hl_meaning.specs.Views.{plain_stmt};
ghost use Rattle.hl_types.specs.Walks.{made_expr, made_stmts};
ghost use Rattle.hl_values.specs.ScopeViews.{scope_of};

use crate::conditions::converted_to;
use crate::expressions::used;
use crate::made::one;
use crate::types::is_void_result;
use base_core::NoMemory;
use hl_lexer::Terminal;
use hl_meaning::{Expr, Stmt, Stmts};
use hl_parser::Tree;
use hl_rules::{Broken, note_if};
use hl_values::{Scope, note_conversion};
use sqlite_items::Boxed;
use std::alloc::Global;

/// Notes what `return` without a value, `break` or `continue` breaks.
fn note_jump(scope: &Scope, at: usize, found: &mut Option<Broken>)
    ensures { found.new ≡ noted found.old (jump_sites (scope_of scope.now) (terminal_at (scope_of scope.now).tokens at) at) }
{
    match scope.terminal_at(at) {
        Terminal::Return => note_if(found, !is_void_result(&scope.result), at, 20),
        _ => note_if(found, !scope.in_loop, at, 19),
    }
}

/// The statement of a jump without a value.
fn jump_stmt(word: Terminal) -> Stmt
    ensures { plain_stmt result ≡ jump_code word }
{
    match word {
        Terminal::Break => Stmt::Break,
        Terminal::Continue => Stmt::Continue,
        _ => Stmt::Return(None),
    }
}

/// `return` without a value, `break` or `continue`.
///
/// # Errors
/// `NoMemory` where memory is refused, as in each call below.
fn jump(
    scope: &Scope,
    at: usize,
    found: &mut Option<Broken>,
    alloc: Global,
) -> Result<Option<Stmts>, NoMemory>
    ensures code { IfOk result (λ made. made_stmts made ≡ Some (one_stmt (jump_code (terminal_at (scope_of scope.now).tokens at)))) }
    ensures found { found.new ≡ noted found.old (jump_sites (scope_of scope.now) (terminal_at (scope_of scope.now).tokens at) at) }
{
    note_jump(scope, at, found);
    Ok(Some(one(jump_stmt(scope.terminal_at(at)), alloc)?))
}

/// The statement that returns a value.
fn return_of(value: Option<Expr>, alloc: Global) -> Result<Option<Stmts>, NoMemory>
    ensures { IfOk result (λ made. made_stmts made ≡ option_map (λ v. one_stmt (return_stmt (Some v))) (made_expr value)) }
{
    let Some(value) = value else {
        return Ok(None);
    };
    Ok(Some(one(Stmt::Return(Some(value)), alloc)?))
}

/// `return` with a value.
fn return_value(
    scope: &Scope,
    at: usize,
    value: &Tree,
    found: &mut Option<Broken>,
    alloc: Global,
) -> Result<Option<Stmts>, NoMemory>
    ensures code { IfOk result (λ made. made_stmts made ≡ return_code (scope_of scope.now) (plain_of value.now)) }
    ensures found { OnOk result (found.new ≡ noted found.old (statement_sites (scope_of scope.now) (a_jump at (present (plain_of value.now))))) }
{
    let typed = used(scope, value, found, alloc)?;
    note_if(found, is_void_result(&scope.result), at, 20);
    note_conversion(&typed.ty, &scope.result, value.at(), found);
    let made = converted_to(&scope.result, typed.code, alloc)?;
    return_of(made, alloc)
}

/// `break`, `continue` or `return`, the last with its value, where it is given.
pub(crate) fn jump_of(
    scope: &Scope,
    at: usize,
    value: &Option<Boxed<Tree>>,
    found: &mut Option<Broken>,
    alloc: Global,
) -> Result<Option<Stmts>, NoMemory>
    ensures code { IfOk result (λ made. made_stmts made ≡ statement_code (scope_of scope.now) (a_jump at (plain_maybe value.now))) }
    ensures found { OnOk result (found.new ≡ noted found.old (statement_sites (scope_of scope.now) (a_jump at (plain_maybe value.now)))) }
{
    match value {
        Some(value) => return_value(scope, at, value.get(), found, alloc),
        None => jump(scope, at, found, alloc),
    }
}
