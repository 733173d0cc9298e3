//! Local variables.

ghost use Rattle.std.specs.Prelude.{◌≡◌, ◌∷◌, ◌++◌, [], IfOk, None, OnOk, Some, option_and_then, option_map};
ghost use Rattle.hl_meaning.specs.Trees.{local_stmt};
ghost use Rattle.hl_parser.specs.Trees.{present};
ghost use Rattle.hl_parser.specs.Views.{plain_maybe, plain_of, plain_trees};
ghost use Rattle.hl_rules.specs.Constants.{named_type};
ghost use Rattle.hl_rules.specs.Declarations.{after_first, after_start, after_starts};
ghost use Rattle.hl_rules.specs.Elaboration.{first_variables, start_variable, starts_variables};
ghost use Rattle.hl_rules.specs.Parts.{a_local_name, site};
ghost use Rattle.hl_rules.specs.Rules.{noted};
ghost use Rattle.hl_rules.specs.Scopes as scopes;
ghost use Rattle.hl_rules.specs.Scopes.{opened};
ghost use Rattle.hl_rules.specs.Sites.{first_if, first_sites, init_if, start_sites, starts_sites, type_sites};
ghost use Rattle.hl_rules.specs.Statements.{first_code, first_code_if, init_code_if, one_stmt, start_code, starts_code};
ghost use Rattle.hl_types.specs.Walks.{made_expr_if, made_stmts};
ghost use Rattle.hl_values.specs.ScopeChanges.{held_of};
ghost use Rattle.hl_values.specs.ScopeViews.{scope_of};
ghost use Rattle.hl_values.specs.Views.{plain_type_if};

use crate::conditions::{given, run_statement};
use crate::declarators::{declarator, note_type};
use crate::inits::init;
use crate::made::{append, one};
use base_core::NoMemory;
use hl_meaning::{Expr, HlType, Stmt, Stmts};
use hl_parser::{Tree, Trees};
use hl_rules::{Broken, note_if};
use hl_values::Scope;
use sqlite_items::{Boxed, Items};
use std::alloc::Global;

/// An initialiser of a type that is left out.
fn left_out(ty: &Option<HlType>) -> Option<Option<Expr>>
    ensures { made_expr_if result ≡ option_and_then (λ own. Some None) (plain_type_if ty.now) }
{
    match ty {
        Some(_) => Some(None),
        None => None,
    }
}

/// An initialiser of a type, which may be left out.
///
/// # Errors
/// `NoMemory` where memory is refused, as in each call below.
fn init_given(
    scope: &Scope,
    ty: &Option<HlType>,
    tree: &Option<Boxed<Tree>>,
    found: &mut Option<Broken>,
    alloc: Global,
) -> Result<Option<Option<Expr>>, NoMemory>
    ensures code { IfOk result (λ made. made_expr_if made ≡ option_and_then (λ own. init_code_if (scope_of scope.now) own (plain_maybe tree.now)) (plain_type_if ty.now)) }
    ensures found { OnOk result (found.new ≡ noted found.old (init_if (scope_of scope.now) (plain_type_if ty.now) (plain_maybe tree.now))) }
{
    match tree {
        Some(tree) => {
            let value = init(scope, ty, tree.get(), found, alloc)?;
            Ok(given(value))
        }
        None => Ok(left_out(ty)),
    }
}

/// The declaration of the variable of a number, with its initialiser.
fn local_of(
    variable: u32,
    value: Option<Option<Expr>>,
    alloc: Global,
) -> Result<Option<Stmts>, NoMemory>
    ensures { IfOk result (λ made. made_stmts made ≡ option_map (λ given. one_stmt (local_stmt variable given)) (made_expr_if value)) }
{
    let Some(init) = value else {
        return Ok(None);
    };
    Ok(Some(one(Stmt::Local { variable, init }, alloc)?))
}

/// Notes that a name is declared in the innermost block a second time.
fn note_again(scope: &Scope, at: usize, found: &mut Option<Broken>)
    ensures { found.new ≡ noted found.old (site (scope_of scope.now) (a_local_name at) ∷ []) }
{
    note_if(found, scope.is_declared_here(scope.text_at(at)), at, 2);
}

/// A declarator of a variable, with its initialiser: the variable is known behind it.
fn start<'a>(
    scope: &mut Scope<'a>,
    ty: &Option<HlType>,
    is_const: bool,
    tree: &Tree,
    found: &mut Option<Broken>,
    alloc: Global,
) -> Result<Option<Stmts>, NoMemory>
    ensures code { IfOk result (λ made. made_stmts made ≡ start_code (scope_of scope.old) (plain_type_if ty.now) (plain_of tree.now)) }
    ensures found { OnOk result (found.new ≡ noted found.old (start_sites (scope_of scope.old) (plain_type_if ty.now) (plain_of tree.now))) }
    ensures scope { OnOk result (scope_of scope.new ≡ after_start (plain_type_if ty.now) is_const (scope_of scope.old) (plain_of tree.now)) }
    ensures variables { OnOk result ((held_of scope.new).variables ≡ (held_of scope.old).variables ++ start_variable (scope_of scope.old) (plain_type_if ty.now) (plain_of tree.now)) }
{
    match tree {
        Tree::Start {
            at,
            declarator: name,
            init,
        } => {
            let own = declarator(scope, ty, name.get(), found, alloc)?;
            note_again(scope, *at, found);
            let value = init_given(scope, &own, init, found, alloc)?;
            let number = scope.variables.len() as u32;
            let made = local_of(number, value, alloc)?;
            scope.declare_variable(alloc, *at, own, is_const)?;
            Ok(made)
        }
        _ => Ok(None),
    }
}

/// Variables of one type.
fn starts<'a>(
    scope: &mut Scope<'a>,
    ty: &Option<HlType>,
    is_const: bool,
    trees: &Trees,
    found: &mut Option<Broken>,
    alloc: Global,
) -> Result<Option<Stmts>, NoMemory>
    ensures code { IfOk result (λ made. made_stmts made ≡ starts_code (scope_of scope.old) (plain_type_if ty.now) is_const (plain_trees trees.now)) }
    ensures found { OnOk result (found.new ≡ noted found.old (starts_sites (scope_of scope.old) (plain_type_if ty.now) is_const (plain_trees trees.now))) }
    ensures scope { OnOk result (scope_of scope.new ≡ after_starts (plain_type_if ty.now) is_const (scope_of scope.old) (plain_trees trees.now)) }
    ensures variables { OnOk result ((held_of scope.new).variables ≡ (held_of scope.old).variables ++ starts_variables (scope_of scope.old) (plain_type_if ty.now) is_const (plain_trees trees.now)) }
{
    let mut made = Some(Items::new(alloc));
    for tree in trees.as_slice() {
        let more = start(scope, ty, is_const, tree, found, alloc)?;
        made = append(made, more)?;
    }
    Ok(made)
}

/// A local: variables of one type.
pub(crate) fn local<'a>(
    scope: &mut Scope<'a>,
    is_const: bool,
    ty: &Tree,
    trees: &Trees,
    found: &mut Option<Broken>,
    alloc: Global,
) -> Result<Option<Stmts>, NoMemory>
    ensures code { IfOk result (λ made. made_stmts made ≡ starts_code (scope_of scope.old) (named_type (scope_of scope.old) (plain_of ty.now)) is_const (plain_trees trees.now)) }
    ensures found { OnOk result (found.new ≡ noted found.old (type_sites (scope_of scope.old) (plain_of ty.now) ++ starts_sites (scope_of scope.old) (named_type (scope_of scope.old) (plain_of ty.now)) is_const (plain_trees trees.now))) }
    ensures scope { OnOk result (scope_of scope.new ≡ after_starts (named_type (scope_of scope.old) (plain_of ty.now)) is_const (scope_of scope.old) (plain_trees trees.now)) }
    ensures variables { OnOk result ((held_of scope.new).variables ≡ (held_of scope.old).variables ++ starts_variables (scope_of scope.old) (named_type (scope_of scope.old) (plain_of ty.now)) is_const (plain_trees trees.now)) }
{
    note_type(scope, ty, found);
    let own = scope.named_type(ty);
    starts(scope, &own, is_const, trees, found, alloc)
}

/// The first part of a `for`, a local or an expression.
fn first<'a>(
    scope: &mut Scope<'a>,
    tree: &Tree,
    found: &mut Option<Broken>,
    alloc: Global,
) -> Result<Option<Stmts>, NoMemory>
    ensures code { IfOk result (λ made. made_stmts made ≡ first_code (scope_of scope.old) (plain_of tree.now)) }
    ensures found { OnOk result (found.new ≡ noted found.old (first_sites (scope_of scope.old) (plain_of tree.now))) }
    ensures scope { OnOk result ((s : scopes.Scope) → scope_of scope.old ≡ opened s → scope_of scope.new ≡ after_first s (present (plain_of tree.now))) }
    ensures variables { OnOk result ((held_of scope.new).variables ≡ (held_of scope.old).variables ++ first_variables (scope_of scope.old) (present (plain_of tree.now))) }
{
    match tree {
        Tree::Local {
            constant,
            ty,
            starts: trees,
            ..
        } => local(scope, constant.is_some(), ty.get(), trees, found, alloc),
        _ => run_statement(scope, tree, found, alloc),
    }
}

/// The first part of a `for`, which may be left out.
pub(crate) fn first_given<'a>(
    scope: &mut Scope<'a>,
    tree: &Option<Boxed<Tree>>,
    found: &mut Option<Broken>,
    alloc: Global,
) -> Result<Option<Stmts>, NoMemory>
    ensures code { IfOk result (λ made. made_stmts made ≡ first_code_if (scope_of scope.old) (plain_maybe tree.now)) }
    ensures found { OnOk result (found.new ≡ noted found.old (first_if (scope_of scope.old) (plain_maybe tree.now))) }
    ensures scope { OnOk result ((s : scopes.Scope) → scope_of scope.old ≡ opened s → scope_of scope.new ≡ after_first s (plain_maybe tree.now)) }
    ensures variables { OnOk result ((held_of scope.new).variables ≡ (held_of scope.old).variables ++ first_variables (scope_of scope.old) (plain_maybe tree.now)) }
{
    match tree {
        Some(tree) => first(scope, tree.get(), found, alloc),
        None => Ok(Some(Items::new(alloc))),
    }
}
