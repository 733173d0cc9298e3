//! Statements: what they become, the rules that they break, and the names that they declare.

ghost use Rattle.std.specs.Prelude.{◌≡◌, ◌+◌, ◌++◌, IfOk, OnOk};
ghost use Rattle.hl_parser.specs.Trees.{a_block, a_do, a_for, a_while, an_if};
ghost use Rattle.hl_parser.specs.Views.{plain_maybe, plain_of, plain_trees};
ghost use Rattle.hl_rules.specs.Declarations.{after_first, after_statement, locals_among, locals_first, locals_if, locals_in};
ghost use Rattle.hl_rules.specs.Elaboration.{first_variables, statement_variables, statements_variables, variables_if};
ghost use Rattle.hl_rules.specs.Rules.{noted};
ghost use Rattle.hl_rules.specs.Scopes.{behind, looped, opened};
ghost use Rattle.hl_rules.specs.Sites.{attributes_sites, condition_if, condition_sites, expression_if, first_if, statement_if, statement_sites, statements_sites};
ghost use Rattle.hl_rules.specs.Statements.{condition_code, condition_code_if, first_code_if, statement_code, statement_code_if, statements_code, value_code_if};
ghost use Rattle.hl_types.specs.Walks.{after_part, after_statements, made_expr, made_expr_if, made_stmt_if, made_stmts, part_code};
ghost use Rattle.hl_values.specs.ScopeChanges.{held_of};
ghost use Rattle.hl_values.specs.ScopeViews.{scope_of};

use crate::attributes::note_attributes;
use crate::conditions::{condition, condition_if, run_statement, step_if};
use crate::jumps::jump_of;
use crate::locals::{first_given, local};
use crate::made::{alternative_of, append, block_of, do_of, for_of, if_of, one, while_of};
use base_core::NoMemory;
use hl_meaning::{Expr, Stmt, Stmts};
use hl_parser::{Tree, Trees};
use hl_rules::Broken;
use hl_values::Scope;
use sqlite_items::{Boxed, Items};
use std::alloc::Global;

/// What the head of a `for` becomes.
#[derive(Drop)]
struct ForHead {
    init: Option<Stmts>,
    cond: Option<Option<Expr>>,
    step: Option<Option<Expr>>,
}

/// The attributes of a statement, and its condition.
///
/// # Errors
/// `NoMemory` where memory is refused, as in each call below.
fn tested(
    scope: &Scope,
    attributes: &Trees,
    cond: &Tree,
    found: &mut Option<Broken>,
    alloc: Global,
) -> Result<Option<Expr>, NoMemory>
    ensures code { IfOk result (λ made. made_expr made ≡ condition_code (scope_of scope.now) (plain_of cond.now)) }
    ensures found { OnOk result (found.new ≡ noted found.old (attributes_sites (scope_of scope.now) (plain_trees attributes.now) ++ condition_sites (scope_of scope.now) (plain_of cond.now))) }
{
    note_attributes(scope, attributes, found, alloc)?;
    condition(scope, cond, found, alloc)
}

/// The attributes and the head of a `for`, whose block is open behind it.
fn for_head<'a>(
    scope: &mut Scope<'a>,
    attributes: &Trees,
    first: &Option<Boxed<Tree>>,
    cond: &Option<Boxed<Tree>>,
    step: &Option<Boxed<Tree>>,
    found: &mut Option<Broken>,
    alloc: Global,
) -> Result<ForHead, NoMemory>
    ensures init { IfOk result (λ head. made_stmts head.init ≡ first_code_if (opened (scope_of scope.old)) (plain_maybe first.now)) }
    ensures cond { IfOk result (λ head. made_expr_if head.cond ≡ condition_code_if (after_first (scope_of scope.old) (plain_maybe first.now)) (plain_maybe cond.now)) }
    ensures step { IfOk result (λ head. made_expr_if head.step ≡ value_code_if (after_first (scope_of scope.old) (plain_maybe first.now)) (plain_maybe step.now)) }
    ensures found { OnOk result (found.new ≡ noted found.old (attributes_sites (scope_of scope.old) (plain_trees attributes.now) ++ (first_if (opened (scope_of scope.old)) (plain_maybe first.now) ++ (condition_if (after_first (scope_of scope.old) (plain_maybe first.now)) (plain_maybe cond.now) ++ expression_if (after_first (scope_of scope.old) (plain_maybe first.now)) (plain_maybe step.now))))) }
    ensures scope { OnOk result (scope_of scope.new ≡ after_first (scope_of scope.old) (plain_maybe first.now)) }
    ensures variables { OnOk result ((held_of scope.new).variables ≡ (held_of scope.old).variables ++ first_variables (opened (scope_of scope.old)) (plain_maybe first.now)) }
{
    note_attributes(scope, attributes, found, alloc)?;
    scope.open_block(alloc)?;
    let init = first_given(scope, first, found, alloc)?;
    let cond = condition_if(scope, cond, found, alloc)?;
    let step = step_if(scope, step, found, alloc)?;
    Ok(ForHead { init, cond, step })
}

/// A statement: what it becomes, which is one statement, or one for each variable that it declares. The scope is then
/// that behind it.
///
/// # Errors
/// `NoMemory` where memory is refused, as in each call below.
#[cycle(statements)]
pub(crate) fn statement<'a>(
    scope: &mut Scope<'a>,
    tree: &Tree,
    found: &mut Option<Broken>,
    alloc: Global,
) -> Result<Option<Stmts>, NoMemory>
    ensures code { IfOk result (λ code. made_stmts code ≡ statement_code (scope_of scope.old) (plain_of tree.now)) }
    ensures found { OnOk result (found.new ≡ noted found.old (statement_sites (scope_of scope.old) (plain_of tree.now))) }
    ensures scope { OnOk result (scope_of scope.new ≡ after_statement (scope_of scope.old) (plain_of tree.now)) }
    ensures variables { OnOk result ((held_of scope.new).variables ≡ (held_of scope.old).variables ++ statement_variables (scope_of scope.old) (plain_of tree.now)) }
{
    match tree {
        Tree::Stmt { part, .. } => statement_part(scope, part, found, alloc),
        Tree::Block { statements, .. } => block(scope, statements, found, alloc),
        Tree::Local {
            constant,
            ty,
            starts,
            ..
        } => local(scope, constant.is_some(), ty.get(), starts, found, alloc),
        Tree::If {
            attributes,
            condition: cond,
            consequent,
            alternative,
            ..
        } => choice(
            scope,
            attributes,
            cond.get(),
            consequent.get(),
            alternative,
            found,
            alloc,
        ),
        Tree::For {
            attributes,
            first,
            condition: cond,
            step,
            body,
            ..
        } => for_loop(
            scope,
            attributes,
            first,
            cond,
            step,
            body.get(),
            found,
            alloc,
        ),
        Tree::While {
            attributes,
            condition: cond,
            body,
            ..
        } => while_loop(scope, attributes, cond.get(), body.get(), found, alloc),
        Tree::Do {
            attributes,
            body,
            condition: cond,
            ..
        } => do_loop(scope, attributes, body.get(), cond.get(), found, alloc),
        Tree::Jump { at, value } => jump_of(scope, *at, value, found, alloc),
        _ => run_statement(scope, tree, found, alloc),
    }
}

/// An `if`, of these parts.
#[cycle(statements)]
fn choice<'a>(
    scope: &mut Scope<'a>,
    attributes: &Trees,
    cond: &Tree,
    consequent: &Tree,
    alternative: &Option<Boxed<Tree>>,
    found: &mut Option<Broken>,
    alloc: Global,
) -> Result<Option<Stmts>, NoMemory>
    ensures code { IfOk result (λ code. made_stmts code ≡ statement_code (scope_of scope.old) (an_if 0 (plain_trees attributes.now) (plain_of cond.now) (plain_of consequent.now) (plain_maybe alternative.now))) }
    ensures found { OnOk result (found.new ≡ noted found.old (statement_sites (scope_of scope.old) (an_if 0 (plain_trees attributes.now) (plain_of cond.now) (plain_of consequent.now) (plain_maybe alternative.now)))) }
    ensures scope { OnOk result (scope_of scope.new ≡ behind (locals_in (plain_of consequent.now) + locals_if (plain_maybe alternative.now)) (scope_of scope.old)) }
    ensures variables { OnOk result ((held_of scope.new).variables ≡ (held_of scope.old).variables ++ statement_variables (scope_of scope.old) (an_if 0 (plain_trees attributes.now) (plain_of cond.now) (plain_of consequent.now) (plain_maybe alternative.now))) }
{
    let cond = tested(scope, attributes, cond, found, alloc)?;
    let yes = branch(scope, consequent, found, alloc)?;
    let no = branch_if(scope, alternative, found, alloc)?;
    if_of(cond, yes, no, alloc)
}

/// A `for`, of these parts.
#[cycle(statements)]
fn for_loop<'a>(
    scope: &mut Scope<'a>,
    attributes: &Trees,
    first: &Option<Boxed<Tree>>,
    cond: &Option<Boxed<Tree>>,
    step: &Option<Boxed<Tree>>,
    body: &Tree,
    found: &mut Option<Broken>,
    alloc: Global,
) -> Result<Option<Stmts>, NoMemory>
    ensures code { IfOk result (λ code. made_stmts code ≡ statement_code (scope_of scope.old) (a_for 0 (plain_trees attributes.now) (plain_maybe first.now) (plain_maybe cond.now) (plain_maybe step.now) (plain_of body.now))) }
    ensures found { OnOk result (found.new ≡ noted found.old (statement_sites (scope_of scope.old) (a_for 0 (plain_trees attributes.now) (plain_maybe first.now) (plain_maybe cond.now) (plain_maybe step.now) (plain_of body.now)))) }
    ensures scope { OnOk result (scope_of scope.new ≡ behind (locals_first (plain_maybe first.now) + locals_in (plain_of body.now)) (scope_of scope.old)) }
    ensures variables { OnOk result ((held_of scope.new).variables ≡ (held_of scope.old).variables ++ statement_variables (scope_of scope.old) (a_for 0 (plain_trees attributes.now) (plain_maybe first.now) (plain_maybe cond.now) (plain_maybe step.now) (plain_of body.now))) }
{
    let around = scope.in_loop;
    let head = for_head(scope, attributes, first, cond, step, found, alloc)?;
    let body = loop_body(scope, body, found, alloc)?;
    scope.close_block(around);
    for_of(head.init, head.cond, head.step, body, alloc)
}

/// A `while`, of these parts.
#[cycle(statements)]
fn while_loop<'a>(
    scope: &mut Scope<'a>,
    attributes: &Trees,
    cond: &Tree,
    body: &Tree,
    found: &mut Option<Broken>,
    alloc: Global,
) -> Result<Option<Stmts>, NoMemory>
    ensures code { IfOk result (λ code. made_stmts code ≡ statement_code (scope_of scope.old) (a_while 0 (plain_trees attributes.now) (plain_of cond.now) (plain_of body.now))) }
    ensures found { OnOk result (found.new ≡ noted found.old (statement_sites (scope_of scope.old) (a_while 0 (plain_trees attributes.now) (plain_of cond.now) (plain_of body.now)))) }
    ensures scope { OnOk result (scope_of scope.new ≡ behind (locals_in (plain_of body.now)) (scope_of scope.old)) }
    ensures variables { OnOk result ((held_of scope.new).variables ≡ (held_of scope.old).variables ++ statement_variables (looped (scope_of scope.old)) (plain_of body.now)) }
{
    let cond = tested(scope, attributes, cond, found, alloc)?;
    let body = loop_body(scope, body, found, alloc)?;
    while_of(cond, body, alloc)
}

/// A `do`, of these parts.
#[cycle(statements)]
fn do_loop<'a>(
    scope: &mut Scope<'a>,
    attributes: &Trees,
    body: &Tree,
    cond: &Tree,
    found: &mut Option<Broken>,
    alloc: Global,
) -> Result<Option<Stmts>, NoMemory>
    ensures code { IfOk result (λ code. made_stmts code ≡ statement_code (scope_of scope.old) (a_do 0 (plain_trees attributes.now) (plain_of body.now) (plain_of cond.now))) }
    ensures found { OnOk result (found.new ≡ noted found.old (statement_sites (scope_of scope.old) (a_do 0 (plain_trees attributes.now) (plain_of body.now) (plain_of cond.now)))) }
    ensures scope { OnOk result (scope_of scope.new ≡ behind (locals_in (plain_of body.now)) (scope_of scope.old)) }
    ensures variables { OnOk result ((held_of scope.new).variables ≡ (held_of scope.old).variables ++ statement_variables (looped (scope_of scope.old)) (plain_of body.now)) }
{
    let cond = tested(scope, attributes, cond, found, alloc)?;
    let body = loop_body(scope, body, found, alloc)?;
    do_of(body, cond, alloc)
}

/// The part of a statement, or the statement that does nothing.
#[cycle(statements)]
fn statement_part<'a>(
    scope: &mut Scope<'a>,
    part: &Option<Boxed<Tree>>,
    found: &mut Option<Broken>,
    alloc: Global,
) -> Result<Option<Stmts>, NoMemory>
    ensures code { IfOk result (λ code. made_stmts code ≡ part_code (scope_of scope.old) (plain_maybe part.now)) }
    ensures found { OnOk result (found.new ≡ noted found.old (statement_if (scope_of scope.old) (plain_maybe part.now))) }
    ensures scope { OnOk result (scope_of scope.new ≡ after_part (scope_of scope.old) (plain_maybe part.now)) }
    ensures variables { OnOk result ((held_of scope.new).variables ≡ (held_of scope.old).variables ++ variables_if (scope_of scope.old) (plain_maybe part.now)) }
{
    match part {
        Some(part) => statement(scope, part.get(), found, alloc),
        None => Ok(Some(one(Stmt::Block(Items::new(alloc)), alloc)?)),
    }
}

/// Statements in braces, which are a block of their own.
#[cycle(statements)]
fn block<'a>(
    scope: &mut Scope<'a>,
    trees: &Trees,
    found: &mut Option<Broken>,
    alloc: Global,
) -> Result<Option<Stmts>, NoMemory>
    ensures code { IfOk result (λ code. made_stmts code ≡ statement_code (scope_of scope.old) (a_block 0 (plain_trees trees.now))) }
    ensures found { OnOk result (found.new ≡ noted found.old (statements_sites (opened (scope_of scope.old)) (plain_trees trees.now))) }
    ensures scope { OnOk result (scope_of scope.new ≡ behind (locals_among (plain_trees trees.now)) (scope_of scope.old)) }
    ensures variables { OnOk result ((held_of scope.new).variables ≡ (held_of scope.old).variables ++ statements_variables (opened (scope_of scope.old)) (plain_trees trees.now)) }
{
    let around = scope.in_loop;
    scope.open_block(alloc)?;
    let body = statements(scope, trees, found, alloc)?;
    scope.close_block(around);
    block_of(body, alloc)
}

/// Statements one behind the other.
#[cycle(statements)]
pub(crate) fn statements<'a>(
    scope: &mut Scope<'a>,
    trees: &Trees,
    found: &mut Option<Broken>,
    alloc: Global,
) -> Result<Option<Stmts>, NoMemory>
    ensures code { IfOk result (λ code. made_stmts code ≡ statements_code (scope_of scope.old) (plain_trees trees.now)) }
    ensures found { OnOk result (found.new ≡ noted found.old (statements_sites (scope_of scope.old) (plain_trees trees.now))) }
    ensures scope { OnOk result (scope_of scope.new ≡ after_statements (scope_of scope.old) (plain_trees trees.now)) }
    ensures variables { OnOk result ((held_of scope.new).variables ≡ (held_of scope.old).variables ++ statements_variables (scope_of scope.old) (plain_trees trees.now)) }
{
    let mut made = Some(Items::new(alloc));
    for tree in trees.as_slice() {
        let more = statement(scope, tree, found, alloc)?;
        made = append(made, more)?;
    }
    Ok(made)
}

/// A statement under `if` or `else`, which is a block of its own.
#[cycle(statements)]
fn branch<'a>(
    scope: &mut Scope<'a>,
    tree: &Tree,
    found: &mut Option<Broken>,
    alloc: Global,
) -> Result<Option<Stmts>, NoMemory>
    ensures code { IfOk result (λ code. made_stmts code ≡ statement_code (opened (scope_of scope.old)) (plain_of tree.now)) }
    ensures found { OnOk result (found.new ≡ noted found.old (statement_sites (opened (scope_of scope.old)) (plain_of tree.now))) }
    ensures scope { OnOk result (scope_of scope.new ≡ behind (locals_in (plain_of tree.now)) (scope_of scope.old)) }
    ensures variables { OnOk result ((held_of scope.new).variables ≡ (held_of scope.old).variables ++ statement_variables (opened (scope_of scope.old)) (plain_of tree.now)) }
{
    let around = scope.in_loop;
    scope.open_block(alloc)?;
    let body = statement(scope, tree, found, alloc)?;
    scope.close_block(around);
    Ok(body)
}

/// An `else` that may be left out.
#[cycle(statements)]
fn branch_if<'a>(
    scope: &mut Scope<'a>,
    tree: &Option<Boxed<Tree>>,
    found: &mut Option<Broken>,
    alloc: Global,
) -> Result<Option<Option<Boxed<Stmt>>>, NoMemory>
    ensures code { IfOk result (λ other. made_stmt_if other ≡ statement_code_if (opened (scope_of scope.old)) (plain_maybe tree.now)) }
    ensures found { OnOk result (found.new ≡ noted found.old (statement_if (opened (scope_of scope.old)) (plain_maybe tree.now))) }
    ensures scope { OnOk result (scope_of scope.new ≡ behind (locals_if (plain_maybe tree.now)) (scope_of scope.old)) }
    ensures variables { OnOk result ((held_of scope.new).variables ≡ (held_of scope.old).variables ++ variables_if (opened (scope_of scope.old)) (plain_maybe tree.now)) }
{
    match tree {
        Some(tree) => {
            let body = branch(scope, tree.get(), found, alloc)?;
            alternative_of(body, alloc)
        }
        None => Ok(Some(None)),
    }
}

/// The body of a loop, which is a block of its own.
#[cycle(statements)]
fn loop_body<'a>(
    scope: &mut Scope<'a>,
    tree: &Tree,
    found: &mut Option<Broken>,
    alloc: Global,
) -> Result<Option<Stmts>, NoMemory>
    ensures code { IfOk result (λ code. made_stmts code ≡ statement_code (looped (scope_of scope.old)) (plain_of tree.now)) }
    ensures found { OnOk result (found.new ≡ noted found.old (statement_sites (looped (scope_of scope.old)) (plain_of tree.now))) }
    ensures scope { OnOk result (scope_of scope.new ≡ behind (locals_in (plain_of tree.now)) (scope_of scope.old)) }
    ensures variables { OnOk result ((held_of scope.new).variables ≡ (held_of scope.old).variables ++ statement_variables (looped (scope_of scope.old)) (plain_of tree.now)) }
{
    let around = scope.in_loop;
    scope.open_loop(alloc)?;
    let body = statement(scope, tree, found, alloc)?;
    scope.close_block(around);
    Ok(body)
}
