//! Expressions: what is known of them, what they become, and the typing rules that they break.

ghost use Rattle.std.specs.Prelude.{◌≡◌, IfOk, None, OnOk, Some};
ghost use Rattle.hl_parser.specs.Trees.{a_binary, a_choice, a_postfix, a_primary, an_expr, present};
ghost use Rattle.hl_parser.specs.Views.{plain_maybe, plain_of, plain_trees};
ghost use Rattle.hl_rules.specs.ExpressionRules.{argument_trees};
ghost use Rattle.hl_rules.specs.Rules.{noted};
ghost use Rattle.hl_rules.specs.Sites.{argument_sites, arguments_sites, buffer_or_used, expression_sites, value_sites};
ghost use Rattle.hl_types.specs.Arguments.{AreTyped};
ghost use Rattle.hl_values.specs.Basics.{production_of};
ghost use Rattle.hl_values.specs.ScopeViews.{scope_of};
ghost use Rattle.hl_values.specs.TypedViews.{IsTyped};

use crate::call_sites::whole_call;
use crate::constructors::whole_constructor;
use crate::dots::whole_dot;
use crate::indexes::{is_buffer, whole_element, whole_index};
use crate::method_sites::whole_method;
use base_core::{NoMemory, Sequence};
use hl_parser::{Tree, Trees};
use hl_rules::Broken;
use hl_values::{
    Operator, Scope, Typed, note_operand, note_side, note_use, value, whole_assignment,
    whole_binary, whole_choice, whole_step, whole_unary, whole_word,
};
use sqlite_items::Boxed;
use std::alloc::Global;

/// An expression: what is known of it, and what it becomes. What it breaks is noted.
///
/// # Errors
/// `NoMemory` where memory is refused, as in each function below.
#[cycle(expressions)]
pub(crate) fn expression(
    scope: &Scope,
    tree: &Tree,
    found: &mut Option<Broken>,
    alloc: Global,
) -> Result<Typed, NoMemory>
    ensures typed { IfOk result (λ typed. IsTyped (scope_of scope.now) (plain_of tree.now) typed) }
    ensures found { OnOk result (found.new ≡ noted found.old (expression_sites (scope_of scope.now) (plain_of tree.now))) }
{
    match tree {
        Tree::Primary {
            at,
            part,
            arguments,
        } => primary(scope, *at, part, arguments, found, alloc),
        Tree::Postfix {
            at,
            operand,
            mark,
            name,
            part,
        } => postfix(scope, *at, operand.get(), *mark, *name, part, found, alloc),
        Tree::Unary { at, cast, operand } => {
            let operand = operand.get();
            let value = expression(scope, operand, found, alloc)?;
            whole_unary(scope, *at, cast, operand, value, found, alloc)
        }
        Tree::Expr {
            at,
            left,
            mark,
            right,
        } => assignment(scope, *at, left, *mark, right, found, alloc),
        Tree::Choice {
            at,
            condition,
            consequent,
            alternative,
        } => conditional(scope, *at, condition, consequent, alternative, found, alloc),
        Tree::Or {
            at,
            left,
            mark,
            right,
        } => operation(scope, Operator::Or, *at, left, *mark, right, found, alloc),
        Tree::And {
            at,
            left,
            mark,
            right,
        } => operation(scope, Operator::And, *at, left, *mark, right, found, alloc),
        Tree::Bitor {
            at,
            left,
            mark,
            right,
        } => operation(
            scope,
            Operator::Bitor,
            *at,
            left,
            *mark,
            right,
            found,
            alloc,
        ),
        Tree::Bitxor {
            at,
            left,
            mark,
            right,
        } => operation(
            scope,
            Operator::Bitxor,
            *at,
            left,
            *mark,
            right,
            found,
            alloc,
        ),
        Tree::Bitand {
            at,
            left,
            mark,
            right,
        } => operation(
            scope,
            Operator::Bitand,
            *at,
            left,
            *mark,
            right,
            found,
            alloc,
        ),
        Tree::Equal {
            at,
            left,
            mark,
            right,
        } => operation(
            scope,
            Operator::Equal,
            *at,
            left,
            *mark,
            right,
            found,
            alloc,
        ),
        Tree::Less {
            at,
            left,
            mark,
            right,
        } => operation(scope, Operator::Less, *at, left, *mark, right, found, alloc),
        Tree::Shift {
            at,
            left,
            mark,
            right,
        } => operation(
            scope,
            Operator::Shift,
            *at,
            left,
            *mark,
            right,
            found,
            alloc,
        ),
        Tree::Sum {
            at,
            left,
            mark,
            right,
        } => operation(scope, Operator::Sum, *at, left, *mark, right, found, alloc),
        Tree::Product {
            at,
            left,
            mark,
            right,
        } => operation(
            scope,
            Operator::Product,
            *at,
            left,
            *mark,
            right,
            found,
            alloc,
        ),
        _ => Ok(value(None, None)),
    }
}

/// An expression whose value is used.
#[cycle(expressions)]
pub(crate) fn used(
    scope: &Scope,
    tree: &Tree,
    found: &mut Option<Broken>,
    alloc: Global,
) -> Result<Typed, NoMemory>
    ensures typed { IfOk result (λ typed. IsTyped (scope_of scope.now) (plain_of tree.now) typed) }
    ensures found { OnOk result (found.new ≡ noted found.old (value_sites (scope_of scope.now) (plain_of tree.now))) }
{
    let value = expression(scope, tree, found, alloc)?;
    note_use(&value, tree.at(), found);
    Ok(value)
}

/// An operator between two operands.
#[cycle(expressions)]
fn operation(
    scope: &Scope,
    operator: Operator,
    at: usize,
    left: &Boxed<Tree>,
    mark: usize,
    right: &Boxed<Tree>,
    found: &mut Option<Broken>,
    alloc: Global,
) -> Result<Typed, NoMemory>
    ensures typed { IfOk result (λ t. IsTyped (scope_of scope.now) (a_binary (production_of operator) at (plain_of left.now) mark (plain_of right.now)) t) }
    ensures found { OnOk result (found.new ≡ noted found.old (expression_sites (scope_of scope.now) (a_binary (production_of operator) at (plain_of left.now) mark (plain_of right.now)))) }
{
    let left = left.get();
    let right = right.get();
    let first = expression(scope, left, found, alloc)?;
    note_operand(&first, left.at(), found);
    let second = expression(scope, right, found, alloc)?;
    whole_binary(
        scope, operator, at, mark, left, right, first, second, found, alloc,
    )
}

/// An assignment.
#[cycle(expressions)]
fn assignment(
    scope: &Scope,
    at: usize,
    left: &Boxed<Tree>,
    mark: usize,
    right: &Boxed<Tree>,
    found: &mut Option<Broken>,
    alloc: Global,
) -> Result<Typed, NoMemory>
    ensures typed { IfOk result (λ t. IsTyped (scope_of scope.now) (an_expr at (plain_of left.now) mark (plain_of right.now)) t) }
    ensures found { OnOk result (found.new ≡ noted found.old (expression_sites (scope_of scope.now) (an_expr at (plain_of left.now) mark (plain_of right.now)))) }
{
    let left = left.get();
    let right = right.get();
    let first = expression(scope, left, found, alloc)?;
    note_side(scope.terminal_at(mark), &first, left.at(), found);
    let second = expression(scope, right, found, alloc)?;
    whole_assignment(scope, at, mark, left, right, first, second, found, alloc)
}

/// `?:`
#[cycle(expressions)]
fn conditional(
    scope: &Scope,
    at: usize,
    condition: &Boxed<Tree>,
    consequent: &Boxed<Tree>,
    alternative: &Boxed<Tree>,
    found: &mut Option<Broken>,
    alloc: Global,
) -> Result<Typed, NoMemory>
    ensures typed { IfOk result (λ t. IsTyped (scope_of scope.now) (a_choice at (plain_of condition.now) (plain_of consequent.now) (plain_of alternative.now)) t) }
    ensures found { OnOk result (found.new ≡ noted found.old (expression_sites (scope_of scope.now) (a_choice at (plain_of condition.now) (plain_of consequent.now) (plain_of alternative.now)))) }
{
    let condition = condition.get();
    let consequent = consequent.get();
    let alternative = alternative.get();
    let first = expression(scope, condition, found, alloc)?;
    note_operand(&first, condition.at(), found);
    let second = expression(scope, consequent, found, alloc)?;
    note_operand(&second, consequent.at(), found);
    let third = expression(scope, alternative, found, alloc)?;
    whole_choice(
        scope,
        at,
        condition,
        consequent,
        alternative,
        first,
        second,
        third,
        found,
        alloc,
    )
}

/// A token alone, an expression in parentheses, a call or a constructor.
#[cycle(expressions)]
fn primary(
    scope: &Scope,
    at: usize,
    part: &Option<Boxed<Tree>>,
    list: &Option<Boxed<Tree>>,
    found: &mut Option<Broken>,
    alloc: Global,
) -> Result<Typed, NoMemory>
    ensures typed { IfOk result (λ t. IsTyped (scope_of scope.now) (a_primary at (plain_maybe part.now) (plain_maybe list.now)) t) }
    ensures found { OnOk result (found.new ≡ noted found.old (expression_sites (scope_of scope.now) (a_primary at (plain_maybe part.now) (plain_maybe list.now)))) }
{
    match list {
        Some(list) => called(scope, at, part, list.get(), found, alloc),
        None => match part {
            Some(inner) => expression(scope, inner.get(), found, alloc),
            None => whole_word(scope, at, found, alloc),
        },
    }
}

/// A call, or the constructor of a type.
#[cycle(expressions)]
fn called(
    scope: &Scope,
    at: usize,
    basic: &Option<Boxed<Tree>>,
    list: &Tree,
    found: &mut Option<Broken>,
    alloc: Global,
) -> Result<Typed, NoMemory>
    ensures typed { IfOk result (λ t. IsTyped (scope_of scope.now) (a_primary at (plain_maybe basic.now) (present (plain_of list.now))) t) }
    ensures found { OnOk result (found.new ≡ noted found.old (expression_sites (scope_of scope.now) (a_primary at (plain_maybe basic.now) (present (plain_of list.now))))) }
{
    let args = argument_list(scope, list, found, alloc)?;
    match basic {
        Some(basic) => whole_constructor(scope, at, basic.get(), list, args, found, alloc),
        None => whole_call(scope, at, list, args, found, alloc),
    }
}

/// Arguments in parentheses.
#[cycle(expressions)]
fn argument_list(
    scope: &Scope,
    list: &Tree,
    found: &mut Option<Broken>,
    alloc: Global,
) -> Result<Sequence<Typed>, NoMemory>
    ensures typed { IfOk result (λ args. AreTyped (scope_of scope.now) (argument_trees (plain_of list.now)) args) }
    ensures found { OnOk result (found.new ≡ noted found.old (argument_sites (scope_of scope.now) (plain_of list.now))) }
{
    match list {
        Tree::Args {
            arguments: trees,
            ..
        } => arguments(scope, trees, found, alloc),
        _ => Ok(Sequence::new(alloc)),
    }
}

/// Arguments, which are all used.
#[cycle(expressions)]
pub(crate) fn arguments(
    scope: &Scope,
    trees: &Trees,
    found: &mut Option<Broken>,
    alloc: Global,
) -> Result<Sequence<Typed>, NoMemory>
    ensures typed { IfOk result (λ args. AreTyped (scope_of scope.now) (plain_trees trees.now) args) }
    ensures found { OnOk result (found.new ≡ noted found.old (arguments_sites (scope_of scope.now) (plain_trees trees.now))) }
{
    let mut args = Sequence::new(alloc);
    for tree in trees.as_slice() {
        let value = used(scope, tree, found, alloc)?;
        args.push(value)?;
    }
    Ok(args)
}

/// What stands behind an operand: a `.` with a name, and maybe with arguments, an index, or `++` or `--`.
#[cycle(expressions)]
fn postfix(
    scope: &Scope,
    at: usize,
    operand: &Tree,
    mark: usize,
    name: Option<usize>,
    part: &Option<Boxed<Tree>>,
    found: &mut Option<Broken>,
    alloc: Global,
) -> Result<Typed, NoMemory>
    ensures typed { IfOk result (λ t. IsTyped (scope_of scope.now) (a_postfix at (plain_of operand.now) mark name (plain_maybe part.now)) t) }
    ensures found { OnOk result (found.new ≡ noted found.old (expression_sites (scope_of scope.now) (a_postfix at (plain_of operand.now) mark name (plain_maybe part.now)))) }
{
    match name {
        Some(name) => match part {
            Some(list) => method(scope, at, operand, mark, name, list.get(), found, alloc),
            None => {
                let value = expression(scope, operand, found, alloc)?;
                whole_dot(scope, at, mark, operand, name, value, found, alloc)
            }
        },
        None => match part {
            Some(index) => indexed(scope, at, operand, mark, index.get(), found, alloc),
            None => {
                let value = expression(scope, operand, found, alloc)?;
                whole_step(scope, at, mark, operand, value, found, alloc)
            }
        },
    }
}

/// What stands before a method: the name of a buffer, or a value that is used.
#[cycle(expressions)]
fn unless_buffer(
    scope: &Scope,
    operand: &Tree,
    found: &mut Option<Broken>,
    alloc: Global,
) -> Result<(), NoMemory>
    ensures { OnOk result (found.new ≡ noted found.old (buffer_or_used (scope_of scope.now) (plain_of operand.now) (expression_sites (scope_of scope.now) (plain_of operand.now)))) }
{
    if is_buffer(scope, operand) {
        return Ok(());
    }
    used(scope, operand, found, alloc)?;
    Ok(())
}

/// A call of a method.
#[cycle(expressions)]
fn method(
    scope: &Scope,
    at: usize,
    operand: &Tree,
    mark: usize,
    name: usize,
    list: &Tree,
    found: &mut Option<Broken>,
    alloc: Global,
) -> Result<Typed, NoMemory>
    ensures typed { IfOk result (λ t. IsTyped (scope_of scope.now) (a_postfix at (plain_of operand.now) mark (Some name) (present (plain_of list.now))) t) }
    ensures found { OnOk result (found.new ≡ noted found.old (expression_sites (scope_of scope.now) (a_postfix at (plain_of operand.now) mark (Some name) (present (plain_of list.now))))) }
{
    unless_buffer(scope, operand, found, alloc)?;
    let args = argument_list(scope, list, found, alloc)?;
    whole_method(scope, at, mark, operand, name, list, args, found, alloc)
}

/// An index behind the name of a buffer or a value.
#[cycle(expressions)]
fn indexed(
    scope: &Scope,
    at: usize,
    operand: &Tree,
    mark: usize,
    index: &Tree,
    found: &mut Option<Broken>,
    alloc: Global,
) -> Result<Typed, NoMemory>
    ensures typed { IfOk result (λ t. IsTyped (scope_of scope.now) (a_postfix at (plain_of operand.now) mark None (present (plain_of index.now))) t) }
    ensures found { OnOk result (found.new ≡ noted found.old (expression_sites (scope_of scope.now) (a_postfix at (plain_of operand.now) mark None (present (plain_of index.now))))) }
{
    if is_buffer(scope, operand) {
        let value = expression(scope, index, found, alloc)?;
        return whole_element(scope, at, mark, operand, index, value, found, alloc);
    }
    let first = used(scope, operand, found, alloc)?;
    let second = expression(scope, index, found, alloc)?;
    whole_index(scope, at, mark, operand, index, first, second, found, alloc)
}
