//! Trees of expressions are made.

ghost use Rattle.std.specs.Prelude.{IfOk};
ghost use Rattle.hl_parser.specs.declared.act.Act.TheVariants as acts;
ghost use Rattle.hl_parser.specs.Held.{Makes, values_of};
ghost use Rattle.hl_parser.specs.Machine.{act_on};

use crate::parts::Value;
use crate::take::{put, take_maybe, take_token, take_tree, take_trees};
use crate::tree::Tree;
use base_core::NoMemory;
use sqlite_items::Items;
use std::alloc::Global;

/// Makes an assignment of its two sides and the mark between them.
pub(crate) fn make_assignment(alloc: Global, values: &mut Items<Value>) -> Result<bool, NoMemory>
    ensures { IfOk result (λ made. Makes (act_on acts.Assignment 0 (values_of values.old)) made values.new) }
{
    let Some(right) = take_tree(values) else {
        return Ok(false);
    };
    let Some(mark) = take_token(values) else {
        return Ok(false);
    };
    let Some(left) = take_tree(values) else {
        return Ok(false);
    };
    let at = left.tree.get().at();
    let depth = right.depth.max(left.depth) + 1;
    put(
        alloc,
        values,
        Tree::Expr {
            at,
            left: left.tree,
            mark,
            right: right.tree,
        },
        depth,
    )
}

/// Makes a choice of its condition and its two values.
pub(crate) fn make_choice(alloc: Global, values: &mut Items<Value>) -> Result<bool, NoMemory>
    ensures { IfOk result (λ made. Makes (act_on acts.Choice 0 (values_of values.old)) made values.new) }
{
    let Some(alternative) = take_tree(values) else {
        return Ok(false);
    };
    let Some(consequent) = take_tree(values) else {
        return Ok(false);
    };
    let Some(condition) = take_tree(values) else {
        return Ok(false);
    };
    let at = condition.tree.get().at();
    let depth = alternative.depth.max(consequent.depth).max(condition.depth) + 1;
    put(
        alloc,
        values,
        Tree::Choice {
            at,
            condition: condition.tree,
            consequent: consequent.tree,
            alternative: alternative.tree,
        },
        depth,
    )
}

/// Makes a unary operation of its mark and its operand.
pub(crate) fn make_unary(alloc: Global, values: &mut Items<Value>) -> Result<bool, NoMemory>
    ensures { IfOk result (λ made. Makes (act_on acts.Unary 0 (values_of values.old)) made values.new) }
{
    let Some(operand) = take_tree(values) else {
        return Ok(false);
    };
    let Some(at) = take_token(values) else {
        return Ok(false);
    };
    let depth = operand.depth + 1;
    put(
        alloc,
        values,
        Tree::Unary {
            at,
            cast: None,
            operand: operand.tree,
        },
        depth,
    )
}

/// Makes a cast of its parenthesis, its type and its operand.
pub(crate) fn make_cast(alloc: Global, values: &mut Items<Value>) -> Result<bool, NoMemory>
    ensures { IfOk result (λ made. Makes (act_on acts.Cast 0 (values_of values.old)) made values.new) }
{
    let Some(operand) = take_tree(values) else {
        return Ok(false);
    };
    let Some(cast) = take_tree(values) else {
        return Ok(false);
    };
    let Some(at) = take_token(values) else {
        return Ok(false);
    };
    let depth = operand.depth.max(cast.depth) + 1;
    put(
        alloc,
        values,
        Tree::Unary {
            at,
            cast: Some(cast.tree),
            operand: operand.tree,
        },
        depth,
    )
}

/// Makes the member or the method of an operand, of its mark, its name and its arguments.
pub(crate) fn make_field(alloc: Global, values: &mut Items<Value>) -> Result<bool, NoMemory>
    ensures { IfOk result (λ made. Makes (act_on acts.Field 0 (values_of values.old)) made values.new) }
{
    let Some(part) = take_maybe(values) else {
        return Ok(false);
    };
    let Some(name) = take_token(values) else {
        return Ok(false);
    };
    let Some(mark) = take_token(values) else {
        return Ok(false);
    };
    let Some(operand) = take_tree(values) else {
        return Ok(false);
    };
    let at = operand.tree.get().at();
    let depth = part.depth.max(operand.depth) + 1;
    put(
        alloc,
        values,
        Tree::Postfix {
            at,
            operand: operand.tree,
            mark,
            name: Some(name),
            part: part.tree,
        },
        depth,
    )
}

/// Makes an indexed operand of the bracket and the index.
pub(crate) fn make_index(alloc: Global, values: &mut Items<Value>) -> Result<bool, NoMemory>
    ensures { IfOk result (λ made. Makes (act_on acts.Index 0 (values_of values.old)) made values.new) }
{
    let Some(part) = take_tree(values) else {
        return Ok(false);
    };
    let Some(mark) = take_token(values) else {
        return Ok(false);
    };
    let Some(operand) = take_tree(values) else {
        return Ok(false);
    };
    let at = operand.tree.get().at();
    let depth = part.depth.max(operand.depth) + 1;
    put(
        alloc,
        values,
        Tree::Postfix {
            at,
            operand: operand.tree,
            mark,
            name: None,
            part: Some(part.tree),
        },
        depth,
    )
}

/// Makes an operand with `++` or `--` behind it.
pub(crate) fn make_step(alloc: Global, values: &mut Items<Value>) -> Result<bool, NoMemory>
    ensures { IfOk result (λ made. Makes (act_on acts.Step 0 (values_of values.old)) made values.new) }
{
    let Some(mark) = take_token(values) else {
        return Ok(false);
    };
    let Some(operand) = take_tree(values) else {
        return Ok(false);
    };
    let at = operand.tree.get().at();
    let depth = operand.depth + 1;
    put(
        alloc,
        values,
        Tree::Postfix {
            at,
            operand: operand.tree,
            mark,
            name: None,
            part: None,
        },
        depth,
    )
}

/// Makes a number, a truth value or a name of its token.
pub(crate) fn make_word(alloc: Global, values: &mut Items<Value>) -> Result<bool, NoMemory>
    ensures { IfOk result (λ made. Makes (act_on acts.Word 0 (values_of values.old)) made values.new) }
{
    let Some(at) = take_token(values) else {
        return Ok(false);
    };
    let depth = 1;
    put(
        alloc,
        values,
        Tree::Primary {
            at,
            part: None,
            arguments: None,
        },
        depth,
    )
}

/// Makes a call of its name and its arguments.
pub(crate) fn make_call(alloc: Global, values: &mut Items<Value>) -> Result<bool, NoMemory>
    ensures { IfOk result (λ made. Makes (act_on acts.Call 0 (values_of values.old)) made values.new) }
{
    let Some(arguments) = take_tree(values) else {
        return Ok(false);
    };
    let Some(at) = take_token(values) else {
        return Ok(false);
    };
    let depth = arguments.depth + 1;
    put(
        alloc,
        values,
        Tree::Primary {
            at,
            part: None,
            arguments: Some(arguments.tree),
        },
        depth,
    )
}

/// Makes a constructor of its type and its arguments.
pub(crate) fn make_constructor(alloc: Global, values: &mut Items<Value>) -> Result<bool, NoMemory>
    ensures { IfOk result (λ made. Makes (act_on acts.Constructor 0 (values_of values.old)) made values.new) }
{
    let Some(arguments) = take_tree(values) else {
        return Ok(false);
    };
    let Some(part) = take_tree(values) else {
        return Ok(false);
    };
    let at = part.tree.get().at();
    let depth = arguments.depth.max(part.depth) + 1;
    put(
        alloc,
        values,
        Tree::Primary {
            at,
            part: Some(part.tree),
            arguments: Some(arguments.tree),
        },
        depth,
    )
}

/// Makes an expression in parentheses of its parenthesis and the expression.
pub(crate) fn make_parentheses(alloc: Global, values: &mut Items<Value>) -> Result<bool, NoMemory>
    ensures { IfOk result (λ made. Makes (act_on acts.Parentheses 0 (values_of values.old)) made values.new) }
{
    let Some(part) = take_tree(values) else {
        return Ok(false);
    };
    let Some(at) = take_token(values) else {
        return Ok(false);
    };
    let depth = part.depth + 1;
    put(
        alloc,
        values,
        Tree::Primary {
            at,
            part: Some(part.tree),
            arguments: None,
        },
        depth,
    )
}

/// Makes arguments of their parenthesis and the expressions.
pub(crate) fn make_args(alloc: Global, values: &mut Items<Value>) -> Result<bool, NoMemory>
    ensures { IfOk result (λ made. Makes (act_on acts.Args 0 (values_of values.old)) made values.new) }
{
    let Some(arguments) = take_trees(values) else {
        return Ok(false);
    };
    let Some(at) = take_token(values) else {
        return Ok(false);
    };
    let depth = arguments.depth;
    put(
        alloc,
        values,
        Tree::Args {
            at,
            arguments: arguments.trees,
        },
        depth,
    )
}
