//! Trees of statements are made.

ghost use Rattle.std.specs.Prelude.{IfOk};
ghost use Rattle.hl_parser.specs.declared.act.Act.TheVariants as acts;
ghost use Rattle.hl_parser.specs.Held.{Makes, values_of};
ghost use Rattle.hl_parser.specs.Machine.{act_on};

use crate::first::{first_among, first_of};
use crate::parts::Value;
use crate::take::{put, take_maybe, take_option, take_token, take_tree, take_trees};
use crate::tree::Tree;
use base_core::NoMemory;
use sqlite_items::Items;
use std::alloc::Global;

/// Makes a block of its brace and its statements.
pub(crate) fn make_block(alloc: Global, values: &mut Items<Value>) -> Result<bool, NoMemory>
    ensures { IfOk result (λ made. Makes (act_on acts.Block 0 (values_of values.old)) made values.new) }
{
    let Some(statements) = take_trees(values) else {
        return Ok(false);
    };
    let Some(at) = take_token(values) else {
        return Ok(false);
    };
    let depth = statements.depth;
    put(
        alloc,
        values,
        Tree::Block {
            at,
            statements: statements.trees,
        },
        depth,
    )
}

/// Makes a statement of what it is.
pub(crate) fn make_part(alloc: Global, values: &mut Items<Value>) -> Result<bool, NoMemory>
    ensures { IfOk result (λ made. Makes (act_on acts.Part 0 (values_of values.old)) made values.new) }
{
    let Some(part) = take_tree(values) else {
        return Ok(false);
    };
    let at = part.tree.get().at();
    let depth = part.depth + 1;
    put(
        alloc,
        values,
        Tree::Stmt {
            at,
            part: Some(part.tree),
        },
        depth,
    )
}

/// Makes an empty statement of its semicolon.
pub(crate) fn make_nothing(alloc: Global, values: &mut Items<Value>) -> Result<bool, NoMemory>
    ensures { IfOk result (λ made. Makes (act_on acts.Nothing 0 (values_of values.old)) made values.new) }
{
    let Some(at) = take_token(values) else {
        return Ok(false);
    };
    let depth = 1;
    put(alloc, values, Tree::Stmt { at, part: None }, depth)
}

/// Makes a local of its `const`, its type and its starts.
pub(crate) fn make_local(alloc: Global, values: &mut Items<Value>) -> Result<bool, NoMemory>
    ensures { IfOk result (λ made. Makes (act_on acts.Local 0 (values_of values.old)) made values.new) }
{
    let Some(starts) = take_trees(values) else {
        return Ok(false);
    };
    let Some(ty) = take_tree(values) else {
        return Ok(false);
    };
    let Some(constant) = take_option(values) else {
        return Ok(false);
    };
    let other = ty.tree.get().at();
    let at = first_of(constant, other);
    let depth = starts.depth.max(ty.depth);
    put(
        alloc,
        values,
        Tree::Local {
            at,
            constant,
            ty: ty.tree,
            starts: starts.trees,
        },
        depth,
    )
}

/// Makes a start of its declarator and its initialiser.
pub(crate) fn make_start(alloc: Global, values: &mut Items<Value>) -> Result<bool, NoMemory>
    ensures { IfOk result (λ made. Makes (act_on acts.Start 0 (values_of values.old)) made values.new) }
{
    let Some(init) = take_maybe(values) else {
        return Ok(false);
    };
    let Some(declarator) = take_tree(values) else {
        return Ok(false);
    };
    let at = declarator.tree.get().at();
    let depth = init.depth.max(declarator.depth);
    put(
        alloc,
        values,
        Tree::Start {
            at,
            declarator: declarator.tree,
            init: init.tree,
        },
        depth,
    )
}

/// Makes an `if` of its attributes, its word, its condition and its branches.
pub(crate) fn make_if(alloc: Global, values: &mut Items<Value>) -> Result<bool, NoMemory>
    ensures { IfOk result (λ made. Makes (act_on acts.If 0 (values_of values.old)) made values.new) }
{
    let Some(alternative) = take_maybe(values) else {
        return Ok(false);
    };
    let Some(consequent) = take_tree(values) else {
        return Ok(false);
    };
    let Some(condition) = take_tree(values) else {
        return Ok(false);
    };
    let Some(word) = take_token(values) else {
        return Ok(false);
    };
    let Some(attributes) = take_trees(values) else {
        return Ok(false);
    };
    let at = first_among(attributes.trees.as_slice(), word);
    let depth = alternative
        .depth
        .max(consequent.depth)
        .max(condition.depth)
        .max(attributes.depth);
    put(
        alloc,
        values,
        Tree::If {
            at,
            attributes: attributes.trees,
            condition: condition.tree,
            consequent: consequent.tree,
            alternative: alternative.tree,
        },
        depth,
    )
}

/// Makes a `for` of its attributes, its word, the three parts of its head and its body.
pub(crate) fn make_for(alloc: Global, values: &mut Items<Value>) -> Result<bool, NoMemory>
    ensures { IfOk result (λ made. Makes (act_on acts.For 0 (values_of values.old)) made values.new) }
{
    let Some(body) = take_tree(values) else {
        return Ok(false);
    };
    let Some(step) = take_maybe(values) else {
        return Ok(false);
    };
    let Some(condition) = take_maybe(values) else {
        return Ok(false);
    };
    let Some(first) = take_maybe(values) else {
        return Ok(false);
    };
    let Some(word) = take_token(values) else {
        return Ok(false);
    };
    let Some(attributes) = take_trees(values) else {
        return Ok(false);
    };
    let at = first_among(attributes.trees.as_slice(), word);
    let depth = body
        .depth
        .max(step.depth)
        .max(condition.depth)
        .max(first.depth)
        .max(attributes.depth);
    put(
        alloc,
        values,
        Tree::For {
            at,
            attributes: attributes.trees,
            first: first.tree,
            condition: condition.tree,
            step: step.tree,
            body: body.tree,
        },
        depth,
    )
}

/// Makes a `while` of its attributes, its word, its condition and its body.
pub(crate) fn make_while(alloc: Global, values: &mut Items<Value>) -> Result<bool, NoMemory>
    ensures { IfOk result (λ made. Makes (act_on acts.While 0 (values_of values.old)) made values.new) }
{
    let Some(body) = take_tree(values) else {
        return Ok(false);
    };
    let Some(condition) = take_tree(values) else {
        return Ok(false);
    };
    let Some(word) = take_token(values) else {
        return Ok(false);
    };
    let Some(attributes) = take_trees(values) else {
        return Ok(false);
    };
    let at = first_among(attributes.trees.as_slice(), word);
    let depth = body.depth.max(condition.depth).max(attributes.depth);
    put(
        alloc,
        values,
        Tree::While {
            at,
            attributes: attributes.trees,
            condition: condition.tree,
            body: body.tree,
        },
        depth,
    )
}

/// Makes a `do` of its attributes, its word, its body and its condition.
pub(crate) fn make_do(alloc: Global, values: &mut Items<Value>) -> Result<bool, NoMemory>
    ensures { IfOk result (λ made. Makes (act_on acts.Do 0 (values_of values.old)) made values.new) }
{
    let Some(condition) = take_tree(values) else {
        return Ok(false);
    };
    let Some(body) = take_tree(values) else {
        return Ok(false);
    };
    let Some(word) = take_token(values) else {
        return Ok(false);
    };
    let Some(attributes) = take_trees(values) else {
        return Ok(false);
    };
    let at = first_among(attributes.trees.as_slice(), word);
    let depth = condition.depth.max(body.depth).max(attributes.depth);
    put(
        alloc,
        values,
        Tree::Do {
            at,
            attributes: attributes.trees,
            body: body.tree,
            condition: condition.tree,
        },
        depth,
    )
}

/// Makes a jump of its word and its value.
pub(crate) fn make_jump(alloc: Global, values: &mut Items<Value>) -> Result<bool, NoMemory>
    ensures { IfOk result (λ made. Makes (act_on acts.Jump 0 (values_of values.old)) made values.new) }
{
    let Some(value) = take_maybe(values) else {
        return Ok(false);
    };
    let Some(at) = take_token(values) else {
        return Ok(false);
    };
    let depth = value.depth;
    put(
        alloc,
        values,
        Tree::Jump {
            at,
            value: value.tree,
        },
        depth,
    )
}
