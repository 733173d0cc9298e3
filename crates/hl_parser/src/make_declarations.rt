//! Trees of declarations are made.

ghost use Rattle.std.specs.Prelude.{IfOk};
ghost use Rattle.hl_parser.specs.declared.act.Act.TheVariants as acts;
ghost use Rattle.hl_parser.specs.Held.{Makes, values_of};
ghost use Rattle.hl_parser.specs.Machine.{act_on};

use crate::first::{first_among, first_if, first_of};
use crate::parts::Value;
use crate::take::{put, take_maybe, take_option, take_token, take_tree, take_trees};
use crate::tree::Tree;
use base_core::NoMemory;
use sqlite_items::Items;
use std::alloc::Global;

/// Makes a program of its items.
pub(crate) fn make_program(alloc: Global, values: &mut Items<Value>) -> Result<bool, NoMemory>
    ensures { IfOk result (λ made. Makes (act_on acts.Program 0 (values_of values.old)) made values.new) }
{
    let Some(items) = take_trees(values) else {
        return Ok(false);
    };
    let at = first_among(items.trees.as_slice(), 0);
    let depth = items.depth;
    put(
        alloc,
        values,
        Tree::Program {
            at,
            items: items.trees,
        },
        depth,
    )
}

/// Makes an item of what it is.
pub(crate) fn make_item(alloc: Global, values: &mut Items<Value>) -> Result<bool, NoMemory>
    ensures { IfOk result (λ made. Makes (act_on acts.Item 0 (values_of values.old)) made values.new) }
{
    let Some(item) = take_tree(values) else {
        return Ok(false);
    };
    let at = item.tree.get().at();
    let depth = item.depth;
    put(
        alloc,
        values,
        Tree::Item {
            at,
            item: item.tree,
        },
        depth,
    )
}

/// Makes a struct of its word, its name and its members.
pub(crate) fn make_struct(alloc: Global, values: &mut Items<Value>) -> Result<bool, NoMemory>
    ensures { IfOk result (λ made. Makes (act_on acts.Struct 0 (values_of values.old)) made values.new) }
{
    let Some(members) = take_trees(values) else {
        return Ok(false);
    };
    let Some(name) = take_token(values) else {
        return Ok(false);
    };
    let Some(at) = take_token(values) else {
        return Ok(false);
    };
    let depth = members.depth;
    put(
        alloc,
        values,
        Tree::Struct {
            at,
            name,
            members: members.trees,
        },
        depth,
    )
}

/// Makes a member of its type and its declarators.
pub(crate) fn make_member(alloc: Global, values: &mut Items<Value>) -> Result<bool, NoMemory>
    ensures { IfOk result (λ made. Makes (act_on acts.Member 0 (values_of values.old)) made values.new) }
{
    let Some(declarators) = take_trees(values) else {
        return Ok(false);
    };
    let Some(ty) = take_tree(values) else {
        return Ok(false);
    };
    let at = ty.tree.get().at();
    let depth = declarators.depth.max(ty.depth);
    put(
        alloc,
        values,
        Tree::Member {
            at,
            ty: ty.tree,
            declarators: declarators.trees,
        },
        depth,
    )
}

/// Makes a basic type of its word.
pub(crate) fn make_basic(alloc: Global, values: &mut Items<Value>) -> Result<bool, NoMemory>
    ensures { IfOk result (λ made. Makes (act_on acts.Basic 0 (values_of values.old)) made values.new) }
{
    let Some(at) = take_token(values) else {
        return Ok(false);
    };
    let depth = 0;
    put(alloc, values, Tree::Basic { at }, depth)
}

/// Makes a type of a basic one.
pub(crate) fn make_basic_type(alloc: Global, values: &mut Items<Value>) -> Result<bool, NoMemory>
    ensures { IfOk result (λ made. Makes (act_on acts.BasicType 0 (values_of values.old)) made values.new) }
{
    let Some(basic) = take_tree(values) else {
        return Ok(false);
    };
    let at = basic.tree.get().at();
    let depth = basic.depth;
    put(
        alloc,
        values,
        Tree::Type {
            at,
            basic: Some(basic.tree),
        },
        depth,
    )
}

/// Makes a type of its name.
pub(crate) fn make_name_type(alloc: Global, values: &mut Items<Value>) -> Result<bool, NoMemory>
    ensures { IfOk result (λ made. Makes (act_on acts.NameType 0 (values_of values.old)) made values.new) }
{
    let Some(at) = take_token(values) else {
        return Ok(false);
    };
    let depth = 0;
    put(alloc, values, Tree::Type { at, basic: None }, depth)
}

/// Makes a declarator of its name and its lengths.
pub(crate) fn make_declarator(alloc: Global, values: &mut Items<Value>) -> Result<bool, NoMemory>
    ensures { IfOk result (λ made. Makes (act_on acts.Declarator 0 (values_of values.old)) made values.new) }
{
    let Some(lengths) = take_trees(values) else {
        return Ok(false);
    };
    let Some(at) = take_token(values) else {
        return Ok(false);
    };
    let depth = lengths.depth;
    put(
        alloc,
        values,
        Tree::Declarator {
            at,
            lengths: lengths.trees,
        },
        depth,
    )
}

/// Makes a buffer of its kind, its name, its register and its space.
pub(crate) fn make_buffer(alloc: Global, values: &mut Items<Value>) -> Result<bool, NoMemory>
    ensures { IfOk result (λ made. Makes (act_on acts.Buffer 0 (values_of values.old)) made values.new) }
{
    let Some(space) = take_option(values) else {
        return Ok(false);
    };
    let Some(register) = take_option(values) else {
        return Ok(false);
    };
    let Some(name) = take_token(values) else {
        return Ok(false);
    };
    let Some(kind) = take_tree(values) else {
        return Ok(false);
    };
    let at = kind.tree.get().at();
    let depth = kind.depth;
    put(
        alloc,
        values,
        Tree::Buffer {
            at,
            kind: kind.tree,
            name,
            register,
            space,
        },
        depth,
    )
}

/// Makes a kind of its word and the type of its elements.
pub(crate) fn make_kind(alloc: Global, values: &mut Items<Value>) -> Result<bool, NoMemory>
    ensures { IfOk result (λ made. Makes (act_on acts.Kind 0 (values_of values.old)) made values.new) }
{
    let Some(element) = take_maybe(values) else {
        return Ok(false);
    };
    let Some(at) = take_token(values) else {
        return Ok(false);
    };
    let depth = element.depth;
    put(
        alloc,
        values,
        Tree::Kind {
            at,
            element: element.tree,
        },
        depth,
    )
}

/// Makes groupshared variables of their word, their type and their declarators.
pub(crate) fn make_shared(alloc: Global, values: &mut Items<Value>) -> Result<bool, NoMemory>
    ensures { IfOk result (λ made. Makes (act_on acts.Shared 0 (values_of values.old)) made values.new) }
{
    let Some(declarators) = take_trees(values) else {
        return Ok(false);
    };
    let Some(ty) = take_tree(values) else {
        return Ok(false);
    };
    let Some(at) = take_token(values) else {
        return Ok(false);
    };
    let depth = declarators.depth.max(ty.depth);
    put(
        alloc,
        values,
        Tree::Shared {
            at,
            ty: ty.tree,
            declarators: declarators.trees,
        },
        depth,
    )
}

/// Makes a constant of its word, its type, its declarator and its initialiser.
pub(crate) fn make_constant(alloc: Global, values: &mut Items<Value>) -> Result<bool, NoMemory>
    ensures { IfOk result (λ made. Makes (act_on acts.Constant 0 (values_of values.old)) made values.new) }
{
    let Some(init) = take_tree(values) else {
        return Ok(false);
    };
    let Some(declarator) = take_tree(values) else {
        return Ok(false);
    };
    let Some(ty) = take_tree(values) else {
        return Ok(false);
    };
    let Some(at) = take_token(values) else {
        return Ok(false);
    };
    let depth = init.depth.max(declarator.depth).max(ty.depth);
    put(
        alloc,
        values,
        Tree::Constant {
            at,
            ty: ty.tree,
            declarator: declarator.tree,
            init: init.tree,
        },
        depth,
    )
}

/// Makes an initialiser of an expression.
pub(crate) fn make_value(alloc: Global, values: &mut Items<Value>) -> Result<bool, NoMemory>
    ensures { IfOk result (λ made. Makes (act_on acts.Value 0 (values_of values.old)) made values.new) }
{
    let Some(value) = take_tree(values) else {
        return Ok(false);
    };
    let at = value.tree.get().at();
    let depth = value.depth;
    put(
        alloc,
        values,
        Tree::Init {
            at,
            value: Some(value.tree),
            parts: Items::new(alloc),
        },
        depth,
    )
}

/// Makes an initialiser of its brace and its parts.
pub(crate) fn make_braces(alloc: Global, values: &mut Items<Value>) -> Result<bool, NoMemory>
    ensures { IfOk result (λ made. Makes (act_on acts.Braces 0 (values_of values.old)) made values.new) }
{
    let Some(parts) = take_trees(values) else {
        return Ok(false);
    };
    let Some(at) = take_token(values) else {
        return Ok(false);
    };
    let depth = parts.depth + 1;
    put(
        alloc,
        values,
        Tree::Init {
            at,
            value: None,
            parts: parts.trees,
        },
        depth,
    )
}

/// Makes a function of its attributes, its result, its name, its parameters and its block.
pub(crate) fn make_function(alloc: Global, values: &mut Items<Value>) -> Result<bool, NoMemory>
    ensures { IfOk result (λ made. Makes (act_on acts.Function 0 (values_of values.old)) made values.new) }
{
    let Some(block) = take_tree(values) else {
        return Ok(false);
    };
    let Some(params) = take_trees(values) else {
        return Ok(false);
    };
    let Some(name) = take_token(values) else {
        return Ok(false);
    };
    let Some(result) = take_tree(values) else {
        return Ok(false);
    };
    let Some(attributes) = take_trees(values) else {
        return Ok(false);
    };
    let other = result.tree.get().at();
    let at = first_among(attributes.trees.as_slice(), other);
    let depth = block
        .depth
        .max(params.depth)
        .max(result.depth)
        .max(attributes.depth);
    put(
        alloc,
        values,
        Tree::Function {
            at,
            attributes: attributes.trees,
            result: result.tree,
            name,
            params: params.trees,
            block: block.tree,
        },
        depth,
    )
}

/// Makes the result `void`.
pub(crate) fn make_void_result(alloc: Global, values: &mut Items<Value>) -> Result<bool, NoMemory>
    ensures { IfOk result (λ made. Makes (act_on acts.VoidResult 0 (values_of values.old)) made values.new) }
{
    let Some(at) = take_token(values) else {
        return Ok(false);
    };
    let depth = 0;
    put(alloc, values, Tree::Result { at, ty: None }, depth)
}

/// Makes a result of its type.
pub(crate) fn make_type_result(alloc: Global, values: &mut Items<Value>) -> Result<bool, NoMemory>
    ensures { IfOk result (λ made. Makes (act_on acts.TypeResult 0 (values_of values.old)) made values.new) }
{
    let Some(ty) = take_tree(values) else {
        return Ok(false);
    };
    let at = ty.tree.get().at();
    let depth = ty.depth;
    put(
        alloc,
        values,
        Tree::Result {
            at,
            ty: Some(ty.tree),
        },
        depth,
    )
}

/// Makes a parameter of its `const`, its direction, its type, its declarator and its semantic.
pub(crate) fn make_param(alloc: Global, values: &mut Items<Value>) -> Result<bool, NoMemory>
    ensures { IfOk result (λ made. Makes (act_on acts.Param 0 (values_of values.old)) made values.new) }
{
    let Some(semantic) = take_option(values) else {
        return Ok(false);
    };
    let Some(declarator) = take_tree(values) else {
        return Ok(false);
    };
    let Some(ty) = take_tree(values) else {
        return Ok(false);
    };
    let Some(direction) = take_maybe(values) else {
        return Ok(false);
    };
    let Some(constant) = take_option(values) else {
        return Ok(false);
    };
    let other = ty.tree.get().at();
    let behind = first_if(&direction.tree, other);
    let at = first_of(constant, behind);
    let depth = declarator.depth.max(ty.depth).max(direction.depth);
    put(
        alloc,
        values,
        Tree::Param {
            at,
            constant,
            direction: direction.tree,
            ty: ty.tree,
            declarator: declarator.tree,
            semantic,
        },
        depth,
    )
}

/// Makes a direction of its word.
pub(crate) fn make_direction(alloc: Global, values: &mut Items<Value>) -> Result<bool, NoMemory>
    ensures { IfOk result (λ made. Makes (act_on acts.Direction 0 (values_of values.old)) made values.new) }
{
    let Some(at) = take_token(values) else {
        return Ok(false);
    };
    let depth = 0;
    put(alloc, values, Tree::Direction { at }, depth)
}

/// Makes an attribute of its bracket, its name and its arguments.
pub(crate) fn make_attribute(alloc: Global, values: &mut Items<Value>) -> Result<bool, NoMemory>
    ensures { IfOk result (λ made. Makes (act_on acts.Attribute 0 (values_of values.old)) made values.new) }
{
    let Some(arguments) = take_trees(values) else {
        return Ok(false);
    };
    let Some(name) = take_token(values) else {
        return Ok(false);
    };
    let Some(at) = take_token(values) else {
        return Ok(false);
    };
    let depth = arguments.depth;
    put(
        alloc,
        values,
        Tree::Attribute {
            at,
            name,
            arguments: arguments.trees,
        },
        depth,
    )
}
