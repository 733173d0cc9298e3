//! An act is done.

ghost use Rattle.std.specs.Prelude.{◌≡◌, ◌≤◌, IfOk};
ghost use Rattle.hl_parser.specs.declared.act.Act.TheVariants as acts;
ghost use Rattle.hl_parser.specs.Held.{Makes, values_of};
ghost use Rattle.hl_parser.specs.Machine.{act_on};
ghost use Rattle.hl_parser.specs.Trees.{a_binary};
ghost use Rattle.hl_parser.specs.Views.{plain_of};

use crate::act::Act;
use crate::make_declarations::{
    make_attribute, make_basic, make_basic_type, make_braces, make_buffer, make_constant,
    make_declarator, make_direction, make_function, make_item, make_kind, make_member,
    make_name_type, make_param, make_program, make_shared, make_struct, make_type_result,
    make_value, make_void_result,
};
use crate::make_expressions::{
    make_args, make_assignment, make_call, make_cast, make_choice, make_constructor, make_field,
    make_index, make_parentheses, make_step, make_unary, make_word,
};
use crate::make_statements::{
    make_block, make_do, make_for, make_if, make_jump, make_local, make_nothing, make_part,
    make_start, make_while,
};
use crate::parts::{Part, Value};
use crate::take::{put, put_part, take_token, take_tree, take_trees};
use crate::tree::Tree;
use base_core::NoMemory;
use sqlite_items::{Boxed, Items};
use std::alloc::Global;

/// Does an act, where the token with an index is looked at: whether the values are still kept.
///
/// # Errors
/// `NoMemory` where memory is refused.
pub(crate) fn make(
    alloc: Global,
    values: &mut Items<Value>,
    act: Act,
    at: usize,
) -> Result<bool, NoMemory>
    ensures { IfOk result (λ made. Makes (act_on act at (values_of values.old)) made values.new) }
{
    match act {
        Act::Here => put_part(values, Part::Token(at), 0),
        Act::Absent => put_part(values, Part::Nothing, 0),
        Act::Empty => make_empty(alloc, values),
        Act::Append => make_append(values),
        Act::Binary(level) => make_binary(alloc, values, level),
        Act::Program => make_program(alloc, values),
        Act::Item => make_item(alloc, values),
        Act::Struct => make_struct(alloc, values),
        Act::Member => make_member(alloc, values),
        Act::Basic => make_basic(alloc, values),
        Act::BasicType => make_basic_type(alloc, values),
        Act::NameType => make_name_type(alloc, values),
        Act::Declarator => make_declarator(alloc, values),
        Act::Buffer => make_buffer(alloc, values),
        Act::Kind => make_kind(alloc, values),
        Act::Shared => make_shared(alloc, values),
        Act::Constant => make_constant(alloc, values),
        Act::Value => make_value(alloc, values),
        Act::Braces => make_braces(alloc, values),
        Act::Function => make_function(alloc, values),
        Act::VoidResult => make_void_result(alloc, values),
        Act::TypeResult => make_type_result(alloc, values),
        Act::Param => make_param(alloc, values),
        Act::Direction => make_direction(alloc, values),
        Act::Attribute => make_attribute(alloc, values),
        Act::Block => make_block(alloc, values),
        Act::Part => make_part(alloc, values),
        Act::Nothing => make_nothing(alloc, values),
        Act::Local => make_local(alloc, values),
        Act::Start => make_start(alloc, values),
        Act::If => make_if(alloc, values),
        Act::For => make_for(alloc, values),
        Act::While => make_while(alloc, values),
        Act::Do => make_do(alloc, values),
        Act::Jump => make_jump(alloc, values),
        Act::Assignment => make_assignment(alloc, values),
        Act::Choice => make_choice(alloc, values),
        Act::Unary => make_unary(alloc, values),
        Act::Cast => make_cast(alloc, values),
        Act::Field => make_field(alloc, values),
        Act::Index => make_index(alloc, values),
        Act::Step => make_step(alloc, values),
        Act::Word => make_word(alloc, values),
        Act::Call => make_call(alloc, values),
        Act::Constructor => make_constructor(alloc, values),
        Act::Parentheses => make_parentheses(alloc, values),
        Act::Args => make_args(alloc, values),
    }
}

/// Adds an empty list.
fn make_empty(alloc: Global, values: &mut Items<Value>) -> Result<bool, NoMemory>
    ensures { IfOk result (λ made. Makes (act_on acts.Empty 0 (values_of values.old)) made values.new) }
{
    put_part(values, Part::Trees(Items::new(alloc)), 0)
}

/// Adds a tree at the end of the list before it.
fn make_append(values: &mut Items<Value>) -> Result<bool, NoMemory>
    ensures { IfOk result (λ made. Makes (act_on acts.Append 0 (values_of values.old)) made values.new) }
{
    let Some(tree) = take_tree(values) else {
        return Ok(false);
    };
    let Some(trees) = take_trees(values) else {
        return Ok(false);
    };
    let depth = trees.depth.max(tree.depth);
    let mut list = trees.trees;
    list.push(tree.tree.into_inner())?;
    put_part(values, Part::Trees(list), depth)
}

/// Makes an operation of the level with this number of its two operands and the mark between them.
fn make_binary(alloc: Global, values: &mut Items<Value>, level: u8) -> Result<bool, NoMemory>
    ensures { IfOk result (λ made. Makes (act_on (acts.Binary level) 0 (values_of values.old)) made values.new) }
{
    if level < 30 {
        return Ok(false);
    }
    if level > 39 {
        return Ok(false);
    }
    let Some(right) = take_tree(values) else {
        return Ok(false);
    };
    let Some(mark) = take_token(values) else {
        return Ok(false);
    };
    let Some(left) = take_tree(values) else {
        return Ok(false);
    };
    let at = left.tree.get().at();
    let depth = left.depth.max(right.depth) + 1;
    let operands = Operands {
        at,
        left: left.tree,
        mark,
        right: right.tree,
    };
    put(alloc, values, operation(level, operands), depth)
}

/// The operands of an operation.
#[derive(Drop)]
struct Operands {
    /// The index of the first token.
    at: usize,
    /// The left operand.
    left: Boxed<Tree>,
    /// The mark.
    mark: usize,
    /// The right operand.
    right: Boxed<Tree>,
}

/// The operation of a level.
fn operation(level: u8, operands: Operands) -> Tree
    requires low { 30 ≤ level }
    requires high { level ≤ 39 }
    ensures { plain_of result ≡ a_binary level operands.at (plain_of operands.left) operands.mark (plain_of operands.right) }
{
    let Operands {
        at,
        left,
        mark,
        right,
    } = operands;
    match level {
        30 => Tree::Or {
            at,
            left,
            mark,
            right,
        },
        31 => Tree::And {
            at,
            left,
            mark,
            right,
        },
        32 => Tree::Bitor {
            at,
            left,
            mark,
            right,
        },
        33 => Tree::Bitxor {
            at,
            left,
            mark,
            right,
        },
        34 => Tree::Bitand {
            at,
            left,
            mark,
            right,
        },
        35 => Tree::Equal {
            at,
            left,
            mark,
            right,
        },
        36 => Tree::Less {
            at,
            left,
            mark,
            right,
        },
        37 => Tree::Shift {
            at,
            left,
            mark,
            right,
        },
        38 => Tree::Sum {
            at,
            left,
            mark,
            right,
        },
        _ => Tree::Product {
            at,
            left,
            mark,
            right,
        },
    }
}
