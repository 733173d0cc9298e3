//! What is still to be read.

use crate::act::Act;
use hl_lexer::Terminal;

/// A part of a program that is still to be read, or an act that stands between two such.
#[derive(Clone, Copy)]
pub(crate) enum Symbol {
    /// An act.
    Make(Act),
    /// A token that is no part of a tree.
    Skip(Terminal),
    /// A name.
    Name,
    /// An item.
    Item,
    /// Any number of items, to the end.
    Items,
    /// Any number of members.
    Members,
    /// A member.
    Member,
    /// A type.
    Type,
    /// A declarator.
    Declarator,
    /// Any number of declarators, each behind a comma.
    Declarators,
    /// Any number of lengths in brackets.
    Lengths,
    /// A register, or none.
    Register,
    /// The space of a register, or none.
    Space,
    /// An initialiser.
    Init,
    /// The rest of an initialiser in braces, behind one of its parts.
    Inits,
    /// The result of a function.
    Result,
    /// The parameters of a function, behind the parenthesis.
    Params,
    /// A parameter.
    Param,
    /// Any number of parameters, each behind a comma.
    MoreParams,
    /// A direction, or none.
    Direction,
    /// A semantic, or none.
    Semantic,
    /// The arguments of an attribute, or none.
    AttributeArguments,
    /// Any number of attributes.
    Attributes,
    /// An `if` or a loop, behind its attributes.
    Attributed,
    /// A block.
    Block,
    /// A statement.
    Statement,
    /// Any number of statements, to the brace.
    Statements,
    /// A local.
    Local,
    /// A start of a local.
    Start,
    /// Any number of starts, each behind a comma.
    Starts,
    /// The initialiser of a start, or none.
    StartInit,
    /// An `else` with its statement, or none.
    Else,
    /// The first part of the head of a `for`, or none.
    First,
    /// An expression, or none.
    Optional,
    /// An expression of at least a level, by the number of the production.
    Operand(u8),
    /// What stands behind an opening parenthesis in an expression of at least a level.
    Parenthesis(u8),
    /// The operators behind an operand of one level, up to an expression of at least another.
    Tail(u8, u8),
    /// The arguments of a method, or none.
    MethodArguments,
    /// Arguments.
    Args,
    /// The arguments behind a parenthesis.
    ArgList,
    /// Any number of expressions, each behind a comma.
    Expressions,
}
