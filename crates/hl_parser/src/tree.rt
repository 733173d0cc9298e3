//! Trees.

ghost use Rattle.std.specs.Prelude.{◌≡◌};
ghost use Rattle.hl_parser.specs.Trees.{at_of};
ghost use Rattle.hl_parser.specs.Views.{plain_of};

use sqlite_items::{Boxed, Items};

/// Trees in order.
pub type Trees = Items<Tree>;

/// A part of a program, one variant for each production of the grammar, which is a part of that of HLSL; the mark of an
/// assignment is an index in `Expr`.
///
/// `at` is the index of the first token. The other parts stand in order: trees, and the indices of those tokens that
/// say more than that they stand there. A production of expressions with one part alone makes no tree of its own, so
/// in the place of an expression stands a tree of any production from `Expr` to `Primary`.
#[derive(Drop)]
pub enum Tree {
    /// At least one item.
    Program {
        at: usize,
        items: Trees,
    },
    /// A struct, a buffer, groupshared variables, a constant or a function.
    Item {
        at: usize,
        item: Boxed<Tree>,
    },
    /// A struct with its name and at least one member.
    Struct {
        at: usize,
        name: usize,
        members: Trees,
    },
    /// Members of one type.
    Member {
        at: usize,
        ty: Boxed<Tree>,
        declarators: Trees,
    },
    /// A basic type, or the name `at`.
    Type {
        at: usize,
        basic: Option<Boxed<Tree>>,
    },
    /// The word `at` of a scalar or a vector.
    Basic {
        at: usize,
    },
    /// The declared name `at`, with the lengths of an array.
    Declarator {
        at: usize,
        lengths: Trees,
    },
    /// A buffer with its name, and where they are given its register and its space.
    Buffer {
        at: usize,
        kind: Boxed<Tree>,
        name: usize,
        register: Option<usize>,
        space: Option<usize>,
    },
    /// The word `at` of a kind of buffers, with the type of its elements, if it has any.
    Kind {
        at: usize,
        element: Option<Boxed<Tree>>,
    },
    /// Groupshared variables of one type.
    Shared {
        at: usize,
        ty: Boxed<Tree>,
        declarators: Trees,
    },
    /// A constant.
    Constant {
        at: usize,
        ty: Boxed<Tree>,
        declarator: Boxed<Tree>,
        init: Boxed<Tree>,
    },
    /// An initialiser: an expression, or without one at least one part in braces.
    Init {
        at: usize,
        value: Option<Boxed<Tree>>,
        parts: Trees,
    },
    /// A function.
    Function {
        at: usize,
        attributes: Trees,
        result: Boxed<Tree>,
        name: usize,
        params: Trees,
        block: Boxed<Tree>,
    },
    /// The type of what a function returns, or `void`.
    Result {
        at: usize,
        ty: Option<Boxed<Tree>>,
    },
    /// A parameter, with its `const`, its direction and its semantic, where they are given.
    Param {
        at: usize,
        constant: Option<usize>,
        direction: Option<Boxed<Tree>>,
        ty: Boxed<Tree>,
        declarator: Boxed<Tree>,
        semantic: Option<usize>,
    },
    /// The word `at`: `in`, `out` or `inout`.
    Direction {
        at: usize,
    },
    /// An attribute with its name and its arguments.
    Attribute {
        at: usize,
        name: usize,
        arguments: Trees,
    },
    /// Statements in braces.
    Block {
        at: usize,
        statements: Trees,
    },
    /// A statement: a block, a local, an expression, an `if`, a loop or a jump, or the semicolon `at` alone.
    Stmt {
        at: usize,
        part: Option<Boxed<Tree>>,
    },
    /// Variables of one type, with their `const`, where it is given.
    Local {
        at: usize,
        constant: Option<usize>,
        ty: Boxed<Tree>,
        starts: Trees,
    },
    /// A variable, with its initialiser, where it is given.
    Start {
        at: usize,
        declarator: Boxed<Tree>,
        init: Option<Boxed<Tree>>,
    },
    /// An `if`, with its `else`, where it is given.
    If {
        at: usize,
        attributes: Trees,
        condition: Boxed<Tree>,
        consequent: Boxed<Tree>,
        alternative: Option<Boxed<Tree>>,
    },
    /// A `for`, with the parts of its head that are given.
    For {
        at: usize,
        attributes: Trees,
        first: Option<Boxed<Tree>>,
        condition: Option<Boxed<Tree>>,
        step: Option<Boxed<Tree>>,
        body: Boxed<Tree>,
    },
    /// A `while`.
    While {
        at: usize,
        attributes: Trees,
        condition: Boxed<Tree>,
        body: Boxed<Tree>,
    },
    /// A `do`.
    Do {
        at: usize,
        attributes: Trees,
        body: Boxed<Tree>,
        condition: Boxed<Tree>,
    },
    /// The word `at`: `break`, `continue` or `return`, the last with its value, where it is given.
    Jump {
        at: usize,
        value: Option<Boxed<Tree>>,
    },
    /// An assignment, by `=` or a compound mark.
    Expr {
        at: usize,
        left: Boxed<Tree>,
        mark: usize,
        right: Boxed<Tree>,
    },
    /// A choice by `?` and `:`.
    Choice {
        at: usize,
        condition: Boxed<Tree>,
        consequent: Boxed<Tree>,
        alternative: Boxed<Tree>,
    },
    /// An operation by `||`.
    Or {
        at: usize,
        left: Boxed<Tree>,
        mark: usize,
        right: Boxed<Tree>,
    },
    /// An operation by `&&`.
    And {
        at: usize,
        left: Boxed<Tree>,
        mark: usize,
        right: Boxed<Tree>,
    },
    /// An operation by `|`.
    Bitor {
        at: usize,
        left: Boxed<Tree>,
        mark: usize,
        right: Boxed<Tree>,
    },
    /// An operation by `^`.
    Bitxor {
        at: usize,
        left: Boxed<Tree>,
        mark: usize,
        right: Boxed<Tree>,
    },
    /// An operation by `&`.
    Bitand {
        at: usize,
        left: Boxed<Tree>,
        mark: usize,
        right: Boxed<Tree>,
    },
    /// A comparison by `==` or `!=`.
    Equal {
        at: usize,
        left: Boxed<Tree>,
        mark: usize,
        right: Boxed<Tree>,
    },
    /// A comparison by `<`, `>`, `<=` or `>=`.
    Less {
        at: usize,
        left: Boxed<Tree>,
        mark: usize,
        right: Boxed<Tree>,
    },
    /// A shift by `<<` or `>>`.
    Shift {
        at: usize,
        left: Boxed<Tree>,
        mark: usize,
        right: Boxed<Tree>,
    },
    /// A sum or a difference.
    Sum {
        at: usize,
        left: Boxed<Tree>,
        mark: usize,
        right: Boxed<Tree>,
    },
    /// A product, a quotient or a remainder.
    Product {
        at: usize,
        left: Boxed<Tree>,
        mark: usize,
        right: Boxed<Tree>,
    },
    /// An operation by the mark `at`, or the cast to a type.
    Unary {
        at: usize,
        cast: Option<Boxed<Tree>>,
        operand: Boxed<Tree>,
    },
    /// What stands behind an operand: a `.` with a name, and with the arguments of a method where `part` is there; a
    /// bracket with the index `part`; or `++` or `--`.
    Postfix {
        at: usize,
        operand: Boxed<Tree>,
        mark: usize,
        name: Option<usize>,
        part: Option<Boxed<Tree>>,
    },
    /// A number, a truth value or a name, the token `at`; a call of the name `at`, with arguments alone; a constructor
    /// of a type, with both; or the expression `part` in parentheses.
    Primary {
        at: usize,
        part: Option<Boxed<Tree>>,
        arguments: Option<Boxed<Tree>>,
    },
    /// Arguments in parentheses.
    Args {
        at: usize,
        arguments: Trees,
    },
}

impl Tree {
    /// The index of the first token.
    pub fn at(&self) -> usize
        ensures { result ≡ at_of (plain_of self.now) }
    {
        match self {
            Tree::Program { at, .. } => *at,
            Tree::Item { at, .. } => *at,
            Tree::Struct { at, .. } => *at,
            Tree::Member { at, .. } => *at,
            Tree::Type { at, .. } => *at,
            Tree::Basic { at } => *at,
            Tree::Declarator { at, .. } => *at,
            Tree::Buffer { at, .. } => *at,
            Tree::Kind { at, .. } => *at,
            Tree::Shared { at, .. } => *at,
            Tree::Constant { at, .. } => *at,
            Tree::Init { at, .. } => *at,
            Tree::Function { at, .. } => *at,
            Tree::Result { at, .. } => *at,
            Tree::Param { at, .. } => *at,
            Tree::Direction { at } => *at,
            Tree::Attribute { at, .. } => *at,
            Tree::Block { at, .. } => *at,
            Tree::Stmt { at, .. } => *at,
            Tree::Local { at, .. } => *at,
            Tree::Start { at, .. } => *at,
            Tree::If { at, .. } => *at,
            Tree::For { at, .. } => *at,
            Tree::While { at, .. } => *at,
            Tree::Do { at, .. } => *at,
            Tree::Jump { at, .. } => *at,
            Tree::Expr { at, .. } => *at,
            Tree::Choice { at, .. } => *at,
            Tree::Or { at, .. } => *at,
            Tree::And { at, .. } => *at,
            Tree::Bitor { at, .. } => *at,
            Tree::Bitxor { at, .. } => *at,
            Tree::Bitand { at, .. } => *at,
            Tree::Equal { at, .. } => *at,
            Tree::Less { at, .. } => *at,
            Tree::Shift { at, .. } => *at,
            Tree::Sum { at, .. } => *at,
            Tree::Product { at, .. } => *at,
            Tree::Unary { at, .. } => *at,
            Tree::Postfix { at, .. } => *at,
            Tree::Primary { at, .. } => *at,
            Tree::Args { at, .. } => *at,
        }
    }
}
