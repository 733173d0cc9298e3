//! What is done with the values that are read.

/// What is done with the values that are read so far, the last one first.
#[derive(Clone, Copy)]
pub(crate) enum Act {
    /// Adds the index of the token that is looked at.
    Here,
    /// Adds the value of an optional part that isn't there.
    Absent,
    /// Adds an empty list.
    Empty,
    /// Adds a tree at the end of the list before it.
    Append,
    /// Makes a program of its items.
    Program,
    /// Makes an item of what it is.
    Item,
    /// Makes a struct of its word, its name and its members.
    Struct,
    /// Makes a member of its type and its declarators.
    Member,
    /// Makes a basic type of its word.
    Basic,
    /// Makes a type of a basic one.
    BasicType,
    /// Makes a type of its name.
    NameType,
    /// Makes a declarator of its name and its lengths.
    Declarator,
    /// Makes a buffer of its kind, its name, its register and its space.
    Buffer,
    /// Makes a kind of its word and the type of its elements.
    Kind,
    /// Makes groupshared variables of their word, their type and their declarators.
    Shared,
    /// Makes a constant of its word, its type, its declarator and its initialiser.
    Constant,
    /// Makes an initialiser of an expression.
    Value,
    /// Makes an initialiser of its brace and its parts.
    Braces,
    /// Makes a function of its attributes, its result, its name, its parameters and its block.
    Function,
    /// Makes the result `void`.
    VoidResult,
    /// Makes a result of its type.
    TypeResult,
    /// Makes a parameter of its `const`, its direction, its type, its declarator and its semantic.
    Param,
    /// Makes a direction of its word.
    Direction,
    /// Makes an attribute of its bracket, its name and its arguments.
    Attribute,
    /// Makes a block of its brace and its statements.
    Block,
    /// Makes a statement of what it is.
    Part,
    /// Makes an empty statement of its semicolon.
    Nothing,
    /// Makes a local of its `const`, its type and its starts.
    Local,
    /// Makes a start of its declarator and its initialiser.
    Start,
    /// Makes an `if` of its attributes, its word, its condition and its branches.
    If,
    /// Makes a `for` of its attributes, its word, the three parts of its head and its body.
    For,
    /// Makes a `while` of its attributes, its word, its condition and its body.
    While,
    /// Makes a `do` of its attributes, its word, its body and its condition.
    Do,
    /// Makes a jump of its word and its value.
    Jump,
    /// Makes an assignment of its two sides and the mark between them.
    Assignment,
    /// Makes a choice of its condition and its two values.
    Choice,
    /// Makes an operation of the level with this number of its two operands and the mark between them.
    Binary(u8),
    /// Makes a unary operation of its mark and its operand.
    Unary,
    /// Makes a cast of its parenthesis, its type and its operand.
    Cast,
    /// Makes the member or the method of an operand, of its mark, its name and its arguments.
    Field,
    /// Makes an indexed operand of the bracket and the index.
    Index,
    /// Makes an operand with `++` or `--` behind it.
    Step,
    /// Makes a number, a truth value or a name of its token.
    Word,
    /// Makes a call of its name and its arguments.
    Call,
    /// Makes a constructor of its type and its arguments.
    Constructor,
    /// Makes an expression in parentheses of its parenthesis and the expression.
    Parentheses,
    /// Makes arguments of their parenthesis and the expressions.
    Args,
}
