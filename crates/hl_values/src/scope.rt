//! What is known at a place of a program, and by which names (HLSL, "Names", "Scopes").
//!
//! All names share one name space. A local name hides a global one, and a name of an inner block one of an outer block.
//! Where a declaration gives no type, since it breaks a rule, there is none.

use crate::name_table::NameTable;
use crate::structs::Structs;
use base_core::Sequence;
use hl_lexer::Token;
use hl_meaning::{Constants, Copying, HlType, Variables};

/// Where a variable stands: among those of the function, the groupshared variables or the constants.
#[derive(Clone, Copy, Debug, PartialEq, Eq)]
pub enum VariableRoot {
    Variable(u32),
    Shared(u32),
    Constant(u32),
}

/// A variable: where it stands, its type, whether it is `const`, and the constant number that its name is, if it is one.
#[derive(Debug, Drop)]
pub struct VariableInfo {
    pub root: VariableRoot,
    pub ty: Option<HlType>,
    pub is_const: bool,
    pub number: Option<u32>,
}

/// A buffer: whether it may be written, whether it is a byte-address buffer, and else the type of its elements.
#[derive(Debug, Drop)]
pub struct BufferInfo {
    pub writable: bool,
    pub raw: bool,
    pub element: Option<HlType>,
}

/// A parameter: its type, and how it is passed.
#[derive(Debug, Drop)]
pub struct ParamInfo {
    pub ty: Option<HlType>,
    pub copying: Copying,
}

/// A function: its parameters, and what a call of it gives, which is `Void` for no value.
#[derive(Debug, Drop)]
pub struct FunctionInfo {
    pub params: Sequence<ParamInfo>,
    pub result: Option<HlType>,
}

/// What a name stands for: the struct or the buffer of a number, a variable, or a function.
#[derive(Debug, Drop)]
pub enum Sort {
    Struct(u32),
    Buffer(u32),
    Variable(VariableInfo),
    Function,
}

/// Names of one block, or the global ones, in the order of their declarations.
pub type Names<'a> = NameTable<'a, Sort>;

/// What is known at a place.
#[derive(Drop)]
pub struct Scope<'a> {
    /// The tokens of the source.
    pub tokens: &'a [Token<'a>],
    /// The name of the entry.
    pub entry: &'a [u8],
    /// The structs that are declared so far.
    pub structs: Structs<'a>,
    /// The buffers that are declared so far.
    pub buffers: Sequence<BufferInfo>,
    /// The functions that are declared so far.
    pub functions: NameTable<'a, FunctionInfo>,
    /// The groupshared variables that are declared so far, of type `Void` where a declaration gives none.
    pub shared: Variables,
    /// The constants that are declared so far, of type `Void` where a declaration gives none.
    pub constants: Constants,
    /// The global names.
    pub globals: Names<'a>,
    /// The names of the blocks around, the innermost last.
    pub blocks: Vec<Names<'a>>,
    /// The variables of the function that are declared so far, of type `Void` where a declaration gives none.
    pub variables: Variables,
    /// Whether a loop stands around.
    pub in_loop: bool,
    /// The number of the function whose body stands around.
    pub inside: Option<u32>,
    /// What that function gives.
    pub result: Option<HlType>,
}
