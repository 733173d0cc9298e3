//! Programs.

ghost use Rattle.hl_meaning.specs.Views.{program_of};
ghost use Rattle.hl_meaning.specs.WellFormed.{IsWellFormed};

use crate::statement::Stmts;
use crate::ty::HlType;
use base_core::{Sequence, Text, Words};

/// A member of a struct: its name, its type, and its offset in words.
#[derive(Debug, Drop)]
pub struct Member {
    pub name: Text,
    pub ty: HlType,
    pub offset: u32,
}

/// The members of a struct, in order.
pub type Members = Sequence<Member>;

/// A struct: its name, its members, and how many words it has.
#[derive(Debug, Drop)]
pub struct StructDef {
    pub name: Text,
    pub members: Members,
    pub words: u32,
}

/// The structs of a program.
pub type StructDefs = Sequence<StructDef>;

/// A buffer: its name, its class (0 read-only, 1 writable), whether it is a byte-address buffer, the type and the words
/// of an element (`Void` and 0 for a byte-address buffer), its register where it is given, its space, and the index of
/// the token of its name.
#[derive(Debug, Drop)]
pub struct Resource {
    pub name: Text,
    pub class: u8,
    pub raw: bool,
    pub element: HlType,
    pub words: u32,
    pub register: Option<u32>,
    pub space: u32,
    pub at: usize,
}

/// The buffers of a program.
pub type Resources = Sequence<Resource>;

/// A variable: its name, its type, and the index of the token of its name.
#[derive(Debug, Drop)]
pub struct Variable {
    pub name: Text,
    pub ty: HlType,
    pub at: usize,
}

/// Variables in order.
pub type Variables = Sequence<Variable>;

/// A `static const` variable, and its words.
#[derive(Debug, Drop)]
pub struct Constant {
    pub variable: Variable,
    pub words: Words,
}

/// The constants of a program.
pub type Constants = Sequence<Constant>;

/// How an argument is passed: copied in before the call, copied out after it, or both.
#[derive(Clone, Copy, Debug, PartialEq, Eq)]
pub enum Copying {
    CopyIn,
    CopyOut,
    CopyBoth,
}

/// What a parameter of the entry is set to (HLSL, "Semantics"): SV_DispatchThreadID, SV_GroupID, SV_GroupThreadID or
/// SV_GroupIndex.
#[derive(Clone, Copy, Debug, PartialEq, Eq)]
pub enum Semantic {
    DispatchThreadId,
    GroupId,
    GroupThreadId,
    GroupIndex,
}

/// A parameter: the number of its variable, how it is passed, and its semantic where it has one.
#[derive(Clone, Copy, Debug, PartialEq, Eq)]
pub struct Parameter {
    pub variable: u32,
    pub copying: Copying,
    pub semantic: Option<Semantic>,
}

/// The parameters of a function, in order.
pub type Parameters = Sequence<Parameter>;

/// A function: its name, the type of its result, its parameters, its variables (those of the parameters first), and its
/// body.
#[derive(Debug, Drop)]
pub struct FunctionDef {
    pub name: Text,
    pub result: HlType,
    pub parameters: Parameters,
    pub variables: Variables,
    pub body: Stmts,
}

/// The functions of a program.
pub type FunctionDefs = Sequence<FunctionDef>;

/// A program with the number of its entry function and the threads of a group.
///
/// It is well formed. All numbers name what is there, and each node has the type that its place needs. A struct names
/// earlier structs alone, and has the offsets and the words of the layout; a function calls earlier functions alone.
/// No type has more than 65536 words, and no element of a buffer more than 512. What is written, or is the target of an
/// atomic operation, stands in no constant and in no read-only buffer.
#[derive(Debug, Drop)]
pub struct Program {
    pub structs: StructDefs,
    pub resources: Resources,
    pub shared: Variables,
    pub constants: Constants,
    pub functions: FunctionDefs,
    pub entry: u32,
    pub threads: [u32; 3],
    pub ghost well_formed: { ∥ IsWellFormed (program_of structs resources shared constants functions entry threads) ∥₁ },
}
