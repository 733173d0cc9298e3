//! A module and its tables (LLVM Language Reference, "Module Structure" and "Type System").

use crate::instruction::{Body, Ids};
use base_core::{Sequence, Text};

/// An entry of the type table. Other entries are named by their numbers.
#[derive(Debug, Drop)]
pub enum Ty {
    Void,
    Label,
    Metadata,
    /// An integer of so many bits.
    Int(u32),
    /// A pointer to a type in an address space.
    Pointer { to: u32, space: u32 },
    Array { len: u64, of: u32 },
    Vector { len: u64, of: u32 },
    /// A struct, with or without a name.
    Struct { name: Option<Text>, of: Ids },
    Function { result: u32, params: Ids },
}

/// The type table.
pub type Types = Sequence<Ty>;

/// A constant's value. Of an integer the low bits count, as many as its type has.
#[derive(Clone, Copy, Debug, PartialEq, Eq)]
pub enum ConstValue {
    Null,
    Undef,
    Int(i64),
}

/// A constant of a type.
#[derive(Clone, Copy, Debug, PartialEq, Eq)]
pub struct Const {
    pub ty: u32,
    pub value: ConstValue,
}

/// Constants in order of their value numbers.
pub type Consts = Sequence<Const>;

/// A variable of the module: its name, its content's type, its address space and its alignment.
#[derive(Debug, Drop)]
pub struct GlobalVar {
    pub name: Text,
    pub ty: u32,
    pub space: u32,
    pub align: u32,
}

/// The variables of a module.
pub type Globals = Sequence<GlobalVar>;

/// A function: its name, its function type, and its body where it has one.
#[derive(Debug, Drop)]
pub struct Function {
    pub name: Text,
    pub ty: u32,
    pub body: Option<Body>,
}

/// The functions of a module.
pub type Functions = Sequence<Function>;

/// The parts of a metadata node: metadata numbers, or null.
pub type MetaIds = Sequence<Option<u32>>;

/// A piece of metadata (LLVM Language Reference, "Metadata").
#[derive(Debug, Drop)]
pub enum Meta {
    Chars(Text),
    Value { ty: u32, value: u32 },
    Node(MetaIds),
}

/// All metadata in order of their numbers.
pub type Metas = Sequence<Meta>;

/// Named metadata: a name and the numbers of its nodes.
#[derive(Debug, Drop)]
pub struct Named {
    pub name: Text,
    pub ids: Ids,
}

/// The named metadata of a module.
pub type NamedList = Sequence<Named>;

/// A module.
#[derive(Debug, Drop)]
pub struct Module {
    pub triple: Text,
    pub layout: Text,
    pub types: Types,
    pub globals: Globals,
    pub functions: Functions,
    pub consts: Consts,
    pub metas: Metas,
    pub named: NamedList,
}
