//! The module of a compiled kernel: types, globals, functions, constants, metadata and instructions.
#![tactic(auto)]

pub mod instruction;
pub mod module;
pub mod spot;

pub use instruction::{Arm, Arms, Block, Blocks, Body, Ids, Inst, Insts};
pub use module::{
    Const, ConstValue, Consts, Function, Functions, GlobalVar, Globals, Meta, MetaIds, Metas,
    Module, Named, NamedList, Ty, Types,
};
pub use spot::Spot;
