//! Instructions, basic blocks and bodies (LLVM Language Reference, "Instruction Reference").
//!
//! Numbers in an instruction are value, type or block numbers. Values are numbered: globals,
//! functions, module constants, then in a body the function's parameters, the body's constants and
//! its instructions that have a value.

use crate::module::Consts;
use base_core::Sequence;

/// Value, type or metadata numbers.
pub type Ids = Sequence<u32>;

/// A value that comes into a phi, and the block that it comes from.
#[derive(Clone, Copy, Debug, PartialEq, Eq)]
pub struct Arm {
    pub value: u32,
    pub block: u32,
}

/// The arms of a phi.
pub type Arms = Sequence<Arm>;

/// One instruction. Operations are those of the bitcode's records.
#[derive(Debug, Drop)]
pub enum Inst {
    /// A binary operation of two values of one type.
    Bin { op: u8, left: u32, right: u32 },
    /// A conversion of a value to a type.
    Cast { op: u8, value: u32, ty: u32 },
    /// A comparison, whose value is an i1.
    Cmp { op: u8, left: u32, right: u32 },
    /// One of two values, by an i1.
    Select { yes: u32, no: u32, cond: u32 },
    /// The value of the arm that control came by.
    Phi { ty: u32, arms: Arms },
    /// A private allocation of `count` values of a type.
    Alloca { ty: u32, count: u32, align: u32 },
    /// The address of an element.
    Gep { ty: u32, base: u32, indexes: Ids },
    /// A read of memory.
    Load { ty: u32, from: u32, align: u32 },
    /// A write of memory.
    Store { to: u32, value: u32, align: u32 },
    /// A part of a struct value.
    Extract { value: u32, index: u32 },
    /// A call of a function with its arguments.
    Call { function: u32, args: Ids },
    /// An atomic operation on memory, whose value is what was there.
    Rmw { op: u8, to: u32, value: u32 },
    /// A compare exchange on memory.
    CmpXchg { to: u32, compare: u32, value: u32 },
    /// A jump to a block.
    Jump { target: u32 },
    /// A jump to one of two blocks, by an i1.
    Branch { cond: u32, yes: u32, no: u32 },
    /// The end of the body.
    Ret,
}

/// The instructions of a block.
pub type Insts = Sequence<Inst>;

/// A basic block.
#[derive(Debug, Drop)]
pub struct Block {
    pub insts: Insts,
}

/// The blocks of a body; control begins at the first.
pub type Blocks = Sequence<Block>;

/// The body of a function: its constants and its blocks.
#[derive(Debug, Drop)]
pub struct Body {
    pub consts: Consts,
    pub blocks: Blocks,
}
