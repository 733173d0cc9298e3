//! Programs as typed trees: their types, their layout, and how much they hold.
#![tactic(auto)]

mod counting;
mod expression;
mod intrinsic;
mod layout;
mod program;
mod size;
mod statement;
mod statement_counting;
mod sums;
mod totals;
mod ty;

pub use expression::{Arg, Args, Expr, Exprs, Form, Location, PathPart, PathParts, Root, Target};
pub use intrinsic::Signature;
pub use layout::{offset_of, stopped_words_of, words_of};
pub use program::{
    Constant, Constants, Copying, FunctionDef, FunctionDefs, Member, Members, Parameter,
    Parameters, Program, Resource, Resources, Semantic, StructDef, StructDefs, Variable, Variables,
};
pub use size::Sizes;
pub use statement::{Stmt, Stmts};
pub use totals::sizes;
pub use ty::{HlType, Kind};
