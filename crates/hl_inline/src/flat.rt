//! Programs without calls: one body over one list of variables.

ghost use Rattle.hl_inline.specs.FlatViews.{flat_of};
ghost use Rattle.hl_inline.specs.FlatWellFormed.{IsFlat};

use hl_meaning::{Expr, Resources, Semantic, StructDefs, Variables};
use sqlite_items::{Boxed, Items};

/// A statement. The conditions are scalars of the kind `bool`.
#[derive(Debug, Drop)]
pub enum FlatStmt {
    Block(FlatStmts),
    /// Sets a variable to the value of a semantic.
    Input {
        variable: u32,
        semantic: Semantic,
    },
    /// The declaration of a variable.
    Local {
        variable: u32,
        init: Option<Expr>,
    },
    Run(Expr),
    If {
        cond: Expr,
        yes: Boxed<FlatStmt>,
        no: Option<Boxed<FlatStmt>>,
    },
    /// Runs its body again and again.
    Loop(Boxed<FlatStmt>),
    /// Runs its body once, and is what a `Leave` of its number leaves.
    Named {
        name: u32,
        body: Boxed<FlatStmt>,
    },
    /// Goes to the end of the `Named` of that number around it.
    Leave(u32),
}

/// Statements in order.
pub type FlatStmts = Items<FlatStmt>;

/// A program without calls: its structs, variables, buffers and groupshared variables, the threads of a group, and its
/// body.
///
/// It is well formed, as a program is. Its expressions have no calls and its places no constants. A `Leave` stands
/// inside the `Named` of its number, and no `Named` inside another of the same number. A semantic is set at most once,
/// and the groupshared variables have at most 8192 words together.
#[derive(Debug, Drop)]
pub struct Flat {
    pub structs: StructDefs,
    pub variables: Variables,
    pub resources: Resources,
    pub shared: Variables,
    pub threads: [u32; 3],
    pub body: FlatStmts,
    pub ghost well_formed: { ∥ IsFlat (flat_of structs variables resources shared threads body) ∥₁ },
}
