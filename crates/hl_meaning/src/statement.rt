//! Typed statements.

use crate::expression::Expr;
use sqlite_items::{Boxed, Items};

/// A statement. The conditions are scalars of the kind `bool`.
#[derive(Debug, Drop)]
pub enum Stmt {
    Block(Stmts),
    /// The declaration of a variable of the function.
    Local {
        variable: u32,
        init: Option<Expr>,
    },
    Run(Expr),
    If {
        cond: Expr,
        yes: Boxed<Stmt>,
        no: Option<Boxed<Stmt>>,
    },
    For {
        init: Stmts,
        cond: Option<Expr>,
        step: Option<Expr>,
        body: Boxed<Stmt>,
    },
    While {
        cond: Expr,
        body: Boxed<Stmt>,
    },
    Do {
        body: Boxed<Stmt>,
        cond: Expr,
    },
    Break,
    Continue,
    Return(Option<Expr>),
}

/// Statements in order.
pub type Stmts = Items<Stmt>;
