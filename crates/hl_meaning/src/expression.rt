//! Typed expressions.
//!
//! Operators have the numbers of their marks among the tokens, and a compound assignment has the number of its operator
//! alone.

use crate::ty::HlType;
use base_core::Bytes;
use lane_core::AtomicKind;
use sqlite_items::{Boxed, Items};

/// Where a place begins: a variable of the function, a constant, a groupshared variable, or an element of a structured
/// buffer.
#[cycle(expression)]
#[derive(Debug, Drop)]
pub enum Root {
    Variable(u32),
    Constant(u32),
    Shared(u32),
    Element { resource: u32, index: Boxed<Expr> },
}

/// A step into a place or a value: the member of a number, an element or component, or components by their numbers.
#[cycle(expression)]
#[derive(Debug, Drop)]
pub enum PathPart {
    Member(u32),
    Index(Boxed<Expr>),
    Swizzle(Bytes),
}

/// The steps from a root to a place, in order.
pub type PathParts = Items<PathPart>;

/// A place, which can be read and, as far as its root allows it, written.
#[cycle(expression)]
#[derive(Debug, Drop)]
pub struct Location {
    pub ty: HlType,
    pub root: Root,
    pub parts: PathParts,
}

/// An expression: its type, the index of its first token, and its form. Parentheses around a whole expression don't
/// count, a conversion has the index of its value, and the literal 1 of `++` and `--` that of the mark.
#[cycle(expression)]
#[derive(Debug, Drop)]
pub struct Expr {
    pub ty: HlType,
    pub at: usize,
    pub form: Form,
}

/// Expressions in order.
pub type Exprs = Items<Expr>;

/// What an expression does.
#[cycle(expression)]
#[derive(Debug, Drop)]
pub enum Form {
    /// A word.
    Literal(u32),
    /// What a place holds.
    Read(Location),
    /// An assignment. A compound one has an operator, which computes in the type `common`; without one `common` is the
    /// type of the place. The value is the one that is written, or where `old` holds the one that stood there.
    Write {
        to: Location,
        op: Option<u8>,
        common: HlType,
        value: Boxed<Expr>,
        old: bool,
    },
    /// A conversion to the type of the expression.
    Convert(Boxed<Expr>),
    Unary {
        op: u8,
        value: Boxed<Expr>,
    },
    Binary {
        op: u8,
        left: Boxed<Expr>,
        right: Boxed<Expr>,
    },
    /// One of two values by component, by a condition.
    Choose {
        cond: Boxed<Expr>,
        yes: Boxed<Expr>,
        no: Boxed<Expr>,
    },
    /// A scalar or vector of the components of its parts, or an array or a struct of its words, which an initialiser in
    /// braces gives.
    Build(Exprs),
    /// A part of a value that isn't a place.
    Pick {
        value: Boxed<Expr>,
        parts: PathParts,
    },
    Call {
        function: u32,
        args: Args,
    },
    /// The intrinsic of a number.
    Intrinsic {
        number: u8,
        args: Exprs,
    },
    /// A byte-address buffer's load of so many words, or with a value its store.
    Method {
        resource: u32,
        count: u8,
        address: Boxed<Expr>,
        value: Option<Boxed<Expr>>,
    },
    /// An atomic operation, or without a kind a compare exchange.
    Atomic {
        target: Target,
        kind: Option<AtomicKind>,
        compare: Option<Boxed<Expr>>,
        value: Boxed<Expr>,
        original: Option<Location>,
    },
}

/// An argument of a call: a value for an `in` parameter, and else a place.
#[cycle(expression)]
#[derive(Debug, Drop)]
pub enum Arg {
    Value(Expr),
    Place(Location),
}

/// Arguments in order.
pub type Args = Items<Arg>;

/// What an atomic operation works on: a place, or the word of a byte-address buffer at an address.
#[cycle(expression)]
#[derive(Debug, Drop)]
pub enum Target {
    Place(Location),
    Bytes { resource: u32, address: Boxed<Expr> },
}
