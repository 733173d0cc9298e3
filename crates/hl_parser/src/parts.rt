//! What is read.

ghost use Rattle.std.specs.Prelude.{◌≡◌, ◌≤◌};
ghost use Rattle.hl_parser.specs.Parts.{depth_of, value_of};
ghost use Rattle.hl_parser.specs.Trees.{depth_if, depths};
ghost use Rattle.hl_parser.specs.Views.{plain_maybe, plain_of, plain_trees};

use crate::tree::{Tree, Trees};
use sqlite_items::Boxed;

/// What is read: the index of a token, a tree, trees, or nothing in the place of an optional part.
#[derive(Drop)]
pub(crate) enum Part {
    /// The index of a token.
    Token(usize),
    /// A tree.
    Tree(Boxed<Tree>),
    /// Trees.
    Trees(Trees),
    /// Nothing.
    Nothing,
}

/// What is read, and how deep it is.
#[derive(Drop)]
pub(crate) struct Value {
    /// What it is.
    pub(crate) part: Part,
    /// How deep it is.
    pub(crate) depth: usize,
    ghost measured: { depth ≡ depth_of (value_of part) },
    ghost shallow: { depth ≤ 64 },
}

/// A tree that is taken, and how deep it is.
#[derive(Drop)]
pub(crate) struct TakenTree {
    /// The tree.
    pub(crate) tree: Boxed<Tree>,
    /// How deep it is.
    pub(crate) depth: usize,
    ghost measured: { depth ≡ Rattle.hl_parser.specs.Trees.depth (plain_of tree) },
    ghost shallow: { depth ≤ 64 },
}

/// Trees that are taken, and how deep they are.
#[derive(Drop)]
pub(crate) struct TakenTrees {
    /// The trees.
    pub(crate) trees: Trees,
    /// How deep they are.
    pub(crate) depth: usize,
    ghost measured: { depth ≡ depths (plain_trees trees) },
    ghost shallow: { depth ≤ 64 },
}

/// An optional tree that is taken, and how deep it is.
#[derive(Drop)]
pub(crate) struct TakenMaybe {
    /// The tree.
    pub(crate) tree: Option<Boxed<Tree>>,
    /// How deep it is.
    pub(crate) depth: usize,
    ghost measured: { depth ≡ depth_if (plain_maybe tree) },
    ghost shallow: { depth ≤ 64 },
}
