//! Where trees begin.

ghost use Rattle.std.specs.Prelude.{◌≡◌};
ghost use Rattle.hl_parser.specs.Trees as plain;
ghost use Rattle.hl_parser.specs.Grammar as grammar;
ghost use Rattle.hl_parser.specs.Views.{plain_maybe, plain_of, plain_trees};

use crate::tree::Tree;
use sqlite_items::Boxed;

/// The index of the first token of trees, or another one where there are none.
pub(crate) fn first_among(trees: &[Tree], other: usize) -> usize
    ensures { result ≡ grammar.first_among (plain_trees trees.now) other }
{
    if trees.is_empty() {
        other
    } else {
        trees[0].at()
    }
}

/// The index of the first token of an optional tree, or another one where there is none.
pub(crate) fn first_if(tree: &Option<Boxed<Tree>>, other: usize) -> usize
    ensures { result ≡ grammar.first_if (plain_maybe tree.now) other }
{
    match tree {
        Some(tree) => tree.get().at(),
        None => other,
    }
}

/// An optional index, or another one where there is none.
pub(crate) fn first_of(index: Option<usize>, other: usize) -> usize
    ensures { result ≡ grammar.first_of index other }
{
    match index {
        Some(index) => index,
        None => other,
    }
}
