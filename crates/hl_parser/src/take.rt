//! Values are taken from those that are read, and trees put on them.

ghost use Rattle.std.specs.Prelude.{◌≡◌, ◌≤◌, ℕ, List, ◌∷◌, Option, IfOk, MatchOption};
ghost use Rattle.hl_parser.specs.Held.{Makes, values_of};
ghost use Rattle.hl_parser.specs.Machine as machine;
ghost use Rattle.hl_parser.specs.Machine.{Kept, gone, kept};
ghost use Rattle.hl_parser.specs.Parts.{depth_of, value_of};
ghost use Rattle.hl_parser.specs.Trees as plain;
ghost use Rattle.hl_parser.specs.Views.{plain_maybe, plain_of, plain_trees};

use crate::parts::{Part, TakenMaybe, TakenTree, TakenTrees, Value};
use crate::tree::Tree;
use base_core::NoMemory;
use sqlite_items::{Boxed, Items};
use std::alloc::Global;

/// The greatest depth of a tree.
const MOST_DEPTH: usize = 64;

/// Takes the last value.
fn take(values: &mut Items<Value>) -> Option<Value>
    ensures { MatchOption result ((go : machine.Value → List machine.Value → Kept) → machine.take_value (values_of values.old) go ≡ gone) (λ value. (go : machine.Value → List machine.Value → Kept) → machine.take_value (values_of values.old) go ≡ go (value_of value.part) (values_of values.new)) }
{
    values.pop()
}

/// Takes a token.
pub(crate) fn take_token(values: &mut Items<Value>) -> Option<usize>
    ensures { MatchOption result ((go : ℕ → List machine.Value → Kept) → machine.take_token (values_of values.old) go ≡ gone) (λ index. (go : ℕ → List machine.Value → Kept) → machine.take_token (values_of values.old) go ≡ go index (values_of values.new)) }
{
    let Value { part, depth: _ } = take(values)?;
    match part {
        Part::Token(index) => Some(index),
        _ => None,
    }
}

/// Takes a tree.
pub(crate) fn take_tree(values: &mut Items<Value>) -> Option<TakenTree>
    ensures { MatchOption result ((go : plain.Tree → List machine.Value → Kept) → machine.take_tree (values_of values.old) go ≡ gone) (λ taken. (go : plain.Tree → List machine.Value → Kept) → machine.take_tree (values_of values.old) go ≡ go (plain_of taken.tree) (values_of values.new)) }
{
    let Value { part, depth } = take(values)?;
    match part {
        Part::Tree(tree) => Some(TakenTree { tree, depth }),
        _ => None,
    }
}

/// Takes trees.
pub(crate) fn take_trees(values: &mut Items<Value>) -> Option<TakenTrees>
    ensures { MatchOption result ((go : plain.Trees → List machine.Value → Kept) → machine.take_trees (values_of values.old) go ≡ gone) (λ taken. (go : plain.Trees → List machine.Value → Kept) → machine.take_trees (values_of values.old) go ≡ go (plain_trees taken.trees) (values_of values.new)) }
{
    let Value { part, depth } = take(values)?;
    match part {
        Part::Trees(trees) => Some(TakenTrees { trees, depth }),
        _ => None,
    }
}

/// Takes an optional tree.
pub(crate) fn take_maybe(values: &mut Items<Value>) -> Option<TakenMaybe>
    ensures { MatchOption result ((go : plain.Maybe → List machine.Value → Kept) → machine.take_maybe (values_of values.old) go ≡ gone) (λ taken. (go : plain.Maybe → List machine.Value → Kept) → machine.take_maybe (values_of values.old) go ≡ go (plain_maybe taken.tree) (values_of values.new)) }
{
    let Value { part, depth } = take(values)?;
    match part {
        Part::Tree(tree) => Some(TakenMaybe {
            tree: Some(tree),
            depth,
        }),
        Part::Nothing => Some(TakenMaybe { tree: None, depth }),
        _ => None,
    }
}

/// Takes an optional token.
pub(crate) fn take_option(values: &mut Items<Value>) -> Option<Option<usize>>
    ensures { MatchOption result ((go : Option ℕ → List machine.Value → Kept) → machine.take_option (values_of values.old) go ≡ gone) (λ option. (go : Option ℕ → List machine.Value → Kept) → machine.take_option (values_of values.old) go ≡ go option (values_of values.new)) }
{
    let Value { part, depth: _ } = take(values)?;
    match part {
        Part::Token(index) => Some(Some(index)),
        Part::Nothing => Some(None),
        _ => None,
    }
}

/// Puts a tree on the values, unless it is too deep.
///
/// # Errors
/// `NoMemory` where memory is refused.
pub(crate) fn put(
    alloc: Global,
    values: &mut Items<Value>,
    tree: Tree,
    depth: usize,
) -> Result<bool, NoMemory>
    requires { depth ≡ plain.depth (plain_of tree) }
    ensures { IfOk result (λ made. Makes (machine.put (plain_of tree) (values_of values.old)) made values.new) }
{
    if depth > MOST_DEPTH {
        return Ok(false);
    }
    let tree = Boxed::new(alloc, tree)?;
    put_part(values, Part::Tree(tree), depth)
}

/// Puts a value on the others.
///
/// # Errors
/// `NoMemory` where memory is refused.
pub(crate) fn put_part(
    values: &mut Items<Value>,
    part: Part,
    depth: usize,
) -> Result<bool, NoMemory>
    requires measured { depth ≡ depth_of (value_of part) }
    requires shallow { depth ≤ 64 }
    ensures { IfOk result (λ made. Makes (kept (value_of part ∷ values_of values.old)) made values.new) }
{
    values.push(Value { part, depth })?;
    Ok(true)
}
