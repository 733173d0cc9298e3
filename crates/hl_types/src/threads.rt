//! The threads of a group (DirectX HLSL, "numthreads").

ghost use Rattle.std.specs.Prelude.{◌≡◌, Some, is_some, option_map};
ghost use Rattle.std.specs.Option.{option_copied};
ghost use Rattle.hl_parser.specs.Views.{plain_of, plain_trees};
ghost use Rattle.hl_rules.specs.DeclarationRules as rules;
ghost use Rattle.hl_rules.specs.Sites as sites;
ghost use Rattle.hl_types.specs.Threads.{group_threads, numthreads_in, three_numbers};
ghost use Rattle.hl_values.specs.ScopeViews.{scope_of};

use hl_parser::{Tree, Trees};
use hl_values::Scope;

/// Whether a token is `numthreads`.
pub(crate) fn is_numthreads(scope: &Scope, name: usize) -> bool
    ensures { result ≡ sites.is_numthreads (scope_of scope.now) name }
{
    scope.text_at(name) == b"numthreads".as_slice()
}

/// Whether a group may have so many threads: x and y from 1 to 1024, z from 1 to 64, and at most 1024 together.
fn is_group_size(x: u32, y: u32, z: u32) -> bool
    ensures { result ≡ rules.are_threads (Some x) (Some y) (Some z) }
{
    1 <= x && x <= 1024 && 1 <= y && y <= 1024 && 1 <= z && z <= 64 && x * y * z <= 1024
}

/// The three constant numbers that arguments are.
fn three_numbers(scope: &Scope, arguments: &[Tree]) -> Option<[u32; 3]>
    ensures { result ≡ three_numbers (scope_of scope.now) (plain_trees arguments.now) }
{
    if arguments.len() != 3 {
        return None;
    }
    let x = scope.constant_number(&arguments[0])?;
    let y = scope.constant_number(&arguments[1])?;
    let z = scope.constant_number(&arguments[2])?;
    Some([x, y, z])
}

/// Whether arguments are three constant numbers that are the threads of a group.
pub(crate) fn have_threads(scope: &Scope, arguments: &[Tree]) -> bool
    ensures { result ≡ rules.have_threads (scope_of scope.now) (plain_trees arguments.now) }
{
    match three_numbers(scope, arguments) {
        Some(sizes) => is_group_size(sizes[0], sizes[1], sizes[2]),
        None => false,
    }
}

/// The arguments of an attribute that is a `numthreads`.
fn numthreads_in<'t>(scope: &Scope, tree: &'t Tree) -> Option<&'t Trees>
    ensures { option_map plain_trees (option_copied result) ≡ numthreads_in (scope_of scope.now) (plain_of tree.now) }
{
    match tree {
        Tree::Attribute {
            name,
            arguments,
            ..
        } => {
            if is_numthreads(scope, *name) {
                Some(arguments)
            } else {
                None
            }
        }
        _ => None,
    }
}

/// Whether an attribute is a `numthreads`.
pub(crate) fn is_numthreads_attribute(scope: &Scope, tree: &Tree) -> bool
    ensures { result ≡ is_some (numthreads_in (scope_of scope.now) (plain_of tree.now)) }
{
    numthreads_in(scope, tree).is_some()
}

/// Whether a `numthreads` is among attributes.
pub(crate) fn has_numthreads(scope: &Scope, attributes: &[Tree]) -> bool
    ensures { result ≡ rules.has_numthreads (scope_of scope.now) (plain_trees attributes.now) }
{
    for tree in attributes {
        if is_numthreads_attribute(scope, tree) {
            return true;
        }
    }
    false
}

/// The threads that the first `numthreads` among attributes gives, where it has three constant numbers.
pub(crate) fn group_threads(scope: &Scope, attributes: &[Tree]) -> Option<[u32; 3]>
    ensures { result ≡ group_threads (scope_of scope.now) (plain_trees attributes.now) }
{
    for tree in attributes {
        if let Some(arguments) = numthreads_in(scope, tree) {
            return three_numbers(scope, arguments.as_slice());
        }
    }
    None
}
