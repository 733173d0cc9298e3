//! Attributes of statements (HLSL, "Attributes").

ghost use Rattle.std.specs.Prelude.{◌≡◌, OnOk, bytes_eq};
ghost use Rattle.std.specs.List.{list_any};
ghost use Rattle.hl_parser.specs.Trees.{more_trees, no_trees};
ghost use Rattle.hl_parser.specs.Views.{plain_of, plain_trees};
ghost use Rattle.hl_rules.specs.ExpressionRules as rules;
ghost use Rattle.hl_rules.specs.Rules.{noted};
ghost use Rattle.hl_rules.specs.Sites.{arguments_sites, attributes_sites};
ghost use Rattle.hl_values.specs.ScopeViews.{scope_of};

use crate::expressions::used;
use base_core::NoMemory;
use hl_parser::{Tree, Trees};
use hl_rules::{Broken, note_if};
use hl_values::Scope;
use std::alloc::Global;

/// Whether two names are the same.
fn is_same(name: &[u8], other: &[u8]) -> bool
    ensures { result ≡ bytes_eq name.now other.now }
{
    name == other
}

/// Whether a name is that of an attribute of statements without arguments.
fn is_flag(name: &[u8]) -> bool
    ensures { result ≡ list_any (bytes_eq name.now) rules.statement_attributes }
{
    is_same(name, b"loop")
        || is_same(name, b"branch")
        || is_same(name, b"flatten")
        || is_same(name, b"fastopt")
        || is_same(name, b"allow_uav_condition")
}

/// Whether a statement may have an attribute of a name with so many arguments.
fn is_statement_attribute(name: &[u8], arguments: usize) -> bool
    ensures { result ≡ rules.is_statement_attribute name.now arguments }
{
    (is_same(name, b"unroll") && arguments <= 1) || (is_flag(name) && arguments == 0)
}

/// Arguments, which are all used.
///
/// # Errors
/// `NoMemory` where memory is refused, as in each call below.
pub(crate) fn note_arguments(
    scope: &Scope,
    trees: &Trees,
    found: &mut Option<Broken>,
    alloc: Global,
) -> Result<(), NoMemory>
    ensures { OnOk result (found.new ≡ noted found.old (arguments_sites (scope_of scope.now) (plain_trees trees.now))) }
{
    for tree in trees.as_slice() {
        used(scope, tree, found, alloc)?;
    }
    Ok(())
}

/// An attribute of a statement.
fn note_attribute(
    scope: &Scope,
    tree: &Tree,
    found: &mut Option<Broken>,
    alloc: Global,
) -> Result<(), NoMemory>
    ensures { OnOk result (found.new ≡ noted found.old (attributes_sites (scope_of scope.now) (more_trees (plain_of tree.now) no_trees))) }
{
    match tree {
        Tree::Attribute {
            at,
            name,
            arguments,
        } => {
            note_arguments(scope, arguments, found, alloc)?;
            let known = is_statement_attribute(scope.text_at(*name), arguments.len());
            note_if(found, !known, *at, 23);
            Ok(())
        }
        _ => Ok(()),
    }
}

/// Attributes of a statement.
pub(crate) fn note_attributes(
    scope: &Scope,
    trees: &Trees,
    found: &mut Option<Broken>,
    alloc: Global,
) -> Result<(), NoMemory>
    ensures { OnOk result (found.new ≡ noted found.old (attributes_sites (scope_of scope.now) (plain_trees trees.now))) }
{
    for tree in trees.as_slice() {
        note_attribute(scope, tree, found, alloc)?;
    }
    Ok(())
}
