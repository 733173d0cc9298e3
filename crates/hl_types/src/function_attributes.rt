//! Attributes of functions (DirectX HLSL, "numthreads").

ghost use Rattle.std.specs.Prelude.{◌≡◌, OnOk, false};
ghost use Rattle.hl_parser.specs.Trees.{more_trees, no_trees};
ghost use Rattle.hl_parser.specs.Views.{plain_of, plain_trees};
ghost use Rattle.hl_rules.specs.Rules.{noted};
ghost use Rattle.hl_rules.specs.Sites.{function_attributes_sites, result_sites};
ghost use Rattle.hl_values.specs.ScopeViews.{scope_of};

use crate::attributes::note_arguments;
use crate::declarators::note_type;
use crate::threads::{have_threads, is_numthreads, is_numthreads_attribute};
use base_core::NoMemory;
use hl_parser::Tree;
use hl_rules::{Broken, note_if};
use hl_values::Scope;
use std::alloc::Global;

/// An attribute of a function, behind a `numthreads` or not.
fn note_attribute(
    scope: &Scope,
    again: bool,
    tree: &Tree,
    found: &mut Option<Broken>,
    alloc: Global,
) -> Result<(), NoMemory>
    ensures { OnOk result (found.new ≡ noted found.old (function_attributes_sites (scope_of scope.now) again (more_trees (plain_of tree.now) no_trees))) }
{
    match tree {
        Tree::Attribute {
            at,
            name,
            arguments,
        } => {
            note_arguments(scope, arguments, found, alloc)?;
            let numthreads = is_numthreads(scope, *name);
            let threads = have_threads(scope, arguments.as_slice());
            note_if(found, again && numthreads, *name, 14);
            note_if(found, numthreads && !threads, *name, 15);
            note_if(found, !numthreads, *at, 23);
            Ok(())
        }
        _ => Ok(()),
    }
}

/// The attributes of a function.
///
/// # Errors
/// `NoMemory` where memory is refused.
pub(crate) fn note_function_attributes(
    scope: &Scope,
    attributes: &[Tree],
    found: &mut Option<Broken>,
    alloc: Global,
) -> Result<(), NoMemory>
    ensures { OnOk result (found.new ≡ noted found.old (function_attributes_sites (scope_of scope.now) false (plain_trees attributes.now))) }
{
    let mut again = false;
    for tree in attributes {
        note_attribute(scope, again, tree, found, alloc)?;
        let numthreads = is_numthreads_attribute(scope, tree);
        again = again || numthreads;
    }
    Ok(())
}

/// The type of what a function returns.
pub(crate) fn note_result(scope: &Scope, gives: &Tree, found: &mut Option<Broken>)
    ensures { found.new ≡ noted found.old (result_sites (scope_of scope.now) (plain_of gives.now)) }
{
    match gives {
        Tree::Result { ty, .. } => match ty {
            Some(ty) => note_type(scope, ty.get(), found),
            None => {}
        },
        _ => {}
    }
}
