//! What is judged of a whole function.

ghost use Rattle.std.specs.Prelude.{◌≡◌, ◌&&◌, map, is_some, bytes_eq};
ghost use Rattle.hl_parser.specs.Views.{plain_of, plain_trees};
ghost use Rattle.hl_rules.specs.DeclarationRules as rules;
ghost use Rattle.hl_rules.specs.Intrinsics.{intrinsic_named};
ghost use Rattle.hl_rules.specs.Scopes.{is_function, spelled};
ghost use Rattle.hl_rules.specs.Sites as sites;
ghost use Rattle.hl_types.specs.Whole.{name_noted, whole_noted};
ghost use Rattle.hl_values.specs.ScopeViews.{plain_param, scope_of};

use crate::returns::always_returns;
use crate::signatures::is_declared_again;
use crate::threads::has_numthreads;
use hl_parser::Tree;
use hl_rules::{Broken, note_if};
use hl_values::{ParamInfo, Scope, intrinsic_named};

/// Whether a name, the token of an index, is the entry's.
#[tactic(auto, unfolding(hl_values::specs::ScopeViews::scope_of))]
pub(crate) fn is_entry_name(scope: &Scope, name: usize) -> bool
    ensures { result ≡ bytes_eq (spelled (scope_of scope.now) name) (scope_of scope.now).entry }
{
    scope.text_at(name) == scope.entry
}

/// Whether a function of this name is the entry: the first one that has its name.
pub(crate) fn is_entry(scope: &Scope, name: usize) -> bool
    ensures { result ≡ sites.is_entry (scope_of scope.now) name }
{
    is_entry_name(scope, name) && !scope.is_function(scope.text_at(name))
}

/// Whether a function has the entry's name.
#[tactic(auto, unfolding(hl_values::specs::ScopeViews::scope_of))]
pub(crate) fn is_entry_there(scope: &Scope) -> bool
    ensures { result ≡ is_function (scope_of scope.now) (scope_of scope.now).entry }
{
    scope.is_function(scope.entry)
}

/// Whether a function of this name is a second one with the entry's name.
fn is_entry_again(scope: &Scope, name: usize) -> bool
    ensures { result ≡ (bytes_eq (spelled (scope_of scope.now) name) (scope_of scope.now).entry && is_function (scope_of scope.now) (scope_of scope.now).entry) }
{
    is_entry_name(scope, name) && is_entry_there(scope)
}

/// Whether a name is that of an intrinsic function.
fn is_intrinsic(name: &[u8]) -> bool
    ensures { result ≡ is_some (intrinsic_named name.now) }
{
    intrinsic_named(name).is_some()
}

/// Whether a function gives no value.
fn is_no_result(gives: &Tree) -> bool
    ensures { result ≡ rules.is_no_result (plain_of gives.now) }
{
    match gives {
        Tree::Result { ty, .. } => ty.is_none(),
        _ => false,
    }
}

/// Notes what is broken by the name of a function, behind parameters of which this is known.
fn note_name(scope: &Scope, name: usize, params: &[ParamInfo], found: &mut Option<Broken>)
    ensures { found.new ≡ name_noted (scope_of scope.now) (map plain_param params.now) name found.old }
{
    note_if(found, scope.is_other_global(name), name, 1);
    note_if(found, is_declared_again(scope, name, params), name, 11);
    note_if(found, is_intrinsic(scope.text_at(name)), name, 12);
    note_if(found, is_entry_again(scope, name), name, 13);
}

/// Notes what a whole function breaks, behind parameters of which this is known.
pub(crate) fn note_whole(
    scope: &Scope,
    attributes: &[Tree],
    gives: &Tree,
    name: usize,
    params: &[ParamInfo],
    block: &Tree,
    found: &mut Option<Broken>,
)
    ensures { found.new ≡ whole_noted (scope_of scope.now) (map plain_param params.now) (plain_trees attributes.now) (plain_of gives.now) name (plain_of block.now) found.old }
{
    note_name(scope, name, params, found);
    let entry = is_entry(scope, name);
    let has_value = !is_no_result(gives);
    let numbered = has_numthreads(scope, attributes);
    let returns = always_returns(scope, block);
    note_if(found, entry && !numbered, name, 14);
    note_if(found, entry && has_value, gives.at(), 16);
    note_if(found, has_value && !returns, name, 21);
}
