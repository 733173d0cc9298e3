//! Initialisers.

ghost use Rattle.std.specs.Prelude.{◌≡◌, ◌∷◌, ◌++◌, [], IfOk, OnOk, option_and_then};
ghost use Rattle.hl_parser.specs.Trees.{at_of};
ghost use Rattle.hl_parser.specs.Views.{plain_of};
ghost use Rattle.hl_rules.specs.Expressions.{value_in};
ghost use Rattle.hl_rules.specs.Parts.{a_conversion, site};
ghost use Rattle.hl_rules.specs.Rules.{noted};
ghost use Rattle.hl_rules.specs.Sites.{init_sites, value_sites};
ghost use Rattle.hl_rules.specs.Statements.{init_code};
ghost use Rattle.hl_rules.specs.Values.{type_in};
ghost use Rattle.hl_types.specs.Walks.{made_expr};
ghost use Rattle.hl_values.specs.ScopeViews.{scope_of};
ghost use Rattle.hl_values.specs.Views.{plain_type_if};

use crate::braces::brace_init;
use crate::conditions::converted_to;
use crate::expressions::used;
use base_core::NoMemory;
use hl_meaning::{Expr, HlType};
use hl_parser::Tree;
use hl_rules::Broken;
use hl_values::{Scope, note_conversion};
use std::alloc::Global;

/// An initialiser without braces, of a type.
///
/// # Errors
/// `NoMemory` where memory is refused, as in each call below.
fn value_init(
    scope: &Scope,
    ty: &Option<HlType>,
    value: &Tree,
    found: &mut Option<Broken>,
    alloc: Global,
) -> Result<Option<Expr>, NoMemory>
    ensures code { IfOk result (λ made. made_expr made ≡ option_and_then (λ own. value_in (scope_of scope.now) own (plain_of value.now)) (plain_type_if ty.now)) }
    ensures found { OnOk result (found.new ≡ noted found.old (value_sites (scope_of scope.now) (plain_of value.now) ++ site (scope_of scope.now) (a_conversion (type_in (scope_of scope.now) (plain_of value.now)) (plain_type_if ty.now) (at_of (plain_of value.now))) ∷ [])) }
{
    let typed = used(scope, value, found, alloc)?;
    note_conversion(&typed.ty, ty, value.at(), found);
    converted_to(ty, typed.code, alloc)
}

/// An initialiser of a type.
pub(crate) fn init(
    scope: &Scope,
    ty: &Option<HlType>,
    tree: &Tree,
    found: &mut Option<Broken>,
    alloc: Global,
) -> Result<Option<Expr>, NoMemory>
    ensures code { IfOk result (λ made. made_expr made ≡ option_and_then (λ own. init_code (scope_of scope.now) own (plain_of tree.now)) (plain_type_if ty.now)) }
    ensures found { OnOk result (found.new ≡ noted found.old (init_sites (scope_of scope.now) (plain_type_if ty.now) (plain_of tree.now))) }
{
    match tree {
        Tree::Init { at, value, parts } => match value {
            Some(value) => value_init(scope, ty, value.get(), found, alloc),
            None => brace_init(scope, ty, *at, parts, found, alloc),
        },
        _ => Ok(None),
    }
}
