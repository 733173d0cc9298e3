//! Parameters of functions (HLSL, "Function Declarations").

ghost use Rattle.std.specs.Prelude.{◌≡◌, ◌&&◌, ◌||◌, ◌++◌, ◌∷◌, [], not, map, IfOk, OnOk};
ghost use Rattle.hl_parser.specs.Trees.{Trees, at_of, no_trees};
ghost use Rattle.hl_parser.specs.Views.{plain_of, plain_trees};
ghost use Rattle.hl_rules.specs.Constants.{declarator_type, named_type};
ghost use Rattle.hl_rules.specs.Declarations.{after_param, after_params, param_copying, param_type, params_info};
ghost use Rattle.hl_rules.specs.DeclarationRules as rules;
ghost use Rattle.hl_rules.specs.Elaboration.{param_variable, param_variables, parameters_from};
ghost use Rattle.hl_rules.specs.Found.{breaking, broken_if, gathered};
ghost use Rattle.hl_rules.specs.Parts.{a_local_name, site};
ghost use Rattle.hl_rules.specs.Rules.{noted};
ghost use Rattle.hl_rules.specs.Sites.{declarator_sites, entry_sites, param_sites, params_sites, type_sites};
ghost use Rattle.hl_types.specs.Semantics.{AreHeld, is_input_behind};
ghost use Rattle.hl_values.specs.ScopeChanges.{held_of};
ghost use Rattle.hl_values.specs.ScopeViews.{plain_param, scope_of};
ghost use Rattle.hl_values.specs.Views.{plain_type_if};

use crate::declarators::{declarator, note_type};
use crate::semantics::{Semantics, copying_of, is_copied_in, is_input, semantic_if};
use base_core::{NoMemory, Sequence};
use hl_meaning::{Copying, HlType, Parameter, Parameters, Semantic};
use hl_parser::Tree;
use hl_rules::{Broken, note_if};
use hl_values::{ParamInfo, Scope, copied_if};
use std::alloc::Global;

/// How the argument of a parameter is passed.
fn copying_in(scope: &Scope, tree: &Tree) -> Copying
    ensures { result ≡ param_copying (scope_of scope.now) (plain_of tree.now) }
{
    match tree {
        Tree::Param { direction, .. } => copying_of(scope, direction),
        _ => Copying::CopyIn,
    }
}

/// The semantic of a parameter, if it has one.
fn semantic_in(scope: &Scope, tree: &Tree) -> Option<Semantic>
    ensures { result ≡ rules.param_semantic (scope_of scope.now) (plain_of tree.now) }
{
    match tree {
        Tree::Param { semantic, .. } => semantic_if(scope, *semantic),
        _ => None,
    }
}

/// Notes whether a parameter is one of the entry that is refused, behind parameters that have these semantics.
fn note_entry_param(
    found: &mut Option<Broken>,
    entry: bool,
    before: Semantics,
    ty: &Option<HlType>,
    copying: Copying,
    semantic: Option<Semantic>,
    name: usize,
)
    ensures { found.new ≡ gathered found.old (breaking 17 (broken_if (entry && (not (rules.is_copied_in copying) || not (is_input_behind before (plain_type_if ty.now) semantic))) name)) }
{
    let refused = !is_copied_in(copying) || !is_input(before, ty, semantic);
    note_if(found, entry && refused, name, 17);
}

/// The type that a parameter has.
fn note_param_type(
    scope: &Scope,
    ty: &Tree,
    name: &Tree,
    found: &mut Option<Broken>,
    alloc: Global,
) -> Result<Option<HlType>, NoMemory>
    ensures own { IfOk result (λ own. plain_type_if own ≡ declarator_type (scope_of scope.now) (named_type (scope_of scope.now) (plain_of ty.now)) (plain_of name.now)) }
    ensures found { OnOk result (found.new ≡ noted found.old (type_sites (scope_of scope.now) (plain_of ty.now) ++ (declarator_sites (scope_of scope.now) (named_type (scope_of scope.now) (plain_of ty.now)) (plain_of name.now) ++ site (scope_of scope.now) (a_local_name (at_of (plain_of name.now))) ∷ []))) }
{
    note_type(scope, ty, found);
    let named = scope.named_type(ty);
    let own = declarator(scope, &named, name, found, alloc)?;
    note_if(
        found,
        scope.is_declared_here(scope.text_at(name.at())),
        name.at(),
        2,
    );
    Ok(own)
}

/// A parameter, behind parameters that have these semantics. The scope is then that behind it.
fn param<'a>(
    scope: &mut Scope<'a>,
    entry: bool,
    before: Semantics,
    tree: &Tree,
    found: &mut Option<Broken>,
    alloc: Global,
) -> Result<ParamInfo, NoMemory>
    ensures info { IfOk result (λ info. plain_param info ≡ record { ty = param_type (scope_of scope.old) (plain_of tree.now); copying = param_copying (scope_of scope.old) (plain_of tree.now) }) }
    ensures scope { OnOk result (scope_of scope.new ≡ after_param (scope_of scope.old) (plain_of tree.now)) }
    ensures held { OnOk result (held_of scope.new ≡ record (held_of scope.old) { variables = (held_of scope.old).variables ++ param_variable (scope_of scope.old) (plain_of tree.now) }) }
    ensures found { OnOk result ((trees : Trees) → AreHeld (scope_of scope.old) trees before → found.new ≡ noted found.old (param_sites (scope_of scope.old) (plain_of tree.now) ++ entry_sites (scope_of scope.old) entry trees (plain_of tree.now))) }
{
    let copying = copying_in(scope, tree);
    let semantic = semantic_in(scope, tree);
    match tree {
        Tree::Param {
            constant,
            ty,
            declarator,
            ..
        } => {
            let at = declarator.get().at();
            let own = note_param_type(scope, ty.get(), declarator.get(), found, alloc)?;
            note_entry_param(found, entry, before, &own, copying, semantic, at);
            let known = copied_if(&own, alloc)?;
            scope.declare_variable(alloc, at, own, constant.is_some())?;
            Ok(ParamInfo { ty: known, copying })
        }
        _ => {
            note_if(found, entry, 0, 17);
            Ok(ParamInfo { ty: None, copying })
        }
    }
}

/// The parameters of a function, which may be the entry. The scope is then that behind them.
///
/// # Errors
/// `NoMemory` where memory is refused, as in each call below.
pub(crate) fn note_params<'a>(
    scope: &mut Scope<'a>,
    entry: bool,
    params: &[Tree],
    found: &mut Option<Broken>,
    alloc: Global,
) -> Result<Sequence<ParamInfo>, NoMemory>
    ensures info { IfOk result (λ infos. map plain_param infos ≡ params_info (scope_of scope.old) (plain_trees params.now)) }
    ensures scope { OnOk result (scope_of scope.new ≡ after_params (scope_of scope.old) (plain_trees params.now)) }
    ensures held { OnOk result (held_of scope.new ≡ record (held_of scope.old) { variables = (held_of scope.old).variables ++ param_variables (scope_of scope.old) (plain_trees params.now) }) }
    ensures found { OnOk result (found.new ≡ noted found.old (params_sites (scope_of scope.old) entry no_trees (plain_trees params.now))) }
{
    let mut infos = Sequence::new(alloc);
    let mut before = Semantics::NONE;
    for tree in params {
        let semantic = semantic_in(scope, tree);
        let info = param(scope, entry, before, tree, found, alloc)?;
        infos.push(info)?;
        before = before.with(semantic);
    }
    Ok(infos)
}

/// The parameters of a function, whose variables are its first ones.
pub(crate) fn parameters_of(
    scope: &Scope,
    params: &[Tree],
    alloc: Global,
) -> Result<Parameters, NoMemory>
    ensures { IfOk result (λ made. made ≡ parameters_from (scope_of scope.now) 0 (plain_trees params.now)) }
{
    let mut made = Sequence::new(alloc);
    for tree in params {
        made.push(Parameter {
            variable: made.len() as u32,
            copying: copying_in(scope, tree),
            semantic: semantic_in(scope, tree),
        })?;
    }
    Ok(made)
}
