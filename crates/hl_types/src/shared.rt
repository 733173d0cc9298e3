//! Groupshared variables (HLSL, "Storage Classes").

ghost use Rattle.std.specs.Prelude.{◌≡◌, ◌++◌, ◌∷◌, [], map, IfOk, OnOk};
ghost use Rattle.hl_meaning.specs.Views.{plain_variable};
ghost use Rattle.hl_parser.specs.Trees.{at_of};
ghost use Rattle.hl_parser.specs.Views.{plain_of, plain_trees};
ghost use Rattle.hl_rules.specs.Constants.{named_type};
ghost use Rattle.hl_rules.specs.Declarations.{after_shared, with_shared};
ghost use Rattle.hl_rules.specs.Elaboration as elaboration;
ghost use Rattle.hl_rules.specs.Elaboration.{declared_shared, declared_variable};
ghost use Rattle.hl_rules.specs.Parts.{a_global_name, site};
ghost use Rattle.hl_rules.specs.Rules.{noted};
ghost use Rattle.hl_rules.specs.Sites.{declarator_sites, shared_sites, type_sites};
ghost use Rattle.hl_values.specs.ScopeViews.{scope_of};
ghost use Rattle.hl_values.specs.Views.{plain_type_if};

use crate::declarators::{declarator, note_type};
use crate::layout::type_or_void;
use base_core::{NoMemory, Text};
use hl_meaning::{HlType, Variable, Variables};
use hl_parser::{Tree, Trees};
use hl_rules::{Broken, note_if};
use hl_values::Scope;
use std::alloc::Global;

/// Notes that a global name is declared a second time, if it is.
pub(crate) fn note_global(scope: &Scope, name: usize, found: &mut Option<Broken>)
    ensures { found.new ≡ noted found.old (site (scope_of scope.now) (a_global_name name) ∷ []) }
{
    note_if(found, scope.is_global(name), name, 1);
}

/// The variable of a declared name, of type `Void` where it has none.
pub(crate) fn variable_of(
    scope: &Scope,
    name: usize,
    ty: &Option<HlType>,
    alloc: Global,
) -> Result<Variable, NoMemory>
    ensures { IfOk result (λ variable. plain_variable variable ≡ elaboration.variable_of (scope_of scope.now) name (plain_type_if ty.now)) }
{
    let text = Text::from_slice(alloc, scope.text_at(name))?;
    let ty = type_or_void(ty, alloc)?;
    Ok(Variable {
        name: text,
        ty,
        at: name,
    })
}

/// A groupshared variable of a type, behind others. The scope is then that behind it.
///
/// # Errors
/// `NoMemory` where memory is refused, as in each call below.
fn shared_variable<'a>(
    scope: &mut Scope<'a>,
    ty: &Option<HlType>,
    tree: &Tree,
    made: &mut Variables,
    found: &mut Option<Broken>,
    alloc: Global,
) -> Result<(), NoMemory>
    ensures scope { OnOk result (scope_of scope.new ≡ with_shared (plain_type_if ty.now) (scope_of scope.old) (plain_of tree.now)) }
    ensures made { OnOk result (map plain_variable made.new ≡ map plain_variable made.old ++ declared_variable (scope_of scope.old) (plain_type_if ty.now) (plain_of tree.now) ∷ []) }
    ensures found { OnOk result (found.new ≡ noted found.old (declarator_sites (scope_of scope.old) (plain_type_if ty.now) (plain_of tree.now) ++ site (scope_of scope.old) (a_global_name (at_of (plain_of tree.now))) ∷ [])) }
{
    let own = declarator(scope, ty, tree, found, alloc)?;
    let name = tree.at();
    note_global(scope, name, found);
    let variable = variable_of(scope, name, &own, alloc)?;
    made.push(variable)?;
    scope.declare_shared(alloc, name, own)?;
    Ok(())
}

/// Groupshared variables of one type, behind others.
fn shared_variables<'a>(
    scope: &mut Scope<'a>,
    ty: &Option<HlType>,
    trees: &[Tree],
    made: &mut Variables,
    found: &mut Option<Broken>,
    alloc: Global,
) -> Result<(), NoMemory>
    ensures scope { OnOk result (scope_of scope.new ≡ after_shared (plain_type_if ty.now) (scope_of scope.old) (plain_trees trees.now)) }
    ensures made { OnOk result (map plain_variable made.new ≡ map plain_variable made.old ++ declared_shared (plain_type_if ty.now) (scope_of scope.old) (plain_trees trees.now)) }
    ensures found { OnOk result (found.new ≡ noted found.old (shared_sites (plain_type_if ty.now) (scope_of scope.old) (plain_trees trees.now))) }
{
    for tree in trees {
        shared_variable(scope, ty, tree, made, found, alloc)?;
    }
    Ok(())
}

/// Groupshared variables of the type that a tree says, behind others. The scope is then that behind them.
pub(crate) fn shared<'a>(
    scope: &mut Scope<'a>,
    ty: &Tree,
    trees: &Trees,
    made: &mut Variables,
    found: &mut Option<Broken>,
    alloc: Global,
) -> Result<(), NoMemory>
    ensures scope { OnOk result (scope_of scope.new ≡ after_shared (named_type (scope_of scope.old) (plain_of ty.now)) (scope_of scope.old) (plain_trees trees.now)) }
    ensures made { OnOk result (map plain_variable made.new ≡ map plain_variable made.old ++ declared_shared (named_type (scope_of scope.old) (plain_of ty.now)) (scope_of scope.old) (plain_trees trees.now)) }
    ensures found { OnOk result (found.new ≡ noted found.old (type_sites (scope_of scope.old) (plain_of ty.now) ++ shared_sites (named_type (scope_of scope.old) (plain_of ty.now)) (scope_of scope.old) (plain_trees trees.now))) }
{
    note_type(scope, ty, found);
    let named = scope.named_type(ty);
    shared_variables(scope, &named, trees.as_slice(), made, found, alloc)?;
    Ok(())
}
