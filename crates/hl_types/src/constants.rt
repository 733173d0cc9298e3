//! Constants (HLSL, "Initializers").

ghost use Rattle.std.specs.Prelude.{◌≡◌, ◌++◌, ◌∷◌, [], None, map, OnOk, IfOk};
ghost use Rattle.hl_meaning.specs.Views.{plain_constant};
ghost use Rattle.hl_parser.specs.Trees.{at_of};
ghost use Rattle.hl_parser.specs.Views.{plain_of};
ghost use Rattle.hl_rules.specs.Constants.{declarator_type, named_type};
ghost use Rattle.hl_rules.specs.Declarations.{with_constant};
ghost use Rattle.hl_rules.specs.Elaboration.{declared_constant};
ghost use Rattle.hl_rules.specs.Parts.{a_global_name, site};
ghost use Rattle.hl_rules.specs.Rules.{noted};
ghost use Rattle.hl_rules.specs.Sites.{constant_sites, declarator_sites, type_sites};
ghost use Rattle.hl_types.specs.Items.{constant_item_sites};
ghost use Rattle.hl_values.specs.ScopeViews.{scope_of};
ghost use Rattle.hl_values.specs.Views.{plain_type_if};

use crate::constant_words::{constant_value, constant_words, note_constant_init};
use crate::declarators::{declarator, note_type};
use crate::inits::init;
use crate::shared::{note_global, variable_of};
use base_core::{NoMemory, Sequence};
use hl_meaning::{Constant, Constants, HlType};
use hl_parser::Tree;
use hl_rules::Broken;
use hl_values::{Scope, copied_if};
use std::alloc::Global;

/// The declarator of a constant, with its type.
///
/// # Errors
/// `NoMemory` where memory is refused, as in each call below.
fn constant_type(
    scope: &Scope,
    ty: &Tree,
    name: &Tree,
    found: &mut Option<Broken>,
    alloc: Global,
) -> Result<Option<HlType>, NoMemory>
    ensures own { IfOk result (λ own. plain_type_if own ≡ declarator_type (scope_of scope.now) (named_type (scope_of scope.now) (plain_of ty.now)) (plain_of name.now)) }
    ensures found { OnOk result (found.new ≡ noted found.old (type_sites (scope_of scope.now) (plain_of ty.now) ++ (declarator_sites (scope_of scope.now) (named_type (scope_of scope.now) (plain_of ty.now)) (plain_of name.now) ++ site (scope_of scope.now) (a_global_name (at_of (plain_of name.now))) ∷ []))) }
{
    note_type(scope, ty, found);
    let named = scope.named_type(ty);
    let own = declarator(scope, &named, name, found, alloc)?;
    note_global(scope, name.at(), found);
    Ok(own)
}

/// The initialiser of a constant of a type, before the constant's name is known.
fn note_initialiser(
    scope: &Scope,
    ty: &Option<HlType>,
    tree: &Tree,
    found: &mut Option<Broken>,
    alloc: Global,
) -> Result<(), NoMemory>
    ensures { OnOk result (found.new ≡ noted found.old (constant_sites (scope_of scope.now) (plain_type_if ty.now) (plain_of tree.now))) }
{
    init(scope, ty, tree, found, alloc)?;
    note_constant_init(scope, tree, found);
    Ok(())
}

/// A constant, behind others. The scope is then that behind it.
pub(crate) fn constant<'a>(
    scope: &mut Scope<'a>,
    ty: &Tree,
    name: &Tree,
    tree: &Tree,
    made: &mut Constants,
    found: &mut Option<Broken>,
    alloc: Global,
) -> Result<(), NoMemory>
    ensures scope { OnOk result (scope_of scope.new ≡ with_constant (scope_of scope.old) (declarator_type (scope_of scope.old) (named_type (scope_of scope.old) (plain_of ty.now)) (plain_of name.now)) (plain_of name.now) (plain_of tree.now)) }
    ensures made { OnOk result (found.new ≡ None → map plain_constant made.new ≡ map plain_constant made.old ++ declared_constant (scope_of scope.old) (named_type (scope_of scope.old) (plain_of ty.now)) (plain_of name.now) (plain_of tree.now) ∷ []) }
    ensures found { OnOk result (found.new ≡ noted found.old (constant_item_sites (scope_of scope.old) (plain_of ty.now) (plain_of name.now) (plain_of tree.now))) }
{
    let own = constant_type(scope, ty, name, found, alloc)?;
    note_initialiser(scope, &own, tree, found, alloc)?;
    let number = constant_value(scope, &own, tree);
    let words = constant_words(scope, &own, tree, found, alloc)?;
    let at = name.at();
    let variable = variable_of(scope, at, &own, alloc)?;
    made.push(Constant { variable, words })?;
    let known = copied_if(&own, alloc)?;
    // The scope holds no words: it knows of a constant what its name says, and how many there are.
    scope.declare_constant(alloc, at, known, number, Sequence::new(alloc))?;
    Ok(())
}
