//! Structs (HLSL, "Structures").

ghost use Rattle.std.specs.Prelude.{◌≡◌, ◌++◌, ◌∷◌, [], map, OnOk, IfOk};
ghost use Rattle.hl_parser.specs.Trees.{at_of, more_trees, no_trees};
ghost use Rattle.hl_parser.specs.Views.{plain_of, plain_trees};
ghost use Rattle.hl_rules.specs.Constants.{declarator_type};
ghost use Rattle.hl_rules.specs.Declarations.{declarators_info, member_info, members_info};
ghost use Rattle.hl_rules.specs.Parts.{a_member_name, site};
ghost use Rattle.hl_rules.specs.Rules.{noted};
ghost use Rattle.hl_rules.specs.Scopes.{spelled};
ghost use Rattle.hl_rules.specs.Sites.{declarator_sites, declarators_sites, members_sites};
ghost use Rattle.hl_types.specs.Items.{struct_sites};
ghost use Rattle.hl_values.specs.ScopeChanges.{with_struct_named};
ghost use Rattle.hl_values.specs.ScopeViews.{scope_of};
ghost use Rattle.hl_values.specs.StructTables.{plain_member};
ghost use Rattle.hl_values.specs.Views.{plain_type_if};

use crate::declarators::{declarator, note_type};
use crate::shared::note_global;
use crate::sizes::{MOST_WORDS, is_more};
use base_core::NoMemory;
use hl_meaning::HlType;
use hl_parser::Tree;
use hl_rules::{Broken, note_if};
use hl_values::{MemberTable, NameTable, Scope};
use std::alloc::Global;

/// A member of a type, behind others.
fn note_member<'a>(
    scope: &Scope<'a>,
    ty: &Option<HlType>,
    tree: &Tree,
    members: &mut MemberTable<'a>,
    found: &mut Option<Broken>,
    alloc: Global,
) -> Result<(), NoMemory>
    ensures members { OnOk result (map plain_member members.new ≡ map plain_member members.old ++ record { name = spelled (scope_of scope.now) (at_of (plain_of tree.now)); ty = declarator_type (scope_of scope.now) (plain_type_if ty.now) (plain_of tree.now) } ∷ []) }
    ensures found { OnOk result (found.new ≡ noted found.old (declarator_sites (scope_of scope.now) (plain_type_if ty.now) (plain_of tree.now) ++ site (scope_of scope.now) (a_member_name (map plain_member members.old) (at_of (plain_of tree.now))) ∷ [])) }
{
    let own = declarator(scope, ty, tree, found, alloc)?;
    let name = scope.text_at(tree.at());
    note_if(found, members.position(name).is_some(), tree.at(), 5);
    members.push(name, own)?;
    Ok(())
}

/// Members of one type, behind others.
fn note_declarators<'a>(
    scope: &Scope<'a>,
    ty: &Option<HlType>,
    declarators: &[Tree],
    members: &mut MemberTable<'a>,
    found: &mut Option<Broken>,
    alloc: Global,
) -> Result<(), NoMemory>
    ensures members { OnOk result (map plain_member members.new ≡ map plain_member members.old ++ declarators_info (scope_of scope.now) (plain_type_if ty.now) (plain_trees declarators.now)) }
    ensures found { OnOk result (found.new ≡ noted found.old (declarators_sites (scope_of scope.now) (plain_type_if ty.now) (map plain_member members.old) (plain_trees declarators.now))) }
{
    for tree in declarators {
        note_member(scope, ty, tree, members, found, alloc)?;
    }
    Ok(())
}

/// Members of one tree, behind others.
fn note_tree<'a>(
    scope: &Scope<'a>,
    tree: &Tree,
    members: &mut MemberTable<'a>,
    found: &mut Option<Broken>,
    alloc: Global,
) -> Result<(), NoMemory>
    ensures members { OnOk result (map plain_member members.new ≡ map plain_member members.old ++ member_info (scope_of scope.now) (plain_of tree.now)) }
    ensures found { OnOk result (found.new ≡ noted found.old (members_sites (scope_of scope.now) (map plain_member members.old) (more_trees (plain_of tree.now) no_trees))) }
{
    match tree {
        Tree::Member {
            ty,
            declarators,
            ..
        } => {
            note_type(scope, ty.get(), found);
            let named = scope.named_type(ty.get());
            note_declarators(scope, &named, declarators.as_slice(), members, found, alloc)?;
            Ok(())
        }
        _ => Ok(()),
    }
}

/// The members of a struct.
///
/// # Errors
/// `NoMemory` where memory is refused.
pub(crate) fn members_of<'a>(
    scope: &Scope<'a>,
    trees: &[Tree],
    found: &mut Option<Broken>,
    alloc: Global,
) -> Result<MemberTable<'a>, NoMemory>
    ensures members { IfOk result (λ members. map plain_member members ≡ members_info (scope_of scope.now) (plain_trees trees.now)) }
    ensures found { OnOk result (found.new ≡ noted found.old (members_sites (scope_of scope.now) [] (plain_trees trees.now))) }
{
    let mut members = NameTable::new(alloc);
    for tree in trees {
        note_tree(scope, tree, &mut members, found, alloc)?;
    }
    Ok(members)
}

/// A struct. The scope is then that behind it.
pub(crate) fn structure<'a>(
    scope: &mut Scope<'a>,
    name: usize,
    trees: &[Tree],
    found: &mut Option<Broken>,
    alloc: Global,
) -> Result<(), NoMemory>
    ensures scope { OnOk result (scope_of scope.new ≡ with_struct_named name (members_info (scope_of scope.old) (plain_trees trees.now)) (scope_of scope.old)) }
    ensures found { OnOk result (found.new ≡ noted found.old (struct_sites (scope_of scope.old) name (plain_trees trees.now))) }
{
    let members = members_of(scope, trees, found, alloc)?;
    note_global(scope, name, found);
    let number = scope.structs.len();
    scope.declare_struct(name, members)?;
    let words = scope.structs.words(number);
    note_if(found, is_more(MOST_WORDS, words), name, 42);
    Ok(())
}
