//! Types and declarators.

ghost use Rattle.std.specs.Prelude.{◌≡◌, ◌==◌, ◌||◌, ◌∷◌, ◌++◌, [], IfOk, OnOk, is_none};
ghost use Rattle.std.specs.Option.{option_copied};
ghost use Rattle.hl_parser.specs.Views.{plain_of, plain_trees};
ghost use Rattle.hl_rules.specs.Constants.{declarator_type, length_if, most_lengths};
ghost use Rattle.hl_rules.specs.DeclarationRules as rules;
ghost use Rattle.hl_rules.specs.Parts.{a_length, a_type_name, site};
ghost use Rattle.hl_rules.specs.Rules.{noted};
ghost use Rattle.hl_rules.specs.Sites.{declarator_sites, lengths_sites, type_sites, value_sites};
ghost use Rattle.hl_values.specs.ScopeViews.{plain_sort, plain_sort_if, scope_of};
ghost use Rattle.hl_values.specs.Views.{plain_type_if};

use crate::expressions::used;
use crate::sizes::{MOST_WORDS, is_more};
use base_core::NoMemory;
use hl_meaning::HlType;
use hl_parser::{Tree, Trees};
use hl_rules::{Broken, note_if};
use hl_values::{Scope, Sort};
use std::alloc::Global;

/// The greatest length of an array, and the greatest number of lengths.
const MOST_LENGTH: u32 = 65536;

const MOST_LENGTHS: usize = 16;

/// Whether it is a struct.
fn is_struct(sort: &Sort) -> bool
    ensures { result ≡ rules.is_struct_sort (plain_sort sort.now) }
{
    match sort {
        Sort::Struct(_) => true,
        Sort::Buffer(_) => false,
        Sort::Variable(_) => false,
        Sort::Function => false,
    }
}

/// Whether a name is declared as another sort than a struct.
fn is_no_struct(sort: Option<&Sort>) -> bool
    ensures { result ≡ rules.is_other_sort rules.is_struct_sort (plain_sort_if (option_copied sort.entry)) }
{
    match sort {
        Some(sort) => !is_struct(sort),
        None => false,
    }
}

/// Notes what the name of a type breaks: it has no declaration, or is no struct's.
fn note_name(scope: &Scope, at: usize, found: &mut Option<Broken>)
    ensures { found.new ≡ noted found.old (site (scope_of scope.now) (a_type_name at) ∷ []) }
{
    let sort = scope.sort_at(at);
    note_if(found, sort.is_none(), at, 3);
    note_if(found, is_no_struct(sort), at, 4);
}

/// Notes what the type of a declaration breaks.
pub(crate) fn note_type(scope: &Scope, tree: &Tree, found: &mut Option<Broken>)
    ensures { found.new ≡ noted found.old (type_sites (scope_of scope.now) (plain_of tree.now)) }
{
    match tree {
        Tree::Type { at, basic } => match basic {
            Some(_) => {}
            None => note_name(scope, *at, found),
        },
        _ => {}
    }
}

/// Whether a constant number is no length of an array.
fn is_no_length(number: Option<u32>) -> bool
    ensures { result ≡ is_none (length_if number) }
{
    match number {
        Some(number) => number < 1 || MOST_LENGTH < number,
        None => true,
    }
}

/// Whether a constant number is no length of an array, or so many lengths before it are all that there may be.
fn is_refused(number: Option<u32>, before: usize) -> bool
    ensures { result ≡ (is_none (length_if number) || before == most_lengths) }
{
    is_no_length(number) || before == MOST_LENGTHS
}

/// A length of an array, with so many lengths before it.
///
/// # Errors
/// `NoMemory` where memory is refused, as in each call below.
fn note_length(
    scope: &Scope,
    before: usize,
    tree: &Tree,
    found: &mut Option<Broken>,
    alloc: Global,
) -> Result<(), NoMemory>
    ensures { OnOk result (found.new ≡ noted found.old (value_sites (scope_of scope.now) (plain_of tree.now) ++ site (scope_of scope.now) (a_length before (plain_of tree.now)) ∷ [])) }
{
    let typed = used(scope, tree, found, alloc)?;
    note_if(found, is_refused(typed.number, before), tree.at(), 6);
    Ok(())
}

/// The lengths of an array.
fn note_lengths(
    scope: &Scope,
    trees: &Trees,
    found: &mut Option<Broken>,
    alloc: Global,
) -> Result<(), NoMemory>
    ensures { OnOk result (found.new ≡ noted found.old (lengths_sites (scope_of scope.now) 0 (plain_trees trees.now))) }
{
    let lengths = trees.as_slice();
    for (before, tree) in lengths.iter().enumerate() {
        note_length(scope, before, tree, found, alloc)?;
    }
    Ok(())
}

/// A declarator of a type: the type that it gives its name.
pub(crate) fn declarator(
    scope: &Scope,
    ty: &Option<HlType>,
    tree: &Tree,
    found: &mut Option<Broken>,
    alloc: Global,
) -> Result<Option<HlType>, NoMemory>
    ensures ty { IfOk result (λ own. plain_type_if own ≡ declarator_type (scope_of scope.now) (plain_type_if ty.now) (plain_of tree.now)) }
    ensures found { OnOk result (found.new ≡ noted found.old (declarator_sites (scope_of scope.now) (plain_type_if ty.now) (plain_of tree.now))) }
{
    match tree {
        Tree::Declarator { at, lengths } => {
            note_lengths(scope, lengths, found, alloc)?;
            let own = scope.declarator_type(alloc, ty, tree)?;
            note_if(found, is_more(MOST_WORDS, scope.words_if(&own)), *at, 42);
            Ok(own)
        }
        _ => Ok(None),
    }
}
