//! Initialisers in braces (HLSL, "Aggregate Initialization").

ghost use Rattle.std.specs.Prelude.{◌≡◌, ◌∷◌, ◌++◌, ◌||◌, [], IfOk, OnOk, length, map, option_and_then, option_map};
ghost use Rattle.std.specs.List.{list_any};
ghost use Rattle.hl_meaning.specs.Trees.{an_expr, build_form};
ghost use Rattle.hl_meaning.specs.Views.{plain_expr, plain_exprs, plain_ty};
ghost use Rattle.hl_parser.specs.Trees.{absent, an_init};
ghost use Rattle.hl_parser.specs.Views.{plain_of, plain_trees};
ghost use Rattle.hl_rules.specs.DeclarationRules as rules;
ghost use Rattle.hl_rules.specs.DeclarationRules.{leaves_among, leaves_of};
ghost use Rattle.hl_rules.specs.Expressions.{code_of};
ghost use Rattle.hl_rules.specs.Found.{breaking, broken_if, gathered};
ghost use Rattle.hl_rules.specs.Rules.{noted};
ghost use Rattle.hl_rules.specs.Scopes.{type_words, words_if};
ghost use Rattle.hl_rules.specs.Sites.{init_sites, leaf_sites, leaves_sites};
ghost use Rattle.hl_rules.specs.Statements.{init_code};
ghost use Rattle.hl_types.specs.Kinds.{type_kinds};
ghost use Rattle.hl_types.specs.Leaves as spec;
ghost use Rattle.hl_types.specs.Leaves.{is_other_leaf, leaf_in, leaves_in};
ghost use Rattle.hl_types.specs.Walks.{made_expr};
ghost use Rattle.hl_values.specs.ScopeViews.{scope_of};
ghost use Rattle.hl_values.specs.StructTables.{plain_structs};
ghost use Rattle.hl_values.specs.Views.{plain_code_if, plain_type_if};

use crate::expressions::used;
use crate::kinds::{is_other, kinds_if};
use crate::types::is_no_scalar;
use base_core::NoMemory;
use hl_meaning::{Expr, Exprs, Form, HlType, Kind};
use hl_parser::{Tree, Trees};
use hl_rules::{Broken, note_if};
use hl_values::{Code, Scope, Structs, Typed, converted_code, node};
use sqlite_items::{Boxed, Items};
use std::alloc::Global;

/// The expressions in an initialiser: what each becomes, and whether one is known to be a value other than a scalar.
#[derive(Drop)]
struct Leaves {
    codes: Vec<Option<Code>>,
    has_other: bool,
}

impl Leaves {
    /// Adds an expression.
    fn push(&mut self, typed: Typed) -> Result<(), NoMemory>
        ensures codes { OnOk result (map plain_code_if self.new.codes.items ≡ map plain_code_if self.old.codes.items ++ plain_code_if typed.code ∷ []) }
        ensures other { OnOk result (self.new.has_other ≡ (self.old.has_other || spec.is_other_type (plain_type_if typed.ty))) }
    {
        self.has_other = self.has_other || is_no_scalar(&typed.ty);
        self.codes.push(typed.code)?;
        Ok(())
    }
}

/// The expressions in an initialiser, which are all used.
///
/// # Errors
/// `NoMemory` where memory is refused, as in each call below.
#[cycle(leaves)]
fn note_leaf(
    scope: &Scope,
    tree: &Tree,
    leaves: &mut Leaves,
    found: &mut Option<Broken>,
    alloc: Global,
) -> Result<(), NoMemory>
    ensures codes { OnOk result (map plain_code_if leaves.new.codes.items ≡ map plain_code_if leaves.old.codes.items ++ map (code_of (scope_of scope.now)) (leaves_of (plain_of tree.now))) }
    ensures other { OnOk result (leaves.new.has_other ≡ (leaves.old.has_other || list_any (is_other_leaf (scope_of scope.now)) (leaves_of (plain_of tree.now)))) }
    ensures found { OnOk result (found.new ≡ noted found.old (leaf_sites (scope_of scope.now) (plain_of tree.now))) }
{
    match tree {
        Tree::Init { value, parts, .. } => match value {
            Some(value) => {
                let typed = used(scope, value.get(), found, alloc)?;
                leaves.push(typed)
            }
            None => note_leaves(scope, parts, leaves, found, alloc),
        },
        _ => Ok(()),
    }
}

/// The expressions in several initialisers.
#[cycle(leaves)]
fn note_leaves(
    scope: &Scope,
    trees: &Trees,
    leaves: &mut Leaves,
    found: &mut Option<Broken>,
    alloc: Global,
) -> Result<(), NoMemory>
    ensures codes { OnOk result (map plain_code_if leaves.new.codes.items ≡ map plain_code_if leaves.old.codes.items ++ map (code_of (scope_of scope.now)) (leaves_among (plain_trees trees.now))) }
    ensures other { OnOk result (leaves.new.has_other ≡ (leaves.old.has_other || list_any (is_other_leaf (scope_of scope.now)) (leaves_among (plain_trees trees.now)))) }
    ensures found { OnOk result (found.new ≡ noted found.old (leaves_sites (scope_of scope.now) (plain_trees trees.now))) }
{
    for tree in trees.as_slice() {
        note_leaf(scope, tree, leaves, found, alloc)?;
    }
    Ok(())
}

/// What a leaf becomes as a scalar of a kind.
fn leaf_in(kind: Kind, code: Option<Code>, alloc: Global) -> Result<Option<Boxed<Expr>>, NoMemory>
    ensures { IfOk result (λ made. option_map plain_expr made ≡ leaf_in kind (plain_code_if code)) }
{
    match code {
        Some(code) => converted_code(&HlType::Scalar(kind), code, alloc),
        None => Ok(None),
    }
}

/// Each leaf as a scalar of its own kind, where there are as many kinds and all convert.
fn leaves_in(
    kinds: &[Kind],
    codes: Vec<Option<Code>>,
    alloc: Global,
) -> Result<Option<Exprs>, NoMemory>
    ensures { IfOk result (λ made. option_map plain_exprs made ≡ leaves_in kinds.now (map plain_code_if codes.items)) }
{
    let mut exprs = Items::new(alloc);
    let mut rest = codes.into_iter();
    for kind in kinds {
        let Some(code) = rest.next() else {
            return Ok(None);
        };
        let Some(expr) = leaf_in(*kind, code, alloc)? else {
            return Ok(None);
        };
        exprs.push(expr.into_inner())?;
    }
    match rest.next() {
        Some(_) => Ok(None),
        None => Ok(Some(exprs)),
    }
}

/// A value of a type that is built of leaves, where there are as many as words and each becomes a scalar of its kind.
fn built(
    structs: &Structs,
    ty: &HlType,
    at: usize,
    codes: Vec<Option<Code>>,
    alloc: Global,
) -> Result<Option<Expr>, NoMemory>
    ensures { IfOk result (λ made. made_expr made ≡ option_map (λ leaves. an_expr (plain_ty ty.now) at (build_form leaves)) (leaves_in (type_kinds structs.now (plain_ty ty.now)) (map plain_code_if codes.items))) }
{
    let Some(kinds) = kinds_if(structs, ty, codes.len(), alloc)? else {
        return Ok(None);
    };
    let Some(parts) = leaves_in(kinds.as_slice(), codes, alloc)? else {
        return Ok(None);
    };
    let ty = ty.copied(alloc)?;
    Ok(Some(node(ty, at, Form::Build(parts))))
}

/// Such a value of a type whose words are known.
fn built_if(
    structs: &Structs,
    ty: &HlType,
    at: usize,
    codes: Vec<Option<Code>>,
    alloc: Global,
) -> Result<Option<Expr>, NoMemory>
    ensures { IfOk result (λ made. made_expr made ≡ option_and_then (λ words. option_map (λ leaves. an_expr (plain_ty ty.now) at (build_form leaves)) (leaves_in (type_kinds structs.now (plain_ty ty.now)) (map plain_code_if codes.items))) (type_words (plain_structs structs.now) (plain_ty ty.now))) }
{
    match structs.type_words(ty) {
        Some(_) => built(structs, ty, at, codes, alloc),
        None => Ok(None),
    }
}

/// Notes leaves that aren't as many as the words of a type, or aren't scalars.
fn note_count(
    scope: &Scope,
    ty: &Option<HlType>,
    at: usize,
    leaves: &Leaves,
    found: &mut Option<Broken>,
)
    ensures { found.new ≡ gathered found.old (breaking 10 (broken_if (rules.is_other (length leaves.now.codes.items) (words_if (scope_of scope.now).structs (plain_type_if ty.now)) || leaves.now.has_other) at)) }
{
    let words = scope.words_if(ty);
    let broken = is_other(leaves.codes.len(), words) || leaves.has_other;
    note_if(found, broken, at, 10);
}

/// An initialiser in braces, of a type.
///
/// # Errors
/// `NoMemory` where memory is refused, as in each call below.
pub(crate) fn brace_init(
    scope: &Scope,
    ty: &Option<HlType>,
    at: usize,
    parts: &Trees,
    found: &mut Option<Broken>,
    alloc: Global,
) -> Result<Option<Expr>, NoMemory>
    ensures code { IfOk result (λ made. made_expr made ≡ option_and_then (λ own. init_code (scope_of scope.now) own (an_init at absent (plain_trees parts.now))) (plain_type_if ty.now)) }
    ensures found { OnOk result (found.new ≡ noted found.old (init_sites (scope_of scope.now) (plain_type_if ty.now) (an_init at absent (plain_trees parts.now)))) }
{
    let mut leaves = Leaves {
        codes: Vec::new(alloc),
        has_other: false,
    };
    note_leaves(scope, parts, &mut leaves, found, alloc)?;
    note_count(scope, ty, at, &leaves, found);
    match ty {
        Some(ty) => built_if(&scope.structs, ty, at, leaves.codes, alloc),
        None => Ok(None),
    }
}
