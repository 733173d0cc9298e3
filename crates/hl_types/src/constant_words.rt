//! Initialisers of constants (HLSL, "Initializers"): which they may be, and the words that they give.

ghost use Rattle.std.specs.Prelude.{◌≡◌, ◌∷◌, ◌++◌, ◌&&◌, ◌||◌, [], is_some, IfOk, None, OnOk, Some, Option, length, map, option_and_then, option_map, unwrap_or};
ghost use Rattle.hl_parser.specs.Views.{plain_of, plain_trees};
ghost use Rattle.hl_rules.specs.Constants.{constant_number};
ghost use Rattle.hl_rules.specs.DeclarationRules as rules;
ghost use Rattle.hl_rules.specs.DeclarationRules.{leaves_among, leaves_of};
ghost use Rattle.hl_rules.specs.Declarations as declarations;
ghost use Rattle.hl_rules.specs.Elaboration as elaboration;
ghost use Rattle.hl_rules.specs.Parts.{a_constant_init, site};
ghost use Rattle.hl_rules.specs.Rules.{noted};
ghost use Rattle.hl_rules.specs.Source.{terminal_at};
ghost use Rattle.hl_rules.specs.Statements.{struct_defs};
ghost use Rattle.hl_meaning.specs.Layout as layout;
ghost use Rattle.hl_meaning.specs.Types.{scalar_type};
ghost use Rattle.hl_meaning.specs.Views.{plain_ty};
ghost use Rattle.hl_types.specs.Kinds.{type_kinds};
ghost use Rattle.hl_types.specs.Leaves.{words_in_kinds};
ghost use Rattle.hl_values.specs.ScopeViews.{scope_of};
ghost use Rattle.hl_values.specs.Views.{plain_type_if};

use crate::kinds::{kinds_if, kinds_of};
use base_core::{NoMemory, Sequence, Words};
use hl_lexer::Terminal;
use hl_meaning::{HlType, Kind};
use hl_parser::{Tree, Trees};
use hl_rules::{Broken, note_if};
use hl_values::{Scope, Structs};
use std::alloc::Global;

/// Whether a word is a truth value.
fn is_truth_word(word: Terminal) -> bool
    ensures { result ≡ rules.is_truth_word word }
{
    match word {
        Terminal::True => true,
        Terminal::False => true,
        _ => false,
    }
}

/// Whether a mark is `-`.
fn is_minus(mark: Terminal) -> bool
    ensures { result ≡ rules.is_minus mark }
{
    match mark {
        Terminal::Minus => true,
        _ => false,
    }
}

/// Whether a mark and its operand are `-` and a constant number.
fn is_negative(scope: &Scope, mark: usize, operand: &Tree) -> bool
    ensures { result ≡ (rules.is_minus (terminal_at (scope_of scope.now).tokens mark) && is_some (constant_number (scope_of scope.now) (plain_of operand.now))) }
{
    is_minus(scope.terminal_at(mark)) && scope.constant_number(operand).is_some()
}

/// Whether an expression is a truth value, or `-` before a constant number.
fn is_signed_or_truth(scope: &Scope, tree: &Tree) -> bool
    ensures { result ≡ rules.is_signed_or_truth (scope_of scope.now) (plain_of tree.now) }
{
    match tree {
        Tree::Primary {
            at,
            part,
            arguments,
        } => match part {
            Some(_) => false,
            None => match arguments {
                Some(_) => false,
                None => is_truth_word(scope.terminal_at(*at)),
            },
        },
        Tree::Unary { at, cast, operand } => match cast {
            Some(_) => false,
            None => is_negative(scope, *at, operand.get()),
        },
        _ => false,
    }
}

/// Whether an expression is a constant number, `-` before one, or a truth value.
fn is_constant_leaf(scope: &Scope, tree: &Tree) -> bool
    ensures { result ≡ (is_some (constant_number (scope_of scope.now) (plain_of tree.now)) || rules.is_signed_or_truth (scope_of scope.now) (plain_of tree.now)) }
{
    scope.constant_number(tree).is_some() || is_signed_or_truth(scope, tree)
}

/// Whether an initialiser holds constant numbers, `-` before one, truth values and braces alone.
#[cycle(constant_inits)]
fn is_constant_init(scope: &Scope, tree: &Tree) -> bool
    ensures { result ≡ rules.is_constant_init (scope_of scope.now) (plain_of tree.now) }
{
    match tree {
        Tree::Init { value, parts, .. } => match value {
            Some(value) => is_constant_leaf(scope, value.get()),
            None => are_constant_inits(scope, parts),
        },
        _ => false,
    }
}

/// Whether each of several initialisers is such a one.
#[cycle(constant_inits)]
fn are_constant_inits(scope: &Scope, trees: &Trees) -> bool
    ensures { result ≡ rules.are_constant_inits (scope_of scope.now) (plain_trees trees.now) }
{
    for tree in trees.as_slice() {
        if !is_constant_init(scope, tree) {
            return false;
        }
    }
    true
}

/// Notes a constant's initialiser that isn't one of constants.
pub(crate) fn note_constant_init(scope: &Scope, tree: &Tree, found: &mut Option<Broken>)
    ensures { found.new ≡ noted found.old (site (scope_of scope.now) (a_constant_init (plain_of tree.now)) ∷ []) }
{
    note_if(found, !is_constant_init(scope, tree), tree.at(), 9);
}

/// Whether a type is known, and is int or uint.
fn is_number_type(ty: &Option<HlType>) -> bool
    ensures { result ≡ declarations.is_number_type (plain_type_if ty.now) }
{
    match ty {
        Some(ty) => is_number(ty),
        None => false,
    }
}

/// Whether a kind is int or uint.
fn is_number_kind(kind: Kind) -> bool
    ensures { result ≡ declarations.is_number_type (Some (scalar_type kind)) }
{
    match kind {
        Kind::Bool => false,
        Kind::Int => true,
        Kind::Uint => true,
    }
}

/// Whether a type is int or uint.
fn is_number(ty: &HlType) -> bool
    ensures { result ≡ declarations.is_number_type (Some (plain_ty ty.now)) }
{
    match ty {
        HlType::Void => false,
        HlType::Scalar(kind) => is_number_kind(*kind),
        HlType::Vector(_, _) => false,
        HlType::Array(_, _) => false,
        HlType::Struct(_) => false,
    }
}

/// The constant number that an initialiser is; one in braces is none.
fn init_number(scope: &Scope, tree: &Tree) -> Option<u32>
    ensures { result ≡ declarations.init_number (scope_of scope.now) (plain_of tree.now) }
{
    match tree {
        Tree::Init { value, .. } => match value {
            Some(value) => scope.constant_number(value.get()),
            None => None,
        },
        _ => None,
    }
}

/// The constant number that the name of a constant of a type is, by its initialiser.
pub(crate) fn constant_value(scope: &Scope, ty: &Option<HlType>, tree: &Tree) -> Option<u32>
    ensures { result ≡ declarations.constant_value (scope_of scope.now) (plain_type_if ty.now) (plain_of tree.now) }
{
    if is_number_type(ty) {
        init_number(scope, tree)
    } else {
        None
    }
}

/// The word of a truth value.
fn truth_word(word: Terminal) -> Option<u32>
    ensures { result ≡ elaboration.truth_word word }
{
    match word {
        Terminal::True => Some(1),
        Terminal::False => Some(0),
        _ => None,
    }
}

/// A number below zero, by its bits.
fn negative(number: u32) -> u32
    ensures { result ≡ elaboration.negative number }
{
    0u32.wrapping_sub(number)
}

/// The word of a number below zero, where it is there.
fn negative_if(number: Option<u32>) -> Option<u32>
    ensures { result ≡ option_map elaboration.negative number }
{
    match number {
        Some(number) => Some(negative(number)),
        None => None,
    }
}

/// The word of an expression that is no constant number: of a number below zero, or a truth value.
fn signed_or_truth(scope: &Scope, tree: &Tree) -> Option<u32>
    ensures { result ≡ elaboration.signed_or_truth (scope_of scope.now) (plain_of tree.now) }
{
    match tree {
        Tree::Primary {
            at,
            part,
            arguments,
        } => match part {
            Some(_) => None,
            None => match arguments {
                Some(_) => None,
                None => truth_word(scope.terminal_at(*at)),
            },
        },
        Tree::Unary { cast, operand, .. } => match cast {
            Some(_) => None,
            None => negative_if(scope.constant_number(operand.get())),
        },
        _ => None,
    }
}

/// The word of an expression in a constant's initialiser.
fn leaf_word(scope: &Scope, tree: &Tree) -> Option<u32>
    ensures { result ≡ elaboration.leaf_word (scope_of scope.now) (plain_of tree.now) }
{
    match scope.constant_number(tree) {
        Some(number) => Some(number),
        None => signed_or_truth(scope, tree),
    }
}

/// A word in a kind: a bool is whether it differs from 0.
fn word_in(kind: Kind, word: u32) -> u32
    ensures { result ≡ elaboration.word_in kind word }
{
    match kind {
        Kind::Bool => { if word == 0 { 0 } else { 1 } }
        Kind::Int => word,
        Kind::Uint => word,
    }
}

/// Adds the words of the expressions in an initialiser, where each has one.
///
/// # Errors
/// `NoMemory` where memory is refused.
#[cycle(leaf_words)]
fn add_words(scope: &Scope, tree: &Tree, words: &mut Sequence<Option<u32>>) -> Result<(), NoMemory>
    ensures { OnOk result (words.new ≡ words.old ++ map (elaboration.leaf_word (scope_of scope.now)) (leaves_of (plain_of tree.now))) }
{
    match tree {
        Tree::Init { value, parts, .. } => match value {
            Some(value) => words.push(leaf_word(scope, value.get())),
            None => add_all_words(scope, parts, words),
        },
        _ => Ok(()),
    }
}

/// Adds those of the expressions in several initialisers.
#[cycle(leaf_words)]
fn add_all_words(
    scope: &Scope,
    trees: &Trees,
    words: &mut Sequence<Option<u32>>,
) -> Result<(), NoMemory>
    ensures { OnOk result (words.new ≡ words.old ++ map (elaboration.leaf_word (scope_of scope.now)) (leaves_among (plain_trees trees.now))) }
{
    for tree in trees.as_slice() {
        add_words(scope, tree, words)?;
    }
    Ok(())
}

/// One word in each of several kinds.
fn filled(kinds: &[Kind], word: u32, alloc: Global) -> Result<Words, NoMemory>
    ensures { IfOk result (λ words. words ≡ map (λ kind. elaboration.word_in kind word) kinds.now) }
{
    let mut words = Sequence::new(alloc);
    for kind in kinds {
        words.push(word_in(*kind, word))?;
    }
    Ok(words)
}

/// Words each in its own kind, where all are there.
fn words_in_kinds(
    kinds: &[Kind],
    words: &[Option<u32>],
    alloc: Global,
) -> Result<Option<Words>, NoMemory>
    requires { length kinds.now ≡ length words.now }
    ensures { IfOk result (λ made. made ≡ words_in_kinds kinds.now words.now) }
{
    let mut made = Sequence::new(alloc);
    for at in 0..kinds.len() {
        match words[at] {
            Some(word) => made.push(word_in(kinds[at], word))?,
            None => return Ok(None),
        }
    }
    Ok(Some(made))
}

/// The words of an initialiser in braces of a type, where it has as many as the type and each is there.
fn brace_words(
    scope: &Scope,
    ty: &HlType,
    tree: &Tree,
    alloc: Global,
) -> Result<Option<Words>, NoMemory>
    ensures { IfOk result (λ made. made ≡ elaboration.leaf_words (scope_of scope.now) (type_kinds scope.now.structs (plain_ty ty.now)) (leaves_of (plain_of tree.now))) }
{
    let mut words = Sequence::new(alloc);
    add_words(scope, tree, &mut words)?;
    let Some(kinds) = kinds_if(&scope.structs, ty, words.len(), alloc)? else {
        return Ok(None);
    };
    words_in_kinds(kinds.as_slice(), words.as_slice(), alloc)
}

/// The words of an expression of a type, which fills all of them, where it has one.
fn value_words(
    scope: &Scope,
    ty: &HlType,
    value: &Tree,
    alloc: Global,
) -> Result<Option<Words>, NoMemory>
    ensures { IfOk result (λ made. made ≡ option_map (λ word. map (λ kind. elaboration.word_in kind word) (type_kinds scope.now.structs (plain_ty ty.now))) (elaboration.leaf_word (scope_of scope.now) (plain_of value.now))) }
{
    let Some(word) = leaf_word(scope, value) else {
        return Ok(None);
    };
    let kinds = kinds_of(&scope.structs, ty, alloc)?;
    Ok(Some(filled(kinds.as_slice(), word, alloc)?))
}

/// The words of an initialiser of a type, where it has them.
fn init_words(
    scope: &Scope,
    ty: &HlType,
    tree: &Tree,
    alloc: Global,
) -> Result<Option<Words>, NoMemory>
    ensures { IfOk result (λ made. made ≡ elaboration.init_words (scope_of scope.now) (type_kinds scope.now.structs (plain_ty ty.now)) (plain_of tree.now)) }
{
    match tree {
        Tree::Init { value, .. } => match value {
            Some(value) => value_words(scope, ty, value.get(), alloc),
            None => brace_words(scope, ty, tree, alloc),
        },
        _ => brace_words(scope, ty, tree, alloc),
    }
}

/// The words of a constant of a type, by its initialiser and the scope before its name, where no broken rule was found
/// so far. There are no words where the type isn't known or the initialiser doesn't give them.
///
/// # Errors
/// `NoMemory` where memory is refused.
pub(crate) fn constant_words(
    scope: &Scope,
    ty: &Option<HlType>,
    tree: &Tree,
    found: &Option<Broken>,
    alloc: Global,
) -> Result<Words, NoMemory>
    ensures { IfOk result (λ words. found.now ≡ None → words ≡ unwrap_or (option_and_then (λ own. elaboration.init_words (scope_of scope.now) (layout.kinds_of (struct_defs (scope_of scope.now).structs) own) (plain_of tree.now)) (plain_type_if ty.now)) []) }
{
    // Where a rule is broken a type may have more words than memory holds, and no program is made.
    if found.is_some() {
        return Ok(Sequence::new(alloc));
    }
    let Some(ty) = ty else {
        return Ok(Sequence::new(alloc));
    };
    match init_words(scope, ty, tree, alloc)? {
        Some(words) => Ok(words),
        None => Ok(Sequence::new(alloc)),
    }
}
