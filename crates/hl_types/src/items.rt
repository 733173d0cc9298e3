//! The items of a program, and what they make of it.

ghost use Rattle.std.specs.Prelude.{◌≡◌, ◌∷◌, [], None, Some, map, option_map, IfOk, OnOk};
ghost use Rattle.hl_lexer.specs.Tokens.{lexeme_of};
ghost use Rattle.hl_meaning.specs.Views.{plain_function};
ghost use Rattle.hl_parser.specs.Views.{plain_of, plain_trees};
ghost use Rattle.hl_rules.specs.Declarations as declarations;
ghost use Rattle.hl_rules.specs.Elaboration as elaboration;
ghost use Rattle.hl_rules.specs.Elaboration.{both_lists, items_program};
ghost use Rattle.hl_rules.specs.Parts.{an_end, site};
ghost use Rattle.hl_rules.specs.Rules.{noted};
ghost use Rattle.hl_rules.specs.Scopes.{first_scope};
ghost use Rattle.hl_rules.specs.Sites.{item_sites, items_sites};
ghost use Rattle.hl_types.specs.Functions.{function_sites};
ghost use Rattle.hl_types.specs.Items.{AreMadeBy, IsMadeBy, entry_threads, first_there, made_of, made_program, plain_parts};
ghost use Rattle.hl_values.specs.ScopeChanges.{outside};
ghost use Rattle.hl_values.specs.ScopeViews.{scope_of};

use crate::buffers::buffer;
use crate::constants::constant;
use crate::functions::function;
use crate::layout::struct_defs;
use crate::shared::shared;
use crate::structs::structure;
use crate::threads::group_threads;
use crate::whole::{is_entry, is_entry_there};
use base_core::{NoMemory, Sequence};
use hl_lexer::Token;
use hl_meaning::{Constants, FunctionDef, FunctionDefs, Resources, StructDefs, Variables};
use hl_parser::{Tree, Trees};
use hl_rules::{Broken, note_if};
use hl_values::Scope;
use std::alloc::Global;

/// What a program is made of.
#[derive(Debug, Drop)]
pub(crate) struct ProgramParts {
    pub structs: StructDefs,
    pub resources: Resources,
    pub shared: Variables,
    pub constants: Constants,
    pub functions: FunctionDefs,
    pub entry: u32,
    pub threads: [u32; 3],
}

/// What items make: buffers, groupshared variables, constants, functions where each becomes one, and the threads of the
/// entry.
#[derive(Drop)]
struct Gathered {
    resources: Resources,
    shared: Variables,
    constants: Constants,
    functions: Option<FunctionDefs>,
    threads: Option<[u32; 3]>,
}

/// The threads that a function's attributes give, where it is the entry.
fn entry_threads(scope: &Scope, name: usize, attributes: &Trees) -> Option<[u32; 3]>
    ensures { result ≡ entry_threads (scope_of scope.now) name (plain_trees attributes.now) }
{
    if is_entry(scope, name) {
        group_threads(scope, attributes.as_slice())
    } else {
        None
    }
}

/// The first threads that are there.
fn first_threads(first: Option<[u32; 3]>, later: Option<[u32; 3]>) -> Option<[u32; 3]>
    ensures { result ≡ first_there first later }
{
    match first {
        Some(threads) => Some(threads),
        None => later,
    }
}

/// One function more, where each becomes one.
fn with_function(
    functions: Option<FunctionDefs>,
    made: Option<FunctionDef>,
) -> Result<Option<FunctionDefs>, NoMemory>
    ensures { IfOk result (λ all. option_map (λ l. map plain_function l) all ≡ both_lists (option_map (λ l. map plain_function l) functions) (option_map (λ f. f ∷ []) (option_map plain_function made))) }
{
    let Some(mut functions) = functions else {
        return Ok(None);
    };
    let Some(made) = made else {
        return Ok(None);
    };
    functions.push(made)?;
    Ok(Some(functions))
}

/// A function among items. The scope is outside of functions, and then that behind it.
///
/// # Errors
/// `NoMemory` where memory is refused, as in each call below.
fn function_item<'a>(
    scope: &mut Scope<'a>,
    attributes: &Trees,
    gives: &Tree,
    name: usize,
    params: &Trees,
    block: &Tree,
    gathered: &mut Gathered,
    found: &mut Option<Broken>,
    alloc: Global,
) -> Result<(), NoMemory>
    requires { outside (scope_of scope.old) ≡ scope_of scope.old }
    ensures functions { OnOk result (option_map (λ l. map plain_function l) gathered.new.functions ≡ both_lists (option_map (λ l. map plain_function l) gathered.old.functions) (option_map (λ f. f ∷ []) (elaboration.function_def (scope_of scope.old) (plain_of gives.now) name (plain_trees params.now) (plain_of block.now)))) }
    ensures threads { OnOk result (gathered.new.threads ≡ first_there gathered.old.threads (entry_threads (scope_of scope.old) name (plain_trees attributes.now))) }
    ensures resources { OnOk result (gathered.new.resources ≡ gathered.old.resources) }
    ensures shared { OnOk result (gathered.new.shared ≡ gathered.old.shared) }
    ensures constants { OnOk result (gathered.new.constants ≡ gathered.old.constants) }
    ensures scope { OnOk result (scope_of scope.new ≡ declarations.with_function (scope_of scope.old) (plain_of gives.now) name (plain_trees params.now)) }
    ensures found { OnOk result (found.new ≡ noted found.old (function_sites (scope_of scope.old) (plain_trees attributes.now) (plain_of gives.now) name (plain_trees params.now) (plain_of block.now))) }
{
    let threads = entry_threads(scope, name, attributes);
    let made = function(
        scope,
        attributes.as_slice(),
        gives,
        name,
        params.as_slice(),
        block,
        found,
        alloc,
    )?;
    gathered.functions = with_function(gathered.functions.take(), made)?;
    gathered.threads = first_threads(gathered.threads, threads);
    Ok(())
}

/// An item. The scope is outside of functions, and then that behind it.
fn item<'a>(
    scope: &mut Scope<'a>,
    tree: &Tree,
    gathered: &mut Gathered,
    found: &mut Option<Broken>,
    alloc: Global,
) -> Result<(), NoMemory>
    requires { outside (scope_of scope.old) ≡ scope_of scope.old }
    ensures made { OnOk result (found.new ≡ None → IsMadeBy (scope_of scope.old) (plain_of tree.now) (made_of gathered.old) (made_of gathered.new)) }
    ensures scope { OnOk result (scope_of scope.new ≡ declarations.after_item (scope_of scope.old) (plain_of tree.now)) }
    ensures found { OnOk result (found.new ≡ noted found.old (item_sites (scope_of scope.old) (plain_of tree.now))) }
{
    match tree {
        Tree::Item { item: inner, .. } => {
            let inner = inner.get();
            item(scope, inner, gathered, found, alloc)?;
            Ok(())
        }
        Tree::Struct { name, members, .. } => {
            structure(scope, *name, members.as_slice(), found, alloc)?;
            Ok(())
        }
        Tree::Buffer {
            kind,
            name,
            register,
            space,
            ..
        } => {
            let kind = kind.get();
            let made = &mut gathered.resources;
            buffer(scope, kind, *name, *register, *space, made, found, alloc)?;
            Ok(())
        }
        Tree::Shared {
            ty,
            declarators,
            ..
        } => {
            let made = &mut gathered.shared;
            shared(scope, ty.get(), declarators, made, found, alloc)?;
            Ok(())
        }
        Tree::Constant {
            ty,
            declarator,
            init,
            ..
        } => {
            let ty = ty.get();
            let declarator = declarator.get();
            let init = init.get();
            let made = &mut gathered.constants;
            constant(scope, ty, declarator, init, made, found, alloc)?;
            Ok(())
        }
        Tree::Function {
            attributes,
            result: gives,
            name,
            params,
            block,
            ..
        } => {
            let gives = gives.get();
            let block = block.get();
            function_item(
                scope, attributes, gives, *name, params, block, gathered, found, alloc,
            )?;
            Ok(())
        }
        _ => Ok(()),
    }
}

/// Notes at the end of a program that no function has the entry's name.
#[tactic(auto, unfolding(hl_values::specs::ScopeViews::scope_of))]
fn note_end(scope: &Scope, found: &mut Option<Broken>)
    ensures { found.new ≡ noted found.old (site (scope_of scope.now) an_end ∷ []) }
{
    note_if(found, !is_entry_there(scope), scope.tokens.len(), 13);
}

/// All items, and the end behind them. The scope is outside of functions, and then that behind them.
fn all_items<'a>(
    scope: &mut Scope<'a>,
    trees: &[Tree],
    gathered: &mut Gathered,
    found: &mut Option<Broken>,
    alloc: Global,
) -> Result<(), NoMemory>
    requires { outside (scope_of scope.old) ≡ scope_of scope.old }
    ensures made { OnOk result (found.new ≡ None → AreMadeBy (scope_of scope.old) (plain_trees trees.now) (made_of gathered.old) (made_of gathered.new)) }
    ensures scope { OnOk result (scope_of scope.new ≡ elaboration.after_items (scope_of scope.old) (plain_trees trees.now)) }
    ensures found { OnOk result (found.new ≡ noted found.old (items_sites (scope_of scope.old) (plain_trees trees.now))) }
{
    for tree in trees {
        item(scope, tree, gathered, found, alloc)?;
    }
    note_end(scope, found);
    Ok(())
}

/// The number of the entry, the first function of its name.
#[tactic(auto, unfolding(hl_values::specs::ScopeViews::scope_of))]
fn entry_number(scope: &Scope) -> Option<usize>
    ensures { result ≡ elaboration.entry_number (scope_of scope.now) }
{
    scope.functions.position(scope.entry)
}

/// What a program is made of, where each function, the entry and its threads are there.
fn program_parts(
    scope: &Scope,
    gathered: Gathered,
    alloc: Global,
) -> Result<Option<ProgramParts>, NoMemory>
    ensures { IfOk result (λ made. option_map plain_parts made ≡ made_program (scope_of scope.now) (made_of gathered)) }
{
    let Gathered {
        resources,
        shared,
        constants,
        functions,
        threads,
    } = gathered;
    let Some(functions) = functions else {
        return Ok(None);
    };
    let Some(entry) = entry_number(scope) else {
        return Ok(None);
    };
    let Some(threads) = threads else {
        return Ok(None);
    };
    let structs = struct_defs(&scope.structs, alloc)?;
    let Ok(entry) = u32::try_from(entry) else {
        return Err(NoMemory);
    };
    Ok(Some(ProgramParts {
        structs,
        resources,
        shared,
        constants,
        functions,
        entry,
        threads,
    }))
}

/// All items of a program with an entry of this name, and its end: what the program is made of, where no rule is broken.
///
/// # Errors
/// `NoMemory` where memory is refused.
pub(crate) fn items<'a>(
    tokens: &'a [Token<'a>],
    entry: &'a [u8],
    trees: &Trees,
    found: &mut Option<Broken>,
    alloc: Global,
) -> Result<Option<ProgramParts>, NoMemory>
    ensures made { IfOk result (λ made. found.new ≡ None → option_map plain_parts made ≡ items_program (first_scope (map lexeme_of tokens.now) entry.now) (plain_trees trees.now)) }
    ensures found { OnOk result (found.new ≡ noted found.old (items_sites (first_scope (map lexeme_of tokens.now) entry.now) (plain_trees trees.now))) }
{
    let mut scope = Scope::new(alloc, tokens, entry);
    let mut gathered = Gathered {
        resources: Sequence::new(alloc),
        shared: Sequence::new(alloc),
        constants: Sequence::new(alloc),
        functions: Some(Sequence::new(alloc)),
        threads: None,
    };
    all_items(&mut scope, trees.as_slice(), &mut gathered, found, alloc)?;
    if found.is_some() {
        return Ok(None);
    }
    let made = program_parts(&scope, gathered, alloc)?;
    Ok(made)
}
