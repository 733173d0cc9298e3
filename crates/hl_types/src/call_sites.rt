//! Calls, once their arguments are walked (HLSL, "Function Calls"; DirectX HLSL, "Intrinsic Functions").

ghost use Rattle.std.specs.Prelude.{◌≡◌, ◌&&◌, IfOk, None, OnOk, Option, Some, is_none, is_some, map, not, option_and_then, option_map};
ghost use Rattle.hl_overload.specs.Views.{plain_params};
ghost use Rattle.hl_parser.specs.Trees.{a_primary, absent, present};
ghost use Rattle.hl_parser.specs.Views.{plain_of, plain_trees};
ghost use Rattle.hl_rules.specs.declared.found.Broken.{Broken as BrokenRule};
ghost use Rattle.hl_rules.specs.ExpressionRules.{argument_trees, is_itself, is_no_target, untargeted, unwritable_arguments};
ghost use Rattle.hl_rules.specs.Expressions.{function_code, intrinsic_code};
ghost use Rattle.hl_rules.specs.Found.{breaking, gathered};
ghost use Rattle.hl_rules.specs.Rules.{noted};
ghost use Rattle.hl_rules.specs.Scopes as scopes;
ghost use Rattle.hl_rules.specs.Sites.{argument_sites, expression_sites};
ghost use Rattle.hl_rules.specs.Values as values;
ghost use Rattle.hl_rules.specs.Values.{argument_types, is_known, is_word, valued, values_of};
ghost use Rattle.hl_types.specs.Arguments.{AreTyped};
ghost use Rattle.hl_types.specs.Calls.{call_known, call_noted, callee_known, callee_noted, fault_noted, function_known, function_noted, intrinsic_known, intrinsic_noted, is_unwritable_for, target_noted};
ghost use Rattle.hl_values.specs.Arguments.{plain_codes};
ghost use Rattle.hl_values.specs.Calls.{plain_callee};
ghost use Rattle.hl_values.specs.Known.{known_value, plain_known};
ghost use Rattle.hl_values.specs.ScopeViews.{plain_sort, scope_of};
ghost use Rattle.hl_values.specs.TypedViews.{IsTyped};
ghost use Rattle.hl_values.specs.Views.{plain_code, plain_code_if, plain_standing, plain_type_if, plain_value};

use crate::arguments::{behind, codes_of, refused, trees_in};
use crate::whole::is_entry_name;
use base_core::{NoMemory, Sequence};
use hl_meaning::{Copying, HlType};
use hl_overload::{ChoiceFault, Param};
use hl_parser::Tree;
use hl_rules::{Broken, note_if};
use hl_values::{
    Callee, Choice, Code, Scope, Sort, Standing, Typed, choice_of_call, function_code,
    function_result, have_types, interlocked_form, intrinsic_code, intrinsic_named, intrinsic_type,
    is_word, value, valued,
};
use std::alloc::Global;

/// A call, behind the sites of its arguments.
///
/// # Errors
/// `NoMemory` where memory is refused.
pub(crate) fn whole_call(
    scope: &Scope,
    at: usize,
    arguments: &Tree,
    args: Sequence<Typed>,
    found: &mut Option<Broken>,
    alloc: Global,
) -> Result<Typed, NoMemory>
    requires { AreTyped (scope_of scope.now) (argument_trees (plain_of arguments.now)) args }
    ensures typed { IfOk result (λ t. IsTyped (scope_of scope.now) (a_primary at absent (present (plain_of arguments.now))) t) }
    ensures found { OnOk result ((f : Option BrokenRule) → found.old ≡ noted f (argument_sites (scope_of scope.now) (plain_of arguments.now)) → found.new ≡ noted f (expression_sites (scope_of scope.now) (a_primary at absent (present (plain_of arguments.now))))) }
{
    let trees = trees_in(arguments);
    let typed = called(scope, at, trees, args, found, alloc)?;
    Ok(behind(arguments, typed))
}

/// A call, once its arguments are walked.
fn called(
    scope: &Scope,
    at: usize,
    trees: &[Tree],
    args: Sequence<Typed>,
    found: &mut Option<Broken>,
    alloc: Global,
) -> Result<Typed, NoMemory>
    requires { values_of (scope_of scope.now) (plain_trees trees.now) ≡ map plain_value args }
    ensures typed { IfOk result (λ t. plain_known t ≡ call_known (scope_of scope.now) at (scopes.sort_at (scope_of scope.now) at) (map plain_value args) (plain_codes args)) }
    ensures found { OnOk result (found.new ≡ call_noted found.old (scope_of scope.now) at (plain_trees trees.now) (map plain_value args) (scopes.sort_at (scope_of scope.now) at)) }
{
    match scope.sort_at(at) {
        None => undeclared_called(scope, at, trees, args, found, alloc),
        Some(sort) => sort_called(scope, at, sort, trees, args, found, alloc),
    }
}

/// A call of a name of a sort.
fn sort_called(
    scope: &Scope,
    at: usize,
    sort: &Sort,
    trees: &[Tree],
    args: Sequence<Typed>,
    found: &mut Option<Broken>,
    alloc: Global,
) -> Result<Typed, NoMemory>
    requires { values_of (scope_of scope.now) (plain_trees trees.now) ≡ map plain_value args }
    ensures typed { IfOk result (λ t. plain_known t ≡ call_known (scope_of scope.now) at (Some (plain_sort sort.now)) (map plain_value args) (plain_codes args)) }
    ensures found { OnOk result (found.new ≡ call_noted found.old (scope_of scope.now) at (plain_trees trees.now) (map plain_value args) (Some (plain_sort sort.now))) }
{
    match sort {
        Sort::Function => function_called(scope, at, trees, args, found, alloc),
        Sort::Struct(_) => Ok(refused(at, 4, found)),
        Sort::Buffer(_) => Ok(refused(at, 4, found)),
        Sort::Variable(_) => Ok(refused(at, 4, found)),
    }
}

// ---- intrinsic functions

/// A call of a name that isn't declared: of an intrinsic function, if it is one's.
fn undeclared_called(
    scope: &Scope,
    at: usize,
    trees: &[Tree],
    args: Sequence<Typed>,
    found: &mut Option<Broken>,
    alloc: Global,
) -> Result<Typed, NoMemory>
    requires { values_of (scope_of scope.now) (plain_trees trees.now) ≡ map plain_value args }
    ensures typed { IfOk result (λ t. plain_known t ≡ call_known (scope_of scope.now) at None (map plain_value args) (plain_codes args)) }
    ensures found { OnOk result (found.new ≡ call_noted found.old (scope_of scope.now) at (plain_trees trees.now) (map plain_value args) None) }
{
    match intrinsic_named(scope.text_at(at)) {
        Some(number) => intrinsic_called(at, number, trees, args, found, alloc),
        None => Ok(refused(at, 3, found)),
    }
}

/// A call of an intrinsic function.
fn intrinsic_called(
    at: usize,
    number: u8,
    trees: &[Tree],
    args: Sequence<Typed>,
    found: &mut Option<Broken>,
    alloc: Global,
) -> Result<Typed, NoMemory>
    ensures typed { IfOk result (λ t. plain_known t ≡ intrinsic_known at number (map plain_value args) (plain_codes args)) }
    ensures found { OnOk result ((s : scopes.Scope) → values_of s (plain_trees trees.now) ≡ map plain_value args → found.new ≡ intrinsic_noted found.old s at number (plain_trees trees.now) (map plain_value args)) }
{
    let ty = intrinsic_type(number, args.as_slice(), alloc)?;
    note_if(found, is_unfit(&ty, args.as_slice()), at, 35);
    note_target(found, number, trees, args.as_slice());
    let codes = codes_of(args, alloc)?;
    let code = intrinsic_if(at, number, codes, alloc)?;
    Ok(value(ty, code))
}

/// What a call of an intrinsic function becomes, where its arguments become something.
fn intrinsic_if(
    at: usize,
    number: u8,
    codes: Option<Vec<Code>>,
    alloc: Global,
) -> Result<Option<Code>, NoMemory>
    ensures { IfOk result (λ code. plain_code_if code ≡ option_and_then (intrinsic_code at number) (option_map (λ l. map plain_code l.items) codes)) }
{
    match codes {
        Some(codes) => intrinsic_code(at, number, codes, alloc),
        None => Ok(None),
    }
}

/// Whether arguments, which all have types, don't fit, so that a call gives nothing.
fn is_unfit(ty: &Option<HlType>, args: &[Typed]) -> bool
    ensures { result ≡ (is_some (argument_types (map plain_value args.now)) && is_none (plain_type_if ty.now)) }
{
    have_types(args) && ty.is_none()
}

/// Notes where the target of an interlocked function is none.
fn note_target(found: &mut Option<Broken>, number: u8, trees: &[Tree], args: &[Typed])
    ensures { (s : scopes.Scope) → values_of s (plain_trees trees.now) ≡ map plain_value args.now → found.new ≡ target_noted found.old s number (plain_trees trees.now) }
{
    match interlocked_form(number) {
        Some(_) => note_first(found, trees, args),
        None => {}
    }
}

/// Notes where the first of some arguments is no target.
fn note_first(found: &mut Option<Broken>, trees: &[Tree], args: &[Typed])
    ensures { (s : scopes.Scope) → values_of s (plain_trees trees.now) ≡ map plain_value args.now → found.new ≡ gathered found.old (breaking 40 (untargeted s (plain_trees trees.now))) }
{
    match trees.first() {
        Some(tree) => match args.first() {
            Some(arg) => note_if(found, is_no_target(arg), tree.at(), 40),
            None => {}
        },
        None => {}
    }
}

/// Whether it is known that something isn't groupshared nor in a writable structured buffer, or is no int or uint.
fn is_no_target(arg: &Typed) -> bool
    ensures { result ≡ is_no_target (plain_value arg.now) }
{
    match &arg.standing {
        Standing::Unclear => is_no_word(&arg.ty),
        Standing::NoPlace => true,
        Standing::Place { atomic, .. } => !*atomic || is_no_word(&arg.ty),
    }
}

/// Whether a type is known, and is a value that is no int or uint.
fn is_no_word(ty: &Option<HlType>) -> bool
    ensures { result ≡ is_known (λ own. not (is_word own)) (valued (plain_type_if ty.now)) }
{
    match valued(ty) {
        Some(ty) => !is_word(ty),
        None => false,
    }
}

// ---- functions

/// A call of a declared function.
fn function_called(
    scope: &Scope,
    at: usize,
    trees: &[Tree],
    args: Sequence<Typed>,
    found: &mut Option<Broken>,
    alloc: Global,
) -> Result<Typed, NoMemory>
    requires { values_of (scope_of scope.now) (plain_trees trees.now) ≡ map plain_value args }
    ensures typed { IfOk result (λ t. plain_known t ≡ function_known (scope_of scope.now) at (map plain_value args) (plain_codes args)) }
    ensures found { OnOk result (found.new ≡ function_noted found.old (scope_of scope.now) at (plain_trees trees.now) (map plain_value args)) }
{
    note_if(found, is_entry_name(scope, at), at, 18);
    let choice = choice_of_call(scope, scope.text_at(at), args.as_slice(), alloc)?;
    match choice {
        Choice::Callee(callee) => callee_called(scope, at, &callee, trees, args, found, alloc),
        Choice::Fault(fault) => Ok(fault_found(fault, at, found)),
        Choice::Unknown => Ok(value(None, None)),
    }
}

/// A call for which no function is chosen; notes why.
fn fault_found(fault: ChoiceFault, at: usize, found: &mut Option<Broken>) -> Typed
    ensures typed { plain_known result ≡ known_value None None }
    ensures found { found.new ≡ fault_noted found.old at (Some fault) }
{
    match fault {
        ChoiceFault::NoMatch => refused(at, 35, found),
        ChoiceFault::Ambiguous { .. } => refused(at, 36, found),
    }
}

/// Whether the body of the function of a number stands around.
fn is_inside(scope: &Scope, number: u32) -> bool
    ensures { (candidate : values.Candidate) → candidate.number ≡ number → result ≡ is_itself (scope_of scope.now).inside (Some candidate) }
{
    match scope.inside {
        Some(inside) => inside == number,
        None => false,
    }
}

/// The call of a function that is chosen.
fn callee_called(
    scope: &Scope,
    at: usize,
    callee: &Callee,
    trees: &[Tree],
    args: Sequence<Typed>,
    found: &mut Option<Broken>,
    alloc: Global,
) -> Result<Typed, NoMemory>
    requires { values_of (scope_of scope.now) (plain_trees trees.now) ≡ map plain_value args }
    ensures typed { IfOk result (λ t. plain_known t ≡ callee_known (scope_of scope.now) at (plain_callee callee.now) (plain_codes args)) }
    ensures found { OnOk result (found.new ≡ callee_noted found.old (scope_of scope.now) at (plain_trees trees.now) (Some (plain_callee callee.now))) }
{
    note_unwritable(found, callee.params.as_slice(), trees, args.as_slice());
    note_if(found, is_inside(scope, callee.number), at, 38);
    let ty = function_result(scope, callee.number, alloc)?;
    let gives = function_result(scope, callee.number, alloc)?;
    let codes = codes_of(args, alloc)?;
    let code = callee_if(gives, at, callee, codes, alloc)?;
    Ok(value(ty, code))
}

/// What the call of a function that gives a type becomes, where its arguments become something.
fn callee_if(
    gives: Option<HlType>,
    at: usize,
    callee: &Callee,
    codes: Option<Vec<Code>>,
    alloc: Global,
) -> Result<Option<Code>, NoMemory>
    ensures { IfOk result (λ code. (s : scopes.Scope) → values.function_result s callee.now.number ≡ plain_type_if gives → plain_code_if code ≡ option_and_then (λ l. function_code s at (plain_callee callee.now) l) (option_map (λ l. map plain_code l.items) codes)) }
{
    match codes {
        Some(codes) => function_code(gives, at, callee, codes, alloc),
        None => Ok(None),
    }
}

/// Notes the arguments that are written and can't be.
fn note_unwritable(found: &mut Option<Broken>, params: &[Param], trees: &[Tree], args: &[Typed])
    ensures { (s : scopes.Scope) → values_of s (plain_trees trees.now) ≡ map plain_value args.now → found.new ≡ gathered found.old (breaking 37 (unwritable_arguments s (plain_params params.now) (plain_trees trees.now))) }
{
    for place in 0..params.len() {
        if place >= trees.len() || place >= args.len() {
            return;
        }
        let broken = is_unwritable_for(&params[place], &args[place]);
        note_if(found, broken, trees[place].at(), 37);
    }
}

/// Whether an argument is written and can't be.
fn is_unwritable_for(param: &Param, arg: &Typed) -> bool
    ensures { result ≡ is_unwritable_for param.now.copying (plain_standing arg.now.standing) }
{
    match param.copying {
        Copying::CopyIn => false,
        Copying::CopyOut | Copying::CopyBoth => arg.standing.is_unwritable(),
    }
}
