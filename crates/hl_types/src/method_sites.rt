//! Calls of methods, once their arguments are walked (DirectX HLSL, "ByteAddressBuffer", "StructuredBuffer").

ghost use Rattle.std.specs.Prelude.{◌≡◌, ◌++◌, IfOk, OnOk, Option, Some, map, option_and_then, option_map};
ghost use Rattle.hl_parser.specs.Trees.{a_postfix, present};
ghost use Rattle.hl_parser.specs.Views.{plain_of, plain_trees};
ghost use Rattle.hl_rules.specs.declared.found.Broken.{Broken as BrokenRule};
ghost use Rattle.hl_rules.specs.ExpressionRules.{argument_trees, is_no_method};
ghost use Rattle.hl_rules.specs.Expressions.{first_at};
ghost use Rattle.hl_rules.specs.Rules.{noted};
ghost use Rattle.hl_rules.specs.Scopes.{spelled};
ghost use Rattle.hl_rules.specs.Sites.{argument_sites, buffer_or_used, expression_sites};
ghost use Rattle.hl_rules.specs.Values.{method_type};
ghost use Rattle.hl_types.specs.Arguments.{AreTyped, first_constant};
ghost use Rattle.hl_types.specs.Calls.{method_known, method_noted, named_code};
ghost use Rattle.hl_values.specs.Arguments.{plain_codes};
ghost use Rattle.hl_values.specs.Known.{known_value, plain_known};
ghost use Rattle.hl_values.specs.Noted.{noted_if};
ghost use Rattle.hl_values.specs.ScopeViews.{plain_buffer, scope_of};
ghost use Rattle.hl_values.specs.TypedViews.{IsTyped};
ghost use Rattle.hl_values.specs.Views.{plain_code, plain_code_if, plain_value};

use crate::arguments::{behind, codes_of, first_constant, refused, trees_in};
use crate::indexes::{bare_at, buffer_named};
use base_core::{NoMemory, Sequence};
use hl_parser::Tree;
use hl_rules::{Broken, note_if};
use hl_values::{
    BufferInfo, Code, MethodCall, Scope, Typed, have_types, method_code, method_fits, method_of,
    method_type, value,
};
use std::alloc::Global;

/// Where a method is called: the index of the first token, of the method's name, the number of the buffer that stands
/// before it, where one does, and the index of the first token of its first argument.
#[derive(Clone, Copy)]
struct MethodSite {
    at: usize,
    name: usize,
    buffer: Option<u32>,
    first: usize,
}

/// A call of a method, behind the sites of what stands before it and of its arguments.
///
/// # Errors
/// `NoMemory` where memory is refused.
pub(crate) fn whole_method(
    scope: &Scope,
    at: usize,
    mark: usize,
    operand: &Tree,
    name: usize,
    arguments: &Tree,
    args: Sequence<Typed>,
    found: &mut Option<Broken>,
    alloc: Global,
) -> Result<Typed, NoMemory>
    requires { AreTyped (scope_of scope.now) (argument_trees (plain_of arguments.now)) args }
    ensures typed { IfOk result (λ t. IsTyped (scope_of scope.now) (a_postfix at (plain_of operand.now) mark (Some name) (present (plain_of arguments.now))) t) }
    ensures found { OnOk result ((f : Option BrokenRule) → found.old ≡ noted f (buffer_or_used (scope_of scope.now) (plain_of operand.now) (expression_sites (scope_of scope.now) (plain_of operand.now)) ++ argument_sites (scope_of scope.now) (plain_of arguments.now)) → found.new ≡ noted f (expression_sites (scope_of scope.now) (a_postfix at (plain_of operand.now) mark (Some name) (present (plain_of arguments.now))))) }
{
    let site = MethodSite {
        at,
        name,
        buffer: buffer_named(scope, operand),
        first: first_at(trees_in(arguments)),
    };
    let typed = method_called(scope, site, args, found, alloc)?;
    Ok(behind(arguments, typed))
}

/// The first token of the first argument, without parentheses around the whole of it, and 0 where there is none.
fn first_at(trees: &[Tree]) -> usize
    ensures { result ≡ first_at (plain_trees trees.now) }
{
    match trees.first() {
        Some(tree) => bare_at(tree),
        None => 0,
    }
}

/// A call of a method, once its arguments are walked.
#[tactic(auto, unfolding(hl_values::specs::ScopeViews::scope_of))]
fn method_called(
    scope: &Scope,
    site: MethodSite,
    args: Sequence<Typed>,
    found: &mut Option<Broken>,
    alloc: Global,
) -> Result<Typed, NoMemory>
    ensures typed { IfOk result (λ t. plain_known t ≡ method_known (scope_of scope.now) site.at site.buffer (spelled (scope_of scope.now) site.name) site.first (first_constant args) (map plain_value args) (plain_codes args)) }
    ensures found { OnOk result (found.new ≡ method_noted found.old (scope_of scope.now) site.buffer site.name (map plain_value args)) }
{
    match site.buffer {
        Some(number) => match scope.buffers.get(number as usize) {
            Some(buffer) => named_method(scope, site, number, buffer, args, found, alloc),
            None => Ok(refused(site.name, 41, found)),
        },
        None => Ok(refused(site.name, 41, found)),
    }
}

/// A call of a method of a buffer of a number.
fn named_method(
    scope: &Scope,
    site: MethodSite,
    number: u32,
    buffer: &BufferInfo,
    args: Sequence<Typed>,
    found: &mut Option<Broken>,
    alloc: Global,
) -> Result<Typed, NoMemory>
    ensures typed { IfOk result (λ t. plain_known t ≡ known_value (method_type (plain_buffer buffer.now) (spelled (scope_of scope.now) site.name) (map plain_value args)) (option_and_then (named_code (plain_buffer buffer.now) site.at number (spelled (scope_of scope.now) site.name) site.first (first_constant args)) (plain_codes args))) }
    ensures found { OnOk result (found.new ≡ noted_if found.old 41 (is_no_method (Some (plain_buffer buffer.now)) (spelled (scope_of scope.now) site.name) (map plain_value args)) site.name) }
{
    let name = scope.text_at(site.name);
    note_if(
        found,
        is_no_method(buffer, name, args.as_slice()),
        site.name,
        41,
    );
    let ty = method_type(buffer, name, args.as_slice(), alloc)?;
    let call = MethodCall {
        at: site.at,
        buffer,
        number,
        first: site.first,
        constant: first_constant(args.as_slice()),
    };
    let codes = codes_of(args, alloc)?;
    let code = named_code(call, name, codes, alloc)?;
    Ok(value(ty, code))
}

/// Whether a buffer has no such method, or its arguments, which all have types, don't fit it.
fn is_no_method(buffer: &BufferInfo, name: &[u8], args: &[Typed]) -> bool
    ensures { result ≡ is_no_method (Some (plain_buffer buffer.now)) name.now (map plain_value args.now) }
{
    match method_of(buffer, name) {
        Some(method) => have_types(args) && !method_fits(method, args),
        None => true,
    }
}

/// What the call of a method of a name becomes, where its arguments become something.
fn named_code(
    call: MethodCall,
    name: &[u8],
    codes: Option<Vec<Code>>,
    alloc: Global,
) -> Result<Option<Code>, NoMemory>
    ensures { IfOk result (λ made. plain_code_if made ≡ option_and_then (named_code (plain_buffer call.entry.buffer.now) call.entry.at call.entry.number name.now call.entry.first call.entry.constant) (option_map (λ l. map plain_code l.items) codes)) }
{
    let Some(codes) = codes else {
        return Ok(None);
    };
    match method_of(call.buffer, name) {
        Some(method) => method_code(call, method, codes, alloc),
        None => Ok(None),
    }
}
