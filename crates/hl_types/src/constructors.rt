//! Constructors, once their arguments are walked (HLSL, "Constructors").

ghost use Rattle.std.specs.Prelude.{◌≡◌, IfOk, OnOk, Option, map, option_and_then, option_map};
ghost use Rattle.std.specs.List.{list_any};
ghost use Rattle.hl_meaning.specs.Types.{component_count};
ghost use Rattle.hl_meaning.specs.Views.{plain_ty};
ghost use Rattle.hl_parser.specs.Trees.{a_primary, present};
ghost use Rattle.hl_parser.specs.Views.{plain_of};
ghost use Rattle.hl_rules.specs.declared.found.Broken.{Broken as BrokenRule};
ghost use Rattle.hl_rules.specs.ExpressionRules.{argument_trees, is_other_sum};
ghost use Rattle.hl_rules.specs.Expressions.{constructor_code};
ghost use Rattle.hl_rules.specs.Rules.{noted};
ghost use Rattle.hl_rules.specs.Sites.{argument_sites, expression_sites};
ghost use Rattle.hl_rules.specs.Values.{argument_types, is_no_operand};
ghost use Rattle.hl_types.specs.Arguments.{AreTyped};
ghost use Rattle.hl_types.specs.Calls.{constructor_known, is_other_constructor};
ghost use Rattle.hl_values.specs.Arguments.{plain_codes};
ghost use Rattle.hl_values.specs.Known.{plain_known};
ghost use Rattle.hl_values.specs.Noted.{noted_if};
ghost use Rattle.hl_values.specs.ScopeViews.{scope_of};
ghost use Rattle.hl_values.specs.TypedViews.{IsTyped};
ghost use Rattle.hl_values.specs.Views.{plain_code, plain_code_if, plain_value};

use crate::arguments::{behind, codes_of};
use base_core::{NoMemory, Sequence};
use hl_meaning::HlType;
use hl_parser::Tree;
use hl_rules::{Broken, note_if};
use hl_values::{Basic, Code, Scope, Typed, constructor_code, is_no_operand, value, valued};
use std::alloc::Global;

/// A constructor of a basic type, behind the sites of its arguments.
///
/// # Errors
/// `NoMemory` where memory is refused.
pub(crate) fn whole_constructor(
    scope: &Scope,
    at: usize,
    basic: &Tree,
    arguments: &Tree,
    args: Sequence<Typed>,
    found: &mut Option<Broken>,
    alloc: Global,
) -> Result<Typed, NoMemory>
    requires { AreTyped (scope_of scope.now) (argument_trees (plain_of arguments.now)) args }
    ensures typed { IfOk result (λ t. IsTyped (scope_of scope.now) (a_primary at (present (plain_of basic.now)) (present (plain_of arguments.now))) t) }
    ensures found { OnOk result ((f : Option BrokenRule) → found.old ≡ noted f (argument_sites (scope_of scope.now) (plain_of arguments.now)) → found.new ≡ noted f (expression_sites (scope_of scope.now) (a_primary at (present (plain_of basic.now)) (present (plain_of arguments.now))))) }
{
    let ty = scope.basic_type(basic);
    let typed = constructed(at, ty, args, found, alloc)?;
    Ok(behind(arguments, typed))
}

/// A constructor of a type, once its arguments are walked.
fn constructed(
    at: usize,
    ty: HlType,
    args: Sequence<Typed>,
    found: &mut Option<Broken>,
    alloc: Global,
) -> Result<Typed, NoMemory>
    ensures typed { IfOk result (λ t. plain_known t ≡ constructor_known at (plain_ty ty) (plain_codes args)) }
    ensures found { OnOk result (found.new ≡ noted_if found.old 33 (is_other_constructor (plain_ty ty) (map plain_value args)) at) }
{
    note_if(found, is_other_constructor(&ty, &args), at, 33);
    let own = ty.copied(alloc)?;
    let codes = codes_of(args, alloc)?;
    let code = constructor_if(at, own, codes, alloc)?;
    Ok(value(Some(ty), code))
}

/// What a constructor becomes, where its arguments become something.
fn constructor_if(
    at: usize,
    ty: HlType,
    codes: Option<Vec<Code>>,
    alloc: Global,
) -> Result<Option<Code>, NoMemory>
    ensures { IfOk result (λ code. plain_code_if code ≡ option_and_then (λ l. constructor_code at (plain_ty ty) l) (option_map (λ l. map plain_code l.items) codes)) }
{
    match codes {
        Some(codes) => constructor_code(at, ty, codes, alloc),
        None => Ok(None),
    }
}

/// Whether an argument isn't a scalar or a vector, or arguments haven't as many components as a type.
fn is_other_constructor(ty: &HlType, args: &Sequence<Typed>) -> bool
    ensures { result ≡ is_other_constructor (plain_ty ty.now) (map plain_value args.now) }
{
    has_no_operand(args.as_slice()) || is_other_sum(component_count(ty), args)
}

/// Whether an argument isn't a scalar or a vector.
fn has_no_operand(args: &[Typed]) -> bool
    ensures { result ≡ list_any (λ v. is_no_operand v.ty) (map plain_value args.now) }
{
    for arg in args {
        if is_no_operand(&arg.ty) {
            return true;
        }
    }
    false
}

/// Whether the components of arguments, where all have types, aren't so many.
fn is_other_sum(count: u8, args: &Sequence<Typed>) -> bool
    ensures { result ≡ is_other_sum count (argument_types (map plain_value args.now)) }
{
    let mut sum: u64 = 0;
    for arg in args.as_slice() {
        match valued(&arg.ty) {
            Some(ty) => sum += u64::from(component_count(ty)),
            None => return false,
        }
    }
    sum != u64::from(count)
}

/// The number of components of a scalar or a vector, and 0 for any other type.
fn component_count(ty: &HlType) -> u8
    ensures { result ≡ component_count (plain_ty ty.now) }
{
    match Basic::of(ty) {
        Some(basic) => basic.component_count(),
        None => 0,
    }
}
