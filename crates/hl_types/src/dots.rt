//! `.` and a name behind a value: members and swizzles (HLSL, "Member Access", "Vector Component Access").

ghost use Rattle.std.specs.Prelude.{◌≡◌, ◌≤◌, IfOk, IfSome, None, OnOk, Option, Some, length, option_and_then};
ghost use Rattle.std.specs.Option.{option_copied};
ghost use Rattle.hl_meaning.specs.Views.{plain_ty};
ghost use Rattle.hl_parser.specs.Trees.{a_postfix, absent};
ghost use Rattle.hl_parser.specs.Views.{plain_of};
ghost use Rattle.hl_rules.specs.declared.found.Broken.{Broken as BrokenRule};
ghost use Rattle.hl_rules.specs.ExpressionRules.{is_no_member, is_no_swizzle};
ghost use Rattle.hl_rules.specs.Expressions.{dotted_code};
ghost use Rattle.hl_rules.specs.Rules.{noted};
ghost use Rattle.hl_rules.specs.Sites.{expression_sites};
ghost use Rattle.hl_rules.specs.Values as values;
ghost use Rattle.hl_types.specs.Postfix.{struct_number};
ghost use Rattle.hl_values.specs.Known.{dotted_known, known, plain_known};
ghost use Rattle.hl_values.specs.Noted.{noted_dot};
ghost use Rattle.hl_values.specs.ScopeViews.{scope_of};
ghost use Rattle.hl_values.specs.TypedViews.{IsTyped};
ghost use Rattle.hl_values.specs.Views.{plain_code, plain_code_if, plain_standing, plain_type_if};

use base_core::{Bytes, NoMemory};
use hl_meaning::{HlType, Kind};
use hl_parser::Tree;
use hl_rules::{Broken, note_if};
use hl_values::{
    Basic, Code, Scope, Standing, Typed, components_type, letters_within, member_code, note_use,
    swizzled_code, valued,
};
use std::alloc::Global;

/// `.` and a name behind an operand, behind the sites of the operand.
pub(crate) fn whole_dot(
    scope: &Scope,
    at: usize,
    mark: usize,
    operand: &Tree,
    name: usize,
    value: Typed,
    found: &mut Option<Broken>,
    alloc: Global,
) -> Result<Typed, NoMemory>
    requires { IsTyped (scope_of scope.now) (plain_of operand.now) value }
    ensures typed { IfOk result (λ t. IsTyped (scope_of scope.now) (a_postfix at (plain_of operand.now) mark (Some name) absent) t) }
    ensures found { OnOk result ((f : Option BrokenRule) → found.old ≡ noted f (expression_sites (scope_of scope.now) (plain_of operand.now)) → found.new ≡ noted f (expression_sites (scope_of scope.now) (a_postfix at (plain_of operand.now) mark (Some name) absent))) }
{
    note_use(&value, operand.at(), found);
    note_dot(scope, &value.ty, name, found, alloc)?;
    dotted(scope, at, name, value, alloc)
}

// ---- rules

/// Notes a name behind a `.` that is no member, or no swizzle, of a type.
fn note_dot(
    scope: &Scope,
    ty: &Option<HlType>,
    name: usize,
    found: &mut Option<Broken>,
    alloc: Global,
) -> Result<(), NoMemory>
    ensures { OnOk result (found.new ≡ noted_dot found.old (scope_of scope.now) (values.valued (plain_type_if ty.now)) name) }
{
    let word = scope.text_at(name);
    let member = is_no_member(scope, word, valued(ty));
    let swizzle = is_no_swizzle(word, valued(ty), alloc)?;
    note_if(found, member, name, 26);
    note_if(found, swizzle, name, 27);
    Ok(())
}

/// Whether a type is known that has no member of a name: a struct without it, or an array.
fn is_no_member(scope: &Scope, name: &[u8], ty: Option<&HlType>) -> bool
    ensures { result ≡ is_no_member (scope_of scope.now) name.now (plain_type_if (option_copied ty.entry)) }
{
    match ty {
        Some(ty) => has_no_member(scope, name, ty),
        None => false,
    }
}

/// Whether a type has no member of a name: a struct without it, or an array.
fn has_no_member(scope: &Scope, name: &[u8], ty: &HlType) -> bool
    ensures { result ≡ is_no_member (scope_of scope.now) name.now (Some (plain_ty ty.now)) }
{
    match ty {
        HlType::Struct(number) => scope.member_number(*number as usize, name).is_none(),
        HlType::Array(_, _) => true,
        _ => false,
    }
}

/// Whether a type is known, a scalar or a vector, of which a name is no swizzle.
fn is_no_swizzle(name: &[u8], ty: Option<&HlType>, alloc: Global) -> Result<bool, NoMemory>
    ensures { IfOk result (λ broken. broken ≡ is_no_swizzle name.now (plain_type_if (option_copied ty.entry))) }
{
    let Some(ty) = ty else {
        return Ok(false);
    };
    match Basic::of(ty) {
        Some(basic) => {
            let letters = letters_within(basic.component_count(), name, alloc)?;
            Ok(letters.is_none())
        }
        None => Ok(false),
    }
}

// ---- values

/// `.` and a name behind a value.
fn dotted(
    scope: &Scope,
    at: usize,
    name: usize,
    value: Typed,
    alloc: Global,
) -> Result<Typed, NoMemory>
    ensures { IfOk result (λ t. plain_known t ≡ dotted_known (scope_of scope.now) at name (plain_known value)) }
{
    let word = scope.text_at(name);
    let code = dotted_code(scope, at, word, value.code, alloc)?;
    dotted_value(scope, word, value.ty, value.standing, code, alloc)
}

/// The number of the struct that a type is.
fn struct_number(ty: &HlType) -> Option<u32>
    ensures { result ≡ struct_number (plain_ty ty.now) }
{
    match ty {
        HlType::Struct(number) => Some(*number),
        _ => None,
    }
}

/// What is known of `.` and a name behind a value of a type, with what it becomes.
fn dotted_value(
    scope: &Scope,
    name: &[u8],
    ty: Option<HlType>,
    standing: Standing,
    code: Option<Code>,
    alloc: Global,
) -> Result<Typed, NoMemory>
    ensures { IfOk result (λ t. plain_known t ≡ known (values.dotted_value (scope_of scope.now) name.now (plain_type_if ty) (plain_standing standing)) None (plain_code_if code)) }
{
    let Some(ty) = ty else {
        return Ok(stepped(None, standing, code, alloc));
    };
    match struct_number(&ty) {
        Some(number) => {
            let member = copied(scope.member_type(number as usize, name), alloc)?;
            Ok(stepped(member, standing, code, alloc))
        }
        None => match Basic::of(&ty) {
            Some(basic) => {
                let letters = letters_within(basic.component_count(), name, alloc)?;
                swizzle_value(basic.kind(), letters, standing, code, alloc)
            }
            None => Ok(stepped(None, standing, code, alloc)),
        },
    }
}

/// A copy of a type, where there is one.
fn copied(ty: Option<&HlType>, alloc: Global) -> Result<Option<HlType>, NoMemory>
    ensures { IfOk result (λ copy. plain_type_if copy ≡ plain_type_if (option_copied ty.entry)) }
{
    match ty {
        Some(ty) => Ok(Some(ty.copied(alloc)?)),
        None => Ok(None),
    }
}

/// A value of a type behind a step that is no swizzle.
pub(crate) fn stepped(
    ty: Option<HlType>,
    standing: Standing,
    code: Option<Code>,
    alloc: Global,
) -> Typed
    ensures { plain_known result ≡ known (values.value (plain_type_if ty) (values.stepped (plain_standing standing))) None (plain_code_if code) }
{
    Typed {
        ty,
        standing: standing.stepped(alloc),
        number: None,
        code,
    }
}

/// A value behind a swizzle with these letters of a scalar or a vector of a kind.
fn swizzle_value(
    kind: Kind,
    letters: Option<Bytes>,
    standing: Standing,
    code: Option<Code>,
    alloc: Global,
) -> Result<Typed, NoMemory>
    requires { IfSome letters (λ l. length l ≤ 4) }
    ensures { IfOk result (λ t. plain_known t ≡ known (values.swizzle_value kind letters (plain_standing standing)) None (plain_code_if code)) }
{
    let Some(letters) = letters else {
        return Ok(stepped(None, standing, code, alloc));
    };
    let ty = components_type(kind, letters.len() as u8);
    let standing = standing.swizzled(&letters, alloc)?;
    Ok(Typed {
        ty: Some(ty),
        standing,
        number: None,
        code,
    })
}

// ---- code

/// What `.` and a name behind a value becomes, where the value becomes something.
fn dotted_code(
    scope: &Scope,
    at: usize,
    name: &[u8],
    code: Option<Code>,
    alloc: Global,
) -> Result<Option<Code>, NoMemory>
    ensures { IfOk result (λ made. plain_code_if made ≡ option_and_then (dotted_code (scope_of scope.now) at name.now) (plain_code_if code)) }
{
    match code {
        Some(code) => dotted_into(scope, at, name, code, alloc),
        None => Ok(None),
    }
}

/// What `.` and a name becomes behind what a value becomes.
fn dotted_into(
    scope: &Scope,
    at: usize,
    name: &[u8],
    code: Code,
    alloc: Global,
) -> Result<Option<Code>, NoMemory>
    ensures { IfOk result (λ made. plain_code_if made ≡ dotted_code (scope_of scope.now) at name.now (plain_code code)) }
{
    match struct_number(code.ty()) {
        Some(number) => {
            let member = scope.member_number(number as usize, name);
            let ty = scope.member_type(number as usize, name);
            member_code(at, member, ty, code, alloc)
        }
        None => match Basic::of(code.ty()) {
            Some(basic) => {
                let letters = letters_within(basic.component_count(), name, alloc)?;
                swizzled_code(at, basic.kind(), letters, code, alloc)
            }
            None => Ok(None),
        },
    }
}
