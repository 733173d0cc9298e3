//! Indexes: behind values, and behind the names of buffers, where they are elements (HLSL, "Subscript").

ghost use Rattle.std.specs.Prelude.{◌≡◌, ◌&&◌, IfOk, None, OnOk, Option, Some, false, is_some, option_and_then, option_map, true};
ghost use Rattle.std.specs.Option.{is_none, option_copied};
ghost use Rattle.hl_meaning.specs.Types.{Ty};
ghost use Rattle.hl_meaning.specs.Views.{plain_expr, plain_ty};
ghost use Rattle.hl_parser.specs.Trees.{a_postfix, at_of, present};
ghost use Rattle.hl_parser.specs.Views.{plain_of};
ghost use Rattle.hl_rules.specs.declared.found.Broken.{Broken as BrokenRule};
ghost use Rattle.hl_rules.specs.ExpressionRules.{is_not_indexed, is_past, needs_constant_index};
ghost use Rattle.hl_rules.specs.Expressions.{bare_at, element_in, index_expr, indexed_code};
ghost use Rattle.hl_rules.specs.Nodes.{a_place_code};
ghost use Rattle.hl_rules.specs.Rules.{noted};
ghost use Rattle.hl_rules.specs.Scopes as scopes;
ghost use Rattle.hl_rules.specs.Sites.{expression_sites};
ghost use Rattle.hl_rules.specs.Source.{terminal_at};
ghost use Rattle.hl_rules.specs.Values as values;
ghost use Rattle.hl_rules.specs.Values.{buffer_at, buffer_named, buffer_sort, buffer_word, value_of};
ghost use Rattle.hl_types.specs.Postfix.{element_count};
ghost use Rattle.hl_values.specs.Known.{bracketed_known, known, plain_known};
ghost use Rattle.hl_values.specs.Noted.{noted_index, noted_use};
ghost use Rattle.hl_values.specs.ScopeViews.{plain_buffer, plain_sort, plain_sort_if, scope_of};
ghost use Rattle.hl_values.specs.Steps.{element_of};
ghost use Rattle.hl_values.specs.TypedViews.{IsTyped};
ghost use Rattle.hl_values.specs.Views.{plain_code, plain_code_if, plain_standing, plain_type_if, plain_value};

use crate::dots::stepped;
use crate::types::is_no_scalar;
use base_core::{Bytes, NoMemory};
use hl_lexer::Terminal;
use hl_meaning::{Expr, HlType};
use hl_parser::Tree;
use hl_rules::{Broken, note_if};
use hl_values::{
    BufferInfo, Code, Scope, Sort, Standing, Typed, copied_if, element_in, element_type,
    index_expr, indexed_code, note_use, valued,
};
use sqlite_items::Boxed;
use std::alloc::Global;

// ---- what stands before an index or a method

/// The number of the buffer that an expression names, where it is a name alone.
pub(crate) fn buffer_named(scope: &Scope, tree: &Tree) -> Option<u32>
    ensures { result ≡ buffer_named (scope_of scope.now) (plain_of tree.now) }
{
    match tree {
        Tree::Primary {
            at,
            part,
            arguments,
        } => match part {
            Some(_) => None,
            None => match arguments {
                Some(_) => None,
                None => buffer_word(scope, *at),
            },
        },
        _ => None,
    }
}

/// The number of the buffer that a token alone names.
fn buffer_word(scope: &Scope, at: usize) -> Option<u32>
    ensures { result ≡ buffer_word (scope_of scope.now) (terminal_at (scope_of scope.now).tokens at) at }
{
    match scope.terminal_at(at) {
        Terminal::Name => buffer_sort(scope.sort_at(at)),
        _ => None,
    }
}

/// The number of the buffer that a name stands for.
fn buffer_sort(sort: Option<&Sort>) -> Option<u32>
    ensures { result ≡ buffer_sort (plain_sort_if (option_copied sort.entry)) }
{
    match sort {
        Some(sort) => buffer_number(sort),
        None => None,
    }
}

/// The number of the buffer that a name of a sort stands for.
fn buffer_number(sort: &Sort) -> Option<u32>
    ensures { result ≡ buffer_sort (Some (plain_sort sort.now)) }
{
    match sort {
        Sort::Buffer(number) => Some(*number),
        Sort::Struct(_) => None,
        Sort::Variable(_) => None,
        Sort::Function => None,
    }
}

/// Whether an expression names a buffer. Before an index or a method it is no value then.
pub(crate) fn is_buffer(scope: &Scope, tree: &Tree) -> bool
    ensures { result ≡ is_some (buffer_at (scope_of scope.now) (plain_of tree.now)) }
{
    match buffer_named(scope, tree) {
        Some(number) => scope.buffer(number as usize).is_some(),
        None => false,
    }
}

/// The index of the first token of an expression, without parentheses around the whole of it.
pub(crate) fn bare_at(tree: &Tree) -> usize
    ensures { result ≡ bare_at (plain_of tree.now) }
{
    match tree {
        Tree::Primary {
            at,
            part,
            arguments,
        } => match arguments {
            Some(_) => *at,
            None => match part {
                Some(inner) => bare_at(inner.get()),
                None => *at,
            },
        },
        _ => tree.at(),
    }
}

// ---- whole indexes

/// An index behind a value, behind the sites of both and the use of the value.
pub(crate) fn whole_index(
    scope: &Scope,
    at: usize,
    mark: usize,
    operand: &Tree,
    index: &Tree,
    first: Typed,
    second: Typed,
    found: &mut Option<Broken>,
    alloc: Global,
) -> Result<Typed, NoMemory>
    requires value { is_some (buffer_at (scope_of scope.now) (plain_of operand.now)) ≡ false }
    requires first { IsTyped (scope_of scope.now) (plain_of operand.now) first }
    requires second { IsTyped (scope_of scope.now) (plain_of index.now) second }
    ensures typed { IfOk result (λ t. IsTyped (scope_of scope.now) (a_postfix at (plain_of operand.now) mark None (present (plain_of index.now))) t) }
    ensures found { OnOk result ((f : Option BrokenRule) → found.old ≡ noted (noted_use (noted f (expression_sites (scope_of scope.now) (plain_of operand.now))) (value_of (scope_of scope.now) (plain_of operand.now)) (at_of (plain_of operand.now))) (expression_sites (scope_of scope.now) (plain_of index.now)) → found.new ≡ noted f (expression_sites (scope_of scope.now) (a_postfix at (plain_of operand.now) mark None (present (plain_of index.now))))) }
{
    note_use(&second, index.at(), found);
    note_index(&first, &second, index.at(), found);
    indexed(at, first, second, bare_at(index), alloc)
}

/// An element of a buffer: an index behind its name, behind the sites of the index.
pub(crate) fn whole_element(
    scope: &Scope,
    at: usize,
    mark: usize,
    operand: &Tree,
    index: &Tree,
    value: Typed,
    found: &mut Option<Broken>,
    alloc: Global,
) -> Result<Typed, NoMemory>
    requires buffer { is_some (buffer_at (scope_of scope.now) (plain_of operand.now)) ≡ true }
    requires value { IsTyped (scope_of scope.now) (plain_of index.now) value }
    ensures typed { IfOk result (λ t. IsTyped (scope_of scope.now) (a_postfix at (plain_of operand.now) mark None (present (plain_of index.now))) t) }
    ensures found { OnOk result ((f : Option BrokenRule) → found.old ≡ noted f (expression_sites (scope_of scope.now) (plain_of index.now)) → found.new ≡ noted f (expression_sites (scope_of scope.now) (a_postfix at (plain_of operand.now) mark None (present (plain_of index.now))))) }
{
    let Some(number) = buffer_named(scope, operand) else {
        unreachable!()
    };
    let Some(buffer) = scope.buffer(number as usize) else {
        unreachable!()
    };
    note_use(&value, index.at(), found);
    note_element(buffer, &value, index.at(), found);
    element(at, buffer, number, value, bare_at(index), alloc)
}

// ---- rules

/// How many elements an array or a vector has.
fn element_count(ty: &HlType) -> Option<u32>
    ensures { result ≡ element_count (plain_ty ty.now) }
{
    match ty {
        HlType::Array(_, size) => Some(*size),
        HlType::Vector(_, size) => Some(u32::from(*size)),
        _ => None,
    }
}

/// Whether a type is known that is no array and no vector.
fn is_not_indexed(ty: Option<&HlType>) -> bool
    ensures { result ≡ is_not_indexed None (plain_type_if (option_copied ty.entry)) }
{
    match ty {
        Some(ty) => element_count(ty).is_none(),
        None => false,
    }
}

/// Whether a constant number is at or past the end of an array or a vector.
fn is_past(number: Option<u32>, ty: Option<&HlType>) -> bool
    ensures { result ≡ is_past number (plain_type_if (option_copied ty.entry)) }
{
    let Some(number) = number else {
        return false;
    };
    let Some(ty) = ty else {
        return false;
    };
    match element_count(ty) {
        Some(size) => size <= number,
        None => false,
    }
}

/// Whether an index is no constant number behind what needs one.
fn needs_number(value: &Typed, index: &Typed) -> bool
    ensures { result ≡ (is_none index.now.number && needs_constant_index (plain_standing value.now.standing)) }
{
    index.number.is_none() && value.standing.needs_constant_index()
}

/// Notes what an index breaks behind a value.
fn note_index(value: &Typed, index: &Typed, at: usize, found: &mut Option<Broken>)
    ensures { found.new ≡ noted_index found.old None (plain_value value.now) (plain_value index.now) index.now.number at }
{
    note_if(found, is_not_indexed(valued(&value.ty)), at, 28);
    note_if(found, is_no_scalar(&index.ty), at, 29);
    note_if(found, is_past(index.number, valued(&value.ty)), at, 30);
    note_if(found, needs_number(value, index), at, 31);
}

/// Notes what an index breaks behind the name of a buffer.
fn note_element(buffer: &BufferInfo, index: &Typed, at: usize, found: &mut Option<Broken>)
    ensures { found.new ≡ noted_index found.old (Some (plain_buffer buffer.now)) (values.value None values.unclear) (plain_value index.now) index.now.number at }
{
    note_if(found, buffer.raw, at, 28);
    note_if(found, is_no_scalar(&index.ty), at, 29);
}

// ---- indexes behind values

/// An index, whose first token without parentheses is `bare`, behind a value.
fn indexed(
    at: usize,
    value: Typed,
    index: Typed,
    bare: usize,
    alloc: Global,
) -> Result<Typed, NoMemory>
    ensures { (s : scopes.Scope) → IfOk result (λ t. plain_known t ≡ bracketed_known s at None (plain_known value) (plain_known index) bare) }
{
    let number = index.number;
    let element = element_if(&value.ty, alloc)?;
    let place = index_if(bare, number, index.code, alloc)?;
    let code = indexed_if(at, place, value.code, alloc)?;
    indexed_value(element, value.standing, number, code, alloc)
}

/// The type of the elements of a value, where it is an array or a vector.
fn element_if(ty: &Option<HlType>, alloc: Global) -> Result<Option<HlType>, NoMemory>
    ensures { IfOk result (λ element. plain_type_if element ≡ option_and_then element_of (plain_type_if ty.now)) }
{
    match ty {
        Some(ty) => element_type(ty, alloc),
        None => Ok(None),
    }
}

/// What an index becomes, where its value becomes something.
fn index_if(
    bare: usize,
    number: Option<u32>,
    code: Option<Code>,
    alloc: Global,
) -> Result<Option<Boxed<Expr>>, NoMemory>
    ensures { IfOk result (λ made. option_map plain_expr made ≡ option_and_then (index_expr bare number) (plain_code_if code)) }
{
    match code {
        Some(code) => index_expr(bare, number, code, alloc),
        None => Ok(None),
    }
}

/// What an index behind a value becomes, where both become something.
fn indexed_if(
    at: usize,
    index: Option<Boxed<Expr>>,
    code: Option<Code>,
    alloc: Global,
) -> Result<Option<Code>, NoMemory>
    ensures { IfOk result (λ made. plain_code_if made ≡ option_and_then (λ i. option_and_then (indexed_code at i) (plain_code_if code)) (option_map plain_expr index)) }
{
    let Some(index) = index else {
        return Ok(None);
    };
    let Some(code) = code else {
        return Ok(None);
    };
    indexed_code(at, index, code, alloc)
}

/// What is known of an index behind a value whose elements have a type, where it has elements.
fn indexed_value(
    element: Option<HlType>,
    standing: Standing,
    number: Option<u32>,
    code: Option<Code>,
    alloc: Global,
) -> Result<Typed, NoMemory>
    ensures { (ty : Option Ty) → plain_type_if element ≡ option_and_then element_of ty → IfOk result (λ t. plain_known t ≡ known (values.indexed_value number ty (plain_standing standing)) None (plain_code_if code)) }
{
    match element {
        Some(element) => {
            let standing = standing.indexed(number, alloc)?;
            Ok(Typed {
                ty: Some(element),
                standing,
                number: None,
                code,
            })
        }
        None => Ok(stepped(None, standing, code, alloc)),
    }
}

// ---- elements of buffers

/// An element of the buffer of a number, whose index has the first token `bare` without parentheses.
fn element(
    at: usize,
    buffer: &BufferInfo,
    number: u32,
    index: Typed,
    bare: usize,
    alloc: Global,
) -> Result<Typed, NoMemory>
    ensures { IfOk result (λ t. plain_known t ≡ known (values.element_value (plain_buffer buffer.now)) None (option_and_then (λ i. option_map (a_place_code at) (element_in (plain_buffer buffer.now) number i)) (option_and_then (index_expr bare index.number) (plain_code_if index.code)))) }
{
    let place = index_if(bare, index.number, index.code, alloc)?;
    let code = element_code(at, buffer, number, place, alloc)?;
    element_value(buffer, code, alloc)
}

/// What an element of the buffer of a number becomes, where its index becomes something.
fn element_code(
    at: usize,
    buffer: &BufferInfo,
    number: u32,
    index: Option<Boxed<Expr>>,
    alloc: Global,
) -> Result<Option<Code>, NoMemory>
    ensures { IfOk result (λ made. plain_code_if made ≡ option_and_then (λ i. option_map (a_place_code at) (element_in (plain_buffer buffer.now) number i)) (option_map plain_expr index)) }
{
    let Some(index) = index else {
        return Ok(None);
    };
    let Some(place) = element_in(buffer, number, index, alloc)? else {
        return Ok(None);
    };
    let place = Boxed::new(alloc, place)?;
    Ok(Some(Code::Place { at, place }))
}

/// What is known of an element of a buffer.
fn element_value(buffer: &BufferInfo, code: Option<Code>, alloc: Global) -> Result<Typed, NoMemory>
    ensures { IfOk result (λ t. plain_known t ≡ known (values.element_value (plain_buffer buffer.now)) None (plain_code_if code)) }
{
    if buffer.raw {
        return Ok(stepped(None, Standing::NoPlace, code, alloc));
    }
    let ty = copied_if(&buffer.element, alloc)?;
    Ok(Typed {
        ty,
        standing: Standing::Place {
            writable: buffer.writable,
            atomic: buffer.writable,
            letters: Bytes::new(alloc),
        },
        number: None,
        code,
    })
}
