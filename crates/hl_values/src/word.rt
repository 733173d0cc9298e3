//! Numbers, truth values and names.

ghost use Rattle.std.specs.Prelude.{◌≡◌, Bool, IfOk, None, Option, Some};
ghost use Rattle.std.specs.Option.{option_copied};
ghost use Rattle.hl_meaning.specs.Trees.{literal_form};
ghost use Rattle.hl_meaning.specs.Types.{bool_type, scalar_type};
ghost use Rattle.hl_meaning.specs.Views.{plain_root};
ghost use Rattle.hl_rules.specs.Constants.{number_of_sort};
ghost use Rattle.hl_rules.specs.Expressions.{variable_code};
ghost use Rattle.hl_rules.specs.Nodes.{a_value};
ghost use Rattle.hl_rules.specs.Scopes.{a_variable_name, sort_at};
ghost use Rattle.hl_rules.specs.Source.{number_at};
ghost use Rattle.hl_rules.specs.Values as values;
ghost use Rattle.hl_rules.specs.Values.{is_shared_root, number_type, plain_value, sort_value};
ghost use Rattle.hl_values.specs.Known.{known, known_value, plain_known, word_known};
ghost use Rattle.hl_values.specs.ScopeViews.{plain_sort, plain_sort_if, plain_variable, scope_of};
ghost use Rattle.hl_values.specs.ScopeViews as views;
ghost use Rattle.hl_values.specs.Views.{plain_code_if, plain_type_if};

use crate::forms::literal;
use crate::nodes::location;
use crate::parts::value;
use crate::scope::{Scope, Sort, VariableInfo, VariableRoot};
use crate::typed::{Code, Standing, Typed, copied_if};
use base_core::{Bytes, NoMemory};
use hl_lexer::Terminal;
use hl_meaning::{HlType, Kind, Root};
use sqlite_items::{Boxed, Items};
use std::alloc::Global;

/// The greatest number that is an int without a suffix.
const MOST_INT: u32 = 2147483647;

/// The kind of a number.
fn number_kind(scope: &Scope, at: usize) -> Kind
    ensures { scalar_type result ≡ number_type (scope_of scope.now) at }
{
    if scope.is_unsigned_at(at) || MOST_INT < scope.number_at(at) {
        Kind::Uint
    } else {
        Kind::Int
    }
}

/// A number.
fn number(scope: &Scope, at: usize, alloc: Global) -> Result<Typed, NoMemory>
    ensures { IfOk result (λ t. plain_known t ≡ known (plain_value (Some (number_type (scope_of scope.now) at))) (Some (number_at (scope_of scope.now).tokens at)) (a_value (number_type (scope_of scope.now) at) at (literal_form (number_at (scope_of scope.now).tokens at)))) }
{
    let kind = number_kind(scope, at);
    let number = scope.number_at(at);
    let code = literal(HlType::Scalar(kind), at, number, alloc)?;
    Ok(Typed {
        ty: Some(HlType::Scalar(kind)),
        standing: Standing::NoPlace,
        number: Some(number),
        code: Some(code),
    })
}

/// A truth value, which is a word.
fn truth(at: usize, word: u32, alloc: Global) -> Result<Typed, NoMemory>
    ensures { IfOk result (λ t. plain_known t ≡ known_value (Some bool_type) (a_value bool_type at (literal_form word))) }
{
    let code = literal(HlType::Scalar(Kind::Bool), at, word, alloc)?;
    Ok(value(Some(HlType::Scalar(Kind::Bool)), Some(code)))
}

/// Where a variable begins.
fn root_of(root: VariableRoot) -> Root
    ensures { plain_root result ≡ views.plain_root root }
{
    match root {
        VariableRoot::Variable(number) => Root::Variable(number),
        VariableRoot::Shared(number) => Root::Shared(number),
        VariableRoot::Constant(number) => Root::Constant(number),
    }
}

/// Whether a variable is groupshared.
fn is_shared(root: VariableRoot) -> bool
    ensures { result ≡ is_shared_root (views.plain_root root) }
{
    match root {
        VariableRoot::Shared(_) => true,
        VariableRoot::Variable(_) => false,
        VariableRoot::Constant(_) => false,
    }
}

/// The place that a variable is, where it has a type.
fn variable_code(
    variable: &VariableInfo,
    at: usize,
    alloc: Global,
) -> Result<Option<Code>, NoMemory>
    ensures { IfOk result (λ code. plain_code_if code ≡ variable_code at (Some (a_variable_name (plain_variable variable.now)))) }
{
    let Some(ty) = &variable.ty else {
        return Ok(None);
    };
    let ty = ty.copied(alloc)?;
    let place = location(ty, root_of(variable.root), Items::new(alloc));
    let place = Boxed::new(alloc, place)?;
    Ok(Some(Code::Place { at, place }))
}

/// A variable.
fn variable(variable: &VariableInfo, at: usize, alloc: Global) -> Result<Typed, NoMemory>
    ensures { IfOk result (λ t. plain_known t ≡ known (sort_value (Some (a_variable_name (plain_variable variable.now)))) variable.now.number (variable_code at (Some (a_variable_name (plain_variable variable.now))))) }
{
    let code = variable_code(variable, at, alloc)?;
    let ty = copied_if(&variable.ty, alloc)?;
    Ok(Typed {
        ty,
        standing: Standing::Place {
            writable: !variable.is_const,
            atomic: is_shared(variable.root),
            letters: Bytes::new(alloc),
        },
        number: variable.number,
        code,
    })
}

/// What it isn't known of whether it is a place.
pub(crate) fn unclear() -> Typed
    ensures { plain_known result ≡ known (values.value None values.unclear) None None }
{
    Typed {
        ty: None,
        standing: Standing::Unclear,
        number: None,
        code: None,
    }
}

/// A declared name.
fn declared(sort: &Sort, at: usize, alloc: Global) -> Result<Typed, NoMemory>
    ensures { IfOk result (λ t. plain_known t ≡ known (sort_value (Some (plain_sort sort.now))) (number_of_sort (Some (plain_sort sort.now))) (variable_code at (Some (plain_sort sort.now)))) }
{
    match sort {
        Sort::Variable(info) => variable(info, at, alloc),
        Sort::Buffer(_) => Ok(unclear()),
        Sort::Struct(_) => Ok(value(None, None)),
        Sort::Function => Ok(value(None, None)),
    }
}

/// A name.
fn name(scope: &Scope, at: usize, alloc: Global) -> Result<Typed, NoMemory>
    ensures { IfOk result (λ t. plain_known t ≡ known (sort_value (sort_at (scope_of scope.now) at)) (number_of_sort (sort_at (scope_of scope.now) at)) (variable_code at (sort_at (scope_of scope.now) at))) }
{
    match scope.sort_at(at) {
        Some(sort) => declared(sort, at, alloc),
        None => Ok(unclear()),
    }
}

/// A token alone: a number, a truth value or a name.
pub(crate) fn word(scope: &Scope, at: usize, alloc: Global) -> Result<Typed, NoMemory>
    ensures { IfOk result (λ t. plain_known t ≡ word_known (scope_of scope.now) at) }
{
    match scope.terminal_at(at) {
        Terminal::Number => number(scope, at, alloc),
        Terminal::True => truth(at, 1, alloc),
        Terminal::False => truth(at, 0, alloc),
        Terminal::Name => name(scope, at, alloc),
        _ => Ok(value(None, None)),
    }
}
