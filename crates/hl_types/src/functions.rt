//! Functions (HLSL, "Function Definitions").

ghost use Rattle.std.specs.Prelude.{◌≡◌, ◌++◌, map, length, option_map, IfOk, OnOk};
ghost use Rattle.hl_meaning.specs.Views.{plain_function, plain_variable};
ghost use Rattle.hl_parser.specs.Views.{plain_of, plain_trees};
ghost use Rattle.hl_rules.specs.Declarations.{with_function};
ghost use Rattle.hl_rules.specs.Elaboration.{body_code, body_variables, function_def};
ghost use Rattle.hl_rules.specs.Rules.{noted};
ghost use Rattle.hl_rules.specs.Sites.{body_sites};
ghost use Rattle.hl_types.specs.Functions.{defined, function_sites};
ghost use Rattle.hl_types.specs.Walks.{made_stmts};
ghost use Rattle.hl_values.specs.ScopeChanges.{held_of, outside};
ghost use Rattle.hl_values.specs.ScopeViews.{scope_of};
ghost use Rattle.hl_values.specs.Views.{plain_type_if};

use crate::function_attributes::{note_function_attributes, note_result};
use crate::params::{note_params, parameters_of};
use crate::statements::statements;
use crate::whole::{is_entry, note_whole};
use base_core::{NoMemory, Text};
use hl_meaning::{FunctionDef, HlType, Parameters, Stmts, Variables};
use hl_parser::Tree;
use hl_rules::Broken;
use hl_values::{Scope, copied_if};
use std::alloc::Global;

/// The body of a function: the statements of its block.
fn body<'a>(
    scope: &mut Scope<'a>,
    block: &Tree,
    found: &mut Option<Broken>,
    alloc: Global,
) -> Result<Option<Stmts>, NoMemory>
    ensures code { IfOk result (λ made. made_stmts made ≡ body_code (scope_of scope.old) (plain_of block.now)) }
    ensures found { OnOk result (found.new ≡ noted found.old (body_sites (scope_of scope.old) (plain_of block.now))) }
    ensures scope { OnOk result (outside (scope_of scope.new) ≡ outside (scope_of scope.old)) }
    ensures variables { OnOk result ((held_of scope.new).variables ≡ (held_of scope.old).variables ++ body_variables (scope_of scope.old) (plain_of block.now)) }
{
    match block {
        Tree::Block {
            statements: inner,
            ..
        } => {
            let made = statements(scope, inner, found, alloc)?;
            Ok(made)
        }
        _ => Ok(None),
    }
}

/// The definition of a function, where it is known what it gives and its body becomes something.
fn definition(
    alloc: Global,
    name: &[u8],
    gives: Option<HlType>,
    parameters: Parameters,
    variables: Variables,
    body: Option<Stmts>,
) -> Result<Option<FunctionDef>, NoMemory>
    ensures { IfOk result (λ made. option_map plain_function made ≡ defined name.now (plain_type_if gives) parameters (map plain_variable variables) (made_stmts body)) }
{
    let Some(gives) = gives else {
        return Ok(None);
    };
    let Some(body) = body else {
        return Ok(None);
    };
    Ok(Some(FunctionDef {
        name: Text::from_slice(alloc, name)?,
        result: gives,
        parameters,
        variables,
        body,
    }))
}

/// The number of the next function.
fn next_function(scope: &Scope) -> Result<u32, NoMemory>
    ensures { IfOk result (λ number. number ≡ length (scope_of scope.now).functions) }
{
    match u32::try_from(scope.functions.len()) {
        Ok(number) => Ok(number),
        Err(_) => Err(NoMemory),
    }
}

/// A function: its definition, if it becomes one. The scope is outside of functions, and then that behind it.
///
/// # Errors
/// `NoMemory` where memory is refused, or there are more than 4294967295 functions.
pub(crate) fn function<'a>(
    scope: &mut Scope<'a>,
    attributes: &[Tree],
    gives: &Tree,
    name: usize,
    params: &[Tree],
    block: &Tree,
    found: &mut Option<Broken>,
    alloc: Global,
) -> Result<Option<FunctionDef>, NoMemory>
    requires { outside (scope_of scope.old) ≡ scope_of scope.old }
    ensures made { IfOk result (λ made. option_map plain_function made ≡ function_def (scope_of scope.old) (plain_of gives.now) name (plain_trees params.now) (plain_of block.now)) }
    ensures scope { OnOk result (scope_of scope.new ≡ with_function (scope_of scope.old) (plain_of gives.now) name (plain_trees params.now)) }
    ensures found { OnOk result (found.new ≡ noted found.old (function_sites (scope_of scope.old) (plain_trees attributes.now) (plain_of gives.now) name (plain_trees params.now) (plain_of block.now))) }
{
    note_function_attributes(scope, attributes, found, alloc)?;
    note_result(scope, gives, found);
    let entry = is_entry(scope, name);
    let parameters = parameters_of(scope, params, alloc)?;
    let ty = scope.result_type(gives);
    let inner = copied_if(&ty, alloc)?;
    let known = copied_if(&ty, alloc)?;
    let number = next_function(scope)?;
    scope.open_function(alloc, inner)?;
    let infos = note_params(scope, entry, params, found, alloc)?;
    note_whole(
        scope,
        attributes,
        gives,
        name,
        infos.as_slice(),
        block,
        found,
    );
    scope.declare_function(name, infos, known)?;
    scope.enter_body(number);
    let stmts = body(scope, block, found, alloc)?;
    let variables = scope.close_function(alloc);
    let made = definition(alloc, scope.text_at(name), ty, parameters, variables, stmts)?;
    Ok(made)
}
