//! The variables and the inputs of the entry.

ghost use Rattle.std.specs.Prelude.{◌≡◌, [], ◌∷◌, ◌++◌, IfOk, OnOk, map};
ghost use Rattle.hl_meaning.specs.Views.{plain_constant, plain_variable};
ghost use Rattle.hl_inline.specs.Building.{constant_variables, plain_code, plain_fresh};
ghost use Rattle.hl_inline.specs.Fresh.{nameless};
ghost use Rattle.hl_inline.specs.InlinedPrograms.{set_inputs};

use crate::context::shifted;
use crate::flat::{FlatStmt, FlatStmts};
use crate::fresh::{Fresh, copied_variable};
use base_core::NoMemory;
use hl_meaning::{Constant, FunctionDef, Parameter, Variables};
use std::alloc::Global;

/// The variables of the constants and of the entry, and the names behind 0, which the entry leaves.
///
/// # Errors
/// `NoMemory` where memory is refused, as in each call below.
pub(crate) fn entry_fresh(
    alloc: Global,
    constants: &[Constant],
    entry: &FunctionDef,
) -> Result<Fresh, NoMemory>
    ensures { IfOk result (λ fresh. plain_fresh fresh ≡ record { variables = constant_variables (map plain_constant constants.now) ++ map nameless (map plain_variable entry.now.variables); names = 1 }) }
{
    let variables = constant_variables(alloc, constants)?;
    let mut fresh = Fresh {
        variables,
        names: 1,
    };
    fresh.add_nameless(alloc, entry.variables.as_slice())?;
    Ok(fresh)
}

/// Copies of the variables of constants.
fn constant_variables(alloc: Global, constants: &[Constant]) -> Result<Variables, NoMemory>
    ensures { IfOk result (λ variables. map plain_variable variables ≡ constant_variables (map plain_constant constants.now)) }
{
    let mut variables = Variables::new(alloc);
    for constant in constants {
        let copy = copied_variable(alloc, &constant.variable)?;
        variables.push(copy)?;
    }
    Ok(variables)
}

/// Sets the parameters of the entry to their semantics.
///
/// # Errors
/// `NoMemory` where memory is refused, and where there are more variables than numbers.
pub(crate) fn set_inputs(
    first: u32,
    parameters: &[Parameter],
    code: &mut FlatStmts,
) -> Result<(), NoMemory>
    ensures { OnOk result (plain_code code.new ≡ plain_code code.old ++ set_inputs first parameters.now) }
{
    for parameter in parameters {
        set_input(first, parameter, code)?;
    }
    Ok(())
}

/// Sets a parameter to its semantic, where it has one.
fn set_input(first: u32, parameter: &Parameter, code: &mut FlatStmts) -> Result<(), NoMemory>
    ensures { OnOk result (plain_code code.new ≡ plain_code code.old ++ set_inputs first (parameter.now ∷ [])) }
{
    match parameter.semantic {
        Some(semantic) => {
            let variable = shifted(first, parameter.variable)?;
            code.push(FlatStmt::Input { variable, semantic })?;
            Ok(())
        }
        None => Ok(()),
    }
}
