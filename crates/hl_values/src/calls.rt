//! Calls of functions (HLSL, "Function Calls", "Overload Resolution").

ghost use Rattle.std.specs.Prelude.{◌≡◌, ◌<◌, IfOk, length, map, option_map, slice_get};
ghost use Rattle.hl_meaning.specs.Trees.{place_arg};
ghost use Rattle.hl_meaning.specs.Views.{plain_arg, plain_args, plain_ty};
ghost use Rattle.hl_overload.specs.Best.{choice_of};
ghost use Rattle.hl_overload.specs.Views.{plain_candidates, plain_params, plain_types};
ghost use Rattle.hl_rules.specs.Expressions.{function_code, passed_arg, passed_args};
ghost use Rattle.hl_rules.specs.Nodes.{place_of_code};
ghost use Rattle.hl_rules.specs.Scopes as plain_scopes;
ghost use Rattle.hl_rules.specs.Values.{call_choice, called, function_result, params_known};
ghost use Rattle.hl_values.specs.Calls.{called_in, fault_in, fault_of, params_at, picked, plain_callee};
ghost use Rattle.hl_values.specs.Few.{each};
ghost use Rattle.hl_values.specs.ScopeViews.{plain_function, plain_param, scope_of};
ghost use Rattle.hl_values.specs.Views.{plain_code, plain_code_if, plain_type_if, plain_value};

use crate::intrinsic_calls::argument_types;
use crate::name_table::NameTable;
use crate::nodes::{converted_code, value_node};
use crate::scope::{FunctionInfo, ParamInfo, Scope};
use crate::typed::{Code, Typed, copied_if};
use base_core::{NoMemory, Sequence};
use hl_meaning::{Arg, Args, Copying, Form, HlType};
use hl_overload::{Candidate, ChoiceFault, Param, Params, choose};
use sqlite_items::Items;
use std::alloc::Global;

/// A function that is called: its number, and its parameters.
#[derive(Drop)]
pub struct Callee {
    pub number: u32,
    pub params: Params,
}

/// What the call of a function chooses.
#[derive(Drop)]
pub enum Choice {
    /// It isn't known, since an argument or a parameter has no type.
    Unknown,
    /// No function.
    Fault(ChoiceFault),
    Callee(Callee),
}

/// What the call of a function of a name chooses.
///
/// # Errors
/// `NoMemory` where memory is refused, or where there are more than 2^32 functions.
pub fn choice_of_call(
    scope: &Scope,
    name: &[u8],
    args: &[Typed],
    alloc: Global,
) -> Result<Choice, NoMemory>
    ensures callee { IfOk result (λ choice. called_in choice ≡ called (scope_of scope.now) name.now (map plain_value args.now)) }
    ensures fault { IfOk result (λ choice. fault_in choice ≡ fault_of (call_choice (scope_of scope.now) name.now (map plain_value args.now))) }
{
    let Some(types) = argument_types(args, alloc)? else {
        return Ok(Choice::Unknown);
    };
    let places = scope.functions.positions(name);
    match candidates_at(&scope.functions, places, alloc)? {
        Some(candidates) => chosen(places, candidates, types.as_slice()),
        None => Ok(Choice::Unknown),
    }
}

/// What arguments of these types choose among candidates with these numbers.
fn chosen(
    numbers: &[usize],
    candidates: Vec<Candidate>,
    types: &[HlType],
) -> Result<Choice, NoMemory>
    requires { length numbers.now ≡ length candidates.items }
    ensures callee { IfOk result (λ choice. called_in choice ≡ picked numbers.now (plain_candidates candidates.items) (choice_of (plain_candidates candidates.items) (plain_types types.now))) }
    ensures fault { IfOk result (λ choice. fault_in choice ≡ fault_of (Some (choice_of (plain_candidates candidates.items) (plain_types types.now)))) }
{
    match choose(candidates.as_slice(), types) {
        Ok(place) => Ok(Choice::Callee(callee_at(numbers, candidates, place)?)),
        Err(fault) => Ok(Choice::Fault(fault)),
    }
}

/// The candidate at a place, with its number.
fn callee_at(
    numbers: &[usize],
    mut candidates: Vec<Candidate>,
    place: usize,
) -> Result<Callee, NoMemory>
    requires number { place < length numbers.now }
    requires within { place < length candidates.items }
    ensures { IfOk result (λ callee. Some (plain_callee callee) ≡ picked numbers.now (plain_candidates candidates.items) (Ok place)) }
{
    let Ok(number) = u32::try_from(numbers[place]) else {
        return Err(NoMemory);
    };
    let candidate = candidates.swap_remove(place);
    Ok(Callee {
        number,
        params: candidate.params,
    })
}

/// The functions at some places as candidates, where all of them have parameters with types.
fn candidates_at(
    functions: &NameTable<FunctionInfo>,
    places: &[usize],
    alloc: Global,
) -> Result<Option<Vec<Candidate>>, NoMemory>
    ensures { IfOk result (λ found. option_map (λ l. plain_candidates l.items) found ≡ each (params_at (map plain_function functions.now)) places.now) }
{
    let mut candidates = Vec::new(alloc);
    for place in places {
        let Some(function) = functions.value_at(*place) else {
            return Ok(None);
        };
        let Some(params) = params_known(function.params.as_slice(), alloc)? else {
            return Ok(None);
        };
        candidates.push(Candidate { params })?;
    }
    Ok(Some(candidates))
}

/// Parameters, where all have types.
fn params_known(params: &[ParamInfo], alloc: Global) -> Result<Option<Params>, NoMemory>
    ensures { IfOk result (λ known. option_map plain_params known ≡ params_known (map plain_param params.now)) }
{
    let mut known = Sequence::new(alloc);
    for param in params {
        let Some(ty) = copied_if(&param.ty, alloc)? else {
            return Ok(None);
        };
        let copying = param.copying;
        known.push(Param { ty, copying })?;
    }
    Ok(Some(known))
}

/// What the function of a number gives, where it has a type.
///
/// # Errors
/// `NoMemory` where memory is refused.
pub fn function_result(
    scope: &Scope,
    number: u32,
    alloc: Global,
) -> Result<Option<HlType>, NoMemory>
    ensures { IfOk result (λ ty. plain_type_if ty ≡ function_result (scope_of scope.now) number) }
{
    match scope.functions.value_at(number as usize) {
        Some(function) => copied_if(&function.result, alloc),
        None => Ok(None),
    }
}

/// The call of a function that gives a type.
///
/// # Errors
/// `NoMemory` where memory is refused.
pub fn function_code(
    gives: Option<HlType>,
    at: usize,
    callee: &Callee,
    codes: Vec<Code>,
    alloc: Global,
) -> Result<Option<Code>, NoMemory>
    ensures { (s : plain_scopes.Scope) → function_result s callee.now.number ≡ plain_type_if gives → IfOk result (λ made. plain_code_if made ≡ function_code s at (plain_callee callee.now) (map plain_code codes.items)) }
{
    let Some(ty) = gives else {
        return Ok(None);
    };
    let Some(args) = passed_args(callee.params.as_slice(), codes, alloc)? else {
        return Ok(None);
    };
    let function = callee.number;
    Ok(Some(value_node(ty, at, Form::Call { function, args }, alloc)?))
}

/// An argument, which is converted to the type of an `in` parameter, and is a place for any other one.
fn passed_arg(param: &Param, code: Code, alloc: Global) -> Result<Option<Arg>, NoMemory>
    ensures { IfOk result (λ arg. option_map plain_arg arg ≡ passed_arg param.now.copying (plain_ty param.now.ty) (plain_code code)) }
{
    match param.copying {
        Copying::CopyIn => match converted_code(&param.ty, code, alloc)? {
            Some(value) => Ok(Some(Arg::Value(value.into_inner()))),
            None => Ok(None),
        },
        Copying::CopyOut => Ok(place_passed(code)),
        Copying::CopyBoth => Ok(place_passed(code)),
    }
}

/// An argument that is a place.
fn place_passed(code: Code) -> Option<Arg>
    ensures { option_map plain_arg result ≡ option_map place_arg (place_of_code (plain_code code)) }
{
    match code.place() {
        Some(place) => Some(Arg::Place(place.into_inner())),
        None => None,
    }
}

/// Arguments, each for its parameter, where there are as many and all fit.
fn passed_args(params: &[Param], codes: Vec<Code>, alloc: Global) -> Result<Option<Args>, NoMemory>
    ensures { IfOk result (λ args. option_map plain_args args ≡ passed_args (plain_params params.now) (map plain_code codes.items)) }
{
    let mut args = Items::new(alloc);
    let mut rest = codes.into_iter();
    for param in params {
        let Some(code) = rest.next() else {
            return Ok(None);
        };
        let Some(arg) = passed_arg(param, code, alloc)? else {
            return Ok(None);
        };
        args.push(arg)?;
    }
    match rest.next() {
        Some(_) => Ok(None),
        None => Ok(Some(args)),
    }
}
