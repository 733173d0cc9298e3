//! What becomes of calls.
//!
//! The arguments are put into the variables of the parameters. The body of the function follows, inside a name that its
//! `return`s leave, and then the variables of `out` and `inout` parameters are written back.

ghost use Rattle.std.specs.Prelude.{◌≡◌, ◌+◌, ◌∷◌, ◌++◌, [], true, List, IfOk, OnOk, length, option_map};
ghost use Rattle.hl_meaning.specs.declared.program.Parameter.{Parameter};
ghost use Rattle.hl_meaning.specs.Trees.{an_expr, read_form};
ghost use Rattle.hl_meaning.specs.Views.{plain_arg, plain_args, plain_expr, plain_form, plain_function, plain_location, plain_ty};
ghost use Rattle.hl_inline.specs.Building.{behind, body_before, callees_in, emitted_to, instance_in, named_body, passed_behind, passed_to, plain_code, plain_fresh, valued};
ghost use Rattle.hl_inline.specs.EmittedCode.{emitted_with};
ghost use Rattle.hl_inline.specs.EmittedExpressions.{arg_emitter, args_emitters};
ghost use Rattle.hl_inline.specs.Emitting.{place_of_variable};
ghost use Rattle.hl_inline.specs.FlatTrees.{flat_local};
ghost use Rattle.hl_inline.specs.FlatViews.{plain_flat_stmt};
ghost use Rattle.hl_inline.specs.Fresh.{Instance, next_of, with_variables};
ghost use Rattle.hl_inline.specs.InlinedCalls.{Argument, Inlined, call, copy_back, inlined_at, nothing_inlined, pass_all, result_variables, start_value, with_body, with_instance};
ghost use Rattle.hl_inline.specs.InlinedFunctions.{inlined};

use crate::adding::{add, add_all, add_named_block, add_set};
use crate::bodies::function_code;
use crate::context::{Context, shifted};
use crate::copies::{copied_place, reading, reading_form};
use crate::emitting::{Formed, emit};
use crate::flat::{FlatStmt, FlatStmts};
use crate::fresh::Fresh;
use crate::places::emit_place;
use base_core::NoMemory;
use hl_meaning::{Arg, Copying, Expr, Form, FunctionDef, HlType, Location, Parameters};
use sqlite_items::Boxed;
use std::alloc::Global;

/// A call, whose value stands in a variable of its own. A well formed program has no call of a function that isn't
/// there; nothing is inside such a call.
///
/// # Errors
/// `NoMemory` where memory is refused, as in each call below.
#[cycle(inlining)]
pub(crate) fn emit_call(
    context: &Context,
    function: u32,
    args: &[Arg],
    ty: &HlType,
    at: usize,
    fresh: &mut Fresh,
    code: &mut FlatStmts,
) -> Result<Formed, NoMemory>
    ensures { IfOk result (λ made. behind (plain_code code.old) ((call (instance_in context.now) (plain_ty ty.now) at (inlined_at (callees_in context.now) function) (args_emitters (callees_in context.now) (instance_in context.now) (plain_args args.now))).emit (plain_fresh fresh.old)) ≡ valued (plain_code code.new) (an_expr (plain_ty ty.now) at (plain_form made.form)) made.fixed (plain_fresh fresh.new)) }
{
    let number = function as usize;
    if number >= context.functions.len() {
        return emit_missing(context.alloc, ty, at, fresh, code);
    }
    let callee = &context.functions[number];
    let inner = Context {
        alloc: context.alloc,
        functions: &context.functions[..number],
        first: fresh.next(),
        result: result_number(fresh, callee),
        exit: fresh.names,
    };
    add_instance(context.alloc, callee, ty, at, fresh)?;
    emit_around(context, &inner, callee, args, ty, at, fresh, code)
}

/// A call of a function that isn't there.
fn emit_missing(
    alloc: Global,
    ty: &HlType,
    at: usize,
    fresh: &mut Fresh,
    code: &mut FlatStmts,
) -> Result<Formed, NoMemory>
    ensures { IfOk result (λ made. (i : Instance) → (args : List Argument) → behind (plain_code code.old) ((call i (plain_ty ty.now) at nothing_inlined args).emit (plain_fresh fresh.old)) ≡ valued (plain_code code.new) (an_expr (plain_ty ty.now) at (plain_form made.form)) made.fixed (plain_fresh fresh.new)) }
{
    let number = fresh.next();
    let name = fresh.take_name()?;
    add_result(alloc, ty, at, fresh)?;
    add_named_block(alloc, name, FlatStmts::new(alloc), code)?;
    read_result(alloc, ty, number)
}

/// The arguments of a call, the body of the function, and what is written back.
#[cycle(inlining)]
fn emit_around(
    context: &Context,
    inner: &Context,
    callee: &FunctionDef,
    args: &[Arg],
    ty: &HlType,
    at: usize,
    fresh: &mut Fresh,
    code: &mut FlatStmts,
) -> Result<Formed, NoMemory>
    ensures { IfOk result (λ made. behind (plain_code code.old) (with_body (plain_ty ty.now) at (inlined (callees_in inner.now) (plain_function callee.now)) (instance_in inner.now) (pass_all (instance_in context.now) at inner.now.first (args_emitters (callees_in context.now) (instance_in context.now) (plain_args args.now)) callee.now.parameters (plain_fresh fresh.old))) ≡ valued (plain_code code.new) (an_expr (plain_ty ty.now) at (plain_form made.form)) made.fixed (plain_fresh fresh.new)) }
{
    let parameters = &callee.parameters;
    let copies = passed(context, at, inner.first, args, parameters, fresh, code)?;
    emit_body_before(inner, callee, copies, fresh, code)?;
    read_result(context.alloc, ty, inner.result)
}

/// The body of a function in front of what is written back.
#[cycle(inlining)]
fn emit_body_before(
    inner: &Context,
    callee: &FunctionDef,
    copies: FlatStmts,
    fresh: &mut Fresh,
    code: &mut FlatStmts,
) -> Result<(), NoMemory>
    ensures { OnOk result (emitted_with (plain_code code.old) (body_before (inlined (callees_in inner.now) (plain_function callee.now)) (instance_in inner.now) (plain_code copies) (plain_fresh fresh.old)) ≡ emitted_to (plain_code code.new) (plain_fresh fresh.new)) }
{
    emit_named_body(inner, callee, fresh, code)?;
    add_all(copies, code)
}

/// What reads the variable of a result. It stays as it is.
fn read_result(alloc: Global, ty: &HlType, number: u32) -> Result<Formed, NoMemory>
    ensures { IfOk result (λ made. (plain_form made.form ≡ read_form (place_of_variable (plain_ty ty.now) number)) × (made.fixed ≡ true)) }
{
    let form = reading_form(alloc, ty, number)?;
    Ok(Formed { form, fixed: true })
}

/// The number of the variable of a result, behind the variables of the function.
fn result_number(fresh: &Fresh, callee: &FunctionDef) -> u32
    ensures { result ≡ next_of (plain_fresh fresh.now) + length callee.now.variables }
{
    (fresh.variables.len() + callee.variables.len()) as u32
}

/// The variables of a function that is called once, the variable of its result where there is one, and the name that it
/// leaves.
fn add_instance(
    alloc: Global,
    callee: &FunctionDef,
    ty: &HlType,
    at: usize,
    fresh: &mut Fresh,
) -> Result<(), NoMemory>
    ensures { (k : List Inlined) → OnOk result (plain_fresh fresh.new ≡ with_instance (inlined k (plain_function callee.now)) (plain_ty ty.now) at (plain_fresh fresh.old)) }
{
    fresh.take_name()?;
    fresh.add_nameless(alloc, callee.variables.as_slice())?;
    add_result(alloc, ty, at, fresh)
}

/// The variable of a result, where there is one.
fn add_result(alloc: Global, ty: &HlType, at: usize, fresh: &mut Fresh) -> Result<(), NoMemory>
    ensures { OnOk result (plain_fresh fresh.new ≡ with_variables (result_variables (plain_ty ty.now) at) (plain_fresh fresh.old)) }
{
    match ty {
        HlType::Void => Ok(()),
        _ => fresh.add_unnamed(alloc, ty, at),
    }
}

/// The body of a function, inside the name that a `return` leaves.
#[cycle(inlining)]
pub(crate) fn emit_named_body(
    inner: &Context,
    callee: &FunctionDef,
    fresh: &mut Fresh,
    code: &mut FlatStmts,
) -> Result<(), NoMemory>
    ensures { OnOk result (emitted_with (plain_code code.old) (named_body (inlined (callees_in inner.now) (plain_function callee.now)) (instance_in inner.now) (plain_fresh fresh.old)) ≡ emitted_to (plain_code code.new) (plain_fresh fresh.new)) }
{
    let body = function_code(inner, callee, fresh)?;
    add_named_block(inner.alloc, inner.exit, body, code)
}

/// Arguments in order; what writes them back is given.
#[cycle(inlining)]
fn passed(
    context: &Context,
    at: usize,
    number: u32,
    args: &[Arg],
    parameters: &Parameters,
    fresh: &mut Fresh,
    code: &mut FlatStmts,
) -> Result<FlatStmts, NoMemory>
    ensures { IfOk result (λ copies. passed_behind (plain_code code.old) [] (pass_all (instance_in context.now) at number (args_emitters (callees_in context.now) (instance_in context.now) (plain_args args.now)) parameters.now (plain_fresh fresh.old)) ≡ passed_to (plain_code code.new) (plain_code copies) (plain_fresh fresh.new)) }
{
    let mut copies = FlatStmts::new(context.alloc);
    pass_all(
        context,
        at,
        number,
        args,
        parameters,
        fresh,
        code,
        &mut copies,
    )?;
    Ok(copies)
}

/// Arguments in order, from the variable of a number on, and what writes them back.
#[cycle(inlining)]
fn pass_all(
    context: &Context,
    at: usize,
    number: u32,
    args: &[Arg],
    parameters: &Parameters,
    fresh: &mut Fresh,
    code: &mut FlatStmts,
    copies: &mut FlatStmts,
) -> Result<(), NoMemory>
    ensures { OnOk result (passed_behind (plain_code code.old) (plain_code copies.old) (pass_all (instance_in context.now) at number (args_emitters (callees_in context.now) (instance_in context.now) (plain_args args.now)) parameters.now (plain_fresh fresh.old)) ≡ passed_to (plain_code code.new) (plain_code copies.new) (plain_fresh fresh.new)) }
{
    let count = args.len().min(parameters.len());
    let parameters = parameters.as_slice();
    for index in 0..count {
        let variable = shifted(number, index as u32)?;
        pass(
            context,
            at,
            variable,
            &args[index],
            parameters[index].copying,
            fresh,
            code,
            copies,
        )?;
    }
    Ok(())
}

/// An argument, and what writes it back.
#[cycle(inlining)]
fn pass(
    context: &Context,
    at: usize,
    number: u32,
    arg: &Arg,
    copying: Copying,
    fresh: &mut Fresh,
    code: &mut FlatStmts,
    copies: &mut FlatStmts,
) -> Result<(), NoMemory>
    ensures { (parameter : Parameter) → parameter.copying ≡ copying → OnOk result (passed_behind (plain_code code.old) (plain_code copies.old) (pass_all (instance_in context.now) at number (arg_emitter (callees_in context.now) (instance_in context.now) (plain_arg arg.now) ∷ []) (parameter ∷ []) (plain_fresh fresh.old)) ≡ passed_to (plain_code code.new) (plain_code copies.new) (plain_fresh fresh.new)) }
{
    match arg {
        Arg::Value(value) => {
            let emitted = emit(context, value, fresh, code)?;
            add_set(number, emitted.value, code)
        }
        Arg::Place(place) => {
            let to = emit_place(context, true, place, fresh, code)?;
            pass_place(context.alloc, at, number, to, copying, code, copies)
        }
    }
}

/// A place as an argument: what the variable of the parameter starts with, and what writes it back.
fn pass_place(
    alloc: Global,
    at: usize,
    number: u32,
    to: Location,
    copying: Copying,
    code: &mut FlatStmts,
    copies: &mut FlatStmts,
) -> Result<(), NoMemory>
    ensures code { OnOk result (plain_code code.new ≡ plain_code code.old ++ flat_local number (start_value copying (plain_location to) at) ∷ []) }
    ensures copies { OnOk result (plain_code copies.new ≡ plain_code copies.old ++ copy_back (plain_location to) at number ∷ []) }
{
    let init = start_value(alloc, copying, &to, at)?;
    let start = FlatStmt::Local {
        variable: number,
        init,
    };
    add(start, code)?;
    let written = copy_back(alloc, to, at, number)?;
    add(written, copies)
}

/// What the variable of a parameter starts with whose argument is a place: an `out` parameter with zeros.
fn start_value(
    alloc: Global,
    copying: Copying,
    place: &Location,
    at: usize,
) -> Result<Option<Expr>, NoMemory>
    ensures { IfOk result (λ value. option_map plain_expr value ≡ start_value copying (plain_location place.now) at) }
{
    match copying {
        Copying::CopyOut => Ok(None),
        Copying::CopyIn | Copying::CopyBoth => {
            let ty = place.ty.copied(alloc)?;
            let place = copied_place(alloc, place)?;
            Ok(Some(Expr {
                ty,
                at,
                form: Form::Read(place),
            }))
        }
    }
}

/// Writes the variable of a parameter back to a place.
fn copy_back(alloc: Global, to: Location, at: usize, number: u32) -> Result<FlatStmt, NoMemory>
    ensures { IfOk result (λ stmt. plain_flat_stmt stmt ≡ copy_back (plain_location to) at number) }
{
    let ty = to.ty.copied(alloc)?;
    let common = to.ty.copied(alloc)?;
    let value = reading(alloc, &to.ty, at, number)?;
    let value = Boxed::new(alloc, value)?;
    Ok(FlatStmt::Run(Expr {
        ty,
        at,
        form: Form::Write {
            to,
            op: None,
            common,
            value,
            old: false,
        },
    }))
}
