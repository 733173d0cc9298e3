//! What each part of a program holds.

ghost use Rattle.std.specs.Prelude.{◌≡◌, map};
ghost use Rattle.hl_meaning.specs.Stopping.{stopped};
ghost use Rattle.hl_meaning.specs.Sums.{arg_sums, args_sums, expr_if_sums, expr_sums, exprs_sums, location_if_sums, part_sums, root_sums, form_sums, function_sums, indexes_sums, location_sums, parts_sums, stmt_sums, stmts_sums, stop_all, target_sums, variable_words};
ghost use Rattle.hl_meaning.specs.Views.{plain_arg, plain_args, plain_expr, plain_exprs, plain_form, plain_function, plain_location, plain_maybe_expr, plain_maybe_location, plain_part, plain_root, plain_parts, plain_stmt, plain_stmts, plain_structs, plain_target, plain_variable};
ghost use Rattle.hl_meaning.specs.Held.{HasWords};
ghost use Rattle.hl_meaning.specs.Counters.{counted_by};

use crate::expression::{
    Arg, Args, Expr, Exprs, Form, Location, PathPart, PathParts, Root, Target,
};
use crate::layout::stopped_words;
use crate::program::{FunctionDef, StructDefs, Variable};
use crate::statement::{Stmt, Stmts};
use crate::sums::{Sums, stop};
use sqlite_items::Boxed;

/// What is known when a part is counted: the structs, and what each function holds that it may call.
#[derive(Clone, Copy)]
pub(crate) struct Counter<'a> {
    pub structs: &'a StructDefs,
    pub functions: &'a [Sums],
}

/// What an expression holds.
#[cycle(counting)]
pub(crate) fn expr_sums(counter: &Counter, expr: &Expr) -> Sums
    requires { HasWords (plain_structs counter.now.structs.now) }
    ensures { result ≡ stop_all (expr_sums (counted_by counter.now) (plain_expr expr.now)) }
{
    let words = stopped_words(counter.structs, &expr.ty);
    form_sums(counter, &expr.form).node(words.max(1))
}

/// What the form of an expression holds.
#[cycle(counting)]
fn form_sums(counter: &Counter, form: &Form) -> Sums
    requires { HasWords (plain_structs counter.now.structs.now) }
    ensures { result ≡ stop_all (form_sums (counted_by counter.now) (plain_form form.now)) }
{
    match form {
        Form::Literal(_) => Sums::NOTHING,
        Form::Read(place) => location_sums(counter, place),
        Form::Write { to, value, .. } => {
            location_sums(counter, to).both(expr_sums(counter, value.get()))
        }
        Form::Convert(value) => expr_sums(counter, value.get()),
        Form::Unary { value, .. } => expr_sums(counter, value.get()),
        Form::Binary { left, right, .. } => {
            expr_sums(counter, left.get()).both(expr_sums(counter, right.get()))
        }
        Form::Choose { cond, yes, no } => {
            let branches = expr_sums(counter, yes.get()).both(expr_sums(counter, no.get()));
            expr_sums(counter, cond.get()).both(branches)
        }
        Form::Build(parts) => exprs_sums(counter, parts),
        Form::Pick { value, parts } => {
            expr_sums(counter, value.get()).both(indexes_sums(counter, parts))
        }
        Form::Call { function, args } => {
            args_sums(counter, args).both(counter.callee_sums(*function))
        }
        Form::Intrinsic { args, .. } => exprs_sums(counter, args),
        Form::Method { address, value, .. } => {
            expr_sums(counter, address.get()).both(expr_if_sums(counter, value))
        }
        Form::Atomic {
            target,
            compare,
            value,
            original,
            ..
        } => {
            let written = location_if_sums(counter, original);
            let values = expr_sums(counter, value.get()).both(written);
            let values = expr_if_sums(counter, compare).both(values);
            target_sums(counter, target).both(values)
        }
    }
}

/// What an expression holds that may be there.
#[cycle(counting)]
fn expr_if_sums(counter: &Counter, value: &Option<Boxed<Expr>>) -> Sums
    requires { HasWords (plain_structs counter.now.structs.now) }
    ensures { result ≡ stop_all (expr_if_sums (counted_by counter.now) (plain_maybe_expr value.now)) }
{
    match value {
        Some(value) => expr_sums(counter, value.get()),
        None => Sums::NOTHING,
    }
}

/// What a place holds that may be there.
#[cycle(counting)]
fn location_if_sums(counter: &Counter, place: &Option<Location>) -> Sums
    requires { HasWords (plain_structs counter.now.structs.now) }
    ensures { result ≡ stop_all (location_if_sums (counted_by counter.now) (plain_maybe_location place.now)) }
{
    match place {
        Some(place) => location_sums(counter, place),
        None => Sums::NOTHING,
    }
}

/// What a place holds.
#[cycle(counting)]
fn location_sums(counter: &Counter, place: &Location) -> Sums
    requires { HasWords (plain_structs counter.now.structs.now) }
    ensures { result ≡ stop_all (location_sums (counted_by counter.now) (plain_location place.now)) }
{
    root_sums(counter, &place.root).both(parts_sums(counter, &place.parts))
}

/// What the root of a place holds.
#[cycle(counting)]
fn root_sums(counter: &Counter, root: &Root) -> Sums
    requires { HasWords (plain_structs counter.now.structs.now) }
    ensures { result ≡ stop_all (root_sums (counted_by counter.now) (plain_root root.now)) }
{
    match root {
        Root::Element { index, .. } => expr_sums(counter, index.get()),
        Root::Variable(_) | Root::Constant(_) | Root::Shared(_) => Sums::NOTHING,
    }
}

/// What one step holds.
#[cycle(counting)]
fn part_sums(counter: &Counter, part: &PathPart) -> Sums
    requires { HasWords (plain_structs counter.now.structs.now) }
    ensures { result ≡ stop_all (part_sums (counted_by counter.now) (plain_part part.now)) }
{
    match part {
        PathPart::Index(index) => expr_sums(counter, index.get()),
        PathPart::Member(_) | PathPart::Swizzle(_) => Sums::NOTHING,
    }
}

/// What the steps of a place hold.
#[cycle(counting)]
fn parts_sums(counter: &Counter, parts: &PathParts) -> Sums
    requires { HasWords (plain_structs counter.now.structs.now) }
    ensures { result ≡ stop_all (parts_sums (counted_by counter.now) (plain_parts parts.now)) }
{
    let mut sums = Sums::NOTHING;
    for part in parts.as_slice() {
        sums = sums.both(part_sums(counter, part).step());
    }
    sums
}

/// What the indexes among steps hold.
#[cycle(counting)]
fn indexes_sums(counter: &Counter, parts: &PathParts) -> Sums
    requires { HasWords (plain_structs counter.now.structs.now) }
    ensures { result ≡ stop_all (indexes_sums (counted_by counter.now) (plain_parts parts.now)) }
{
    let mut sums = Sums::NOTHING;
    for part in parts.as_slice() {
        sums = sums.both(part_sums(counter, part));
    }
    sums
}

/// What expressions hold together.
#[cycle(counting)]
fn exprs_sums(counter: &Counter, exprs: &Exprs) -> Sums
    requires { HasWords (plain_structs counter.now.structs.now) }
    ensures { result ≡ stop_all (exprs_sums (counted_by counter.now) (plain_exprs exprs.now)) }
{
    let mut sums = Sums::NOTHING;
    for expr in exprs.as_slice() {
        sums = sums.both(expr_sums(counter, expr));
    }
    sums
}

/// What arguments hold together.
#[cycle(counting)]
fn args_sums(counter: &Counter, args: &Args) -> Sums
    requires { HasWords (plain_structs counter.now.structs.now) }
    ensures { result ≡ stop_all (args_sums (counted_by counter.now) (plain_args args.now)) }
{
    let mut sums = Sums::NOTHING;
    for arg in args.as_slice() {
        sums = sums.both(arg_sums(counter, arg));
    }
    sums
}

/// What an argument holds.
#[cycle(counting)]
fn arg_sums(counter: &Counter, arg: &Arg) -> Sums
    requires { HasWords (plain_structs counter.now.structs.now) }
    ensures { result ≡ stop_all (arg_sums (counted_by counter.now) (plain_arg arg.now)) }
{
    match arg {
        Arg::Value(value) => expr_sums(counter, value),
        Arg::Place(place) => location_sums(counter, place),
    }
}

/// What the target of an atomic operation holds.
#[cycle(counting)]
fn target_sums(counter: &Counter, target: &Target) -> Sums
    requires { HasWords (plain_structs counter.now.structs.now) }
    ensures { result ≡ stop_all (target_sums (counted_by counter.now) (plain_target target.now)) }
{
    match target {
        Target::Place(place) => location_sums(counter, place),
        Target::Bytes { address, .. } => expr_sums(counter, address.get()),
    }
}

impl Counter<'_> {
    ghost use Rattle.hl_meaning.specs.Sums.{callee_sums};

    /// What a function holds that is called.
    pub fn callee_sums(&self, function: u32) -> Sums
        ensures { result ≡ callee_sums (counted_by self.now) function }
    {
        match self.functions.get(function as usize) {
            Some(sums) => *sums,
            None => Sums::NOTHING,
        }
    }
}
