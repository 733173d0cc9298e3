//! The variables that occur in expressions.
//!
//! Those that are not declared are marked.

ghost use Rattle.std.specs.Prelude.{◌≡◌, ◌∷◌};
ghost use Rattle.hl_meaning.specs.Trees.{PathParts};
ghost use Rattle.hl_meaning.specs.Views.{plain_arg, plain_args, plain_expr, plain_exprs, plain_location, plain_maybe_expr, plain_maybe_location, plain_part, plain_parts, plain_root, plain_target};
ghost use Rattle.hl_inline.specs.Marking.{mark_free, mark_occurrences};
ghost use Rattle.hl_inline.specs.Occurrences.{arg_occurrences, args_occurrences, expr_if_occurrences, expr_occurrences, exprs_occurrences, location_if_occurrences, location_occurrences, part_occurrences, parts_occurrences, place_occurrence, root_occurrences, target_occurrences};

use hl_meaning::{Arg, Expr, Form, Location, PathPart, Root, Target};
use sqlite_items::Boxed;

/// Marks the variable of a number, unless it is declared.
fn note(number: u32, declared: &[u32], used_undeclared: &mut [bool])
    ensures { used_undeclared.new ≡ mark_free declared.now number used_undeclared.old }
{
    let number = number as usize;
    if number < used_undeclared.len() && number < declared.len() && declared[number] == 0 {
        used_undeclared[number] = true;
    }
}

/// Marks the variables that an expression names and that are not declared.
#[cycle(noting)]
pub(crate) fn note_expr(expr: &Expr, declared: &[u32], used_undeclared: &mut [bool])
    ensures { used_undeclared.new ≡ mark_occurrences declared.now (expr_occurrences (plain_expr expr.now)) used_undeclared.old }
{
    match &expr.form {
        Form::Literal(_) => {}
        Form::Read(place) => note_place(place, declared, used_undeclared),
        Form::Write { to, value, .. } => {
            note_place(to, declared, used_undeclared);
            note_expr(value.get(), declared, used_undeclared);
        }
        Form::Convert(value) => note_expr(value.get(), declared, used_undeclared),
        Form::Unary { value, .. } => note_expr(value.get(), declared, used_undeclared),
        Form::Binary { left, right, .. } => {
            note_expr(left.get(), declared, used_undeclared);
            note_expr(right.get(), declared, used_undeclared);
        }
        Form::Choose { cond, yes, no } => {
            note_expr(cond.get(), declared, used_undeclared);
            note_expr(yes.get(), declared, used_undeclared);
            note_expr(no.get(), declared, used_undeclared);
        }
        Form::Build(parts) => note_exprs(parts.as_slice(), declared, used_undeclared),
        Form::Pick { value, parts } => {
            note_expr(value.get(), declared, used_undeclared);
            note_parts(parts.as_slice(), declared, used_undeclared);
        }
        Form::Call { args, .. } => note_args(args.as_slice(), declared, used_undeclared),
        Form::Intrinsic { args, .. } => note_exprs(args.as_slice(), declared, used_undeclared),
        Form::Method { address, value, .. } => {
            note_expr(address.get(), declared, used_undeclared);
            note_expr_if(value, declared, used_undeclared);
        }
        Form::Atomic {
            target,
            compare,
            value,
            original,
            ..
        } => {
            note_target(target, declared, used_undeclared);
            note_expr_if(compare, declared, used_undeclared);
            note_expr(value.get(), declared, used_undeclared);
            note_place_if(original, declared, used_undeclared);
        }
    }
}

/// The same of expressions.
#[cycle(noting)]
fn note_exprs(exprs: &[Expr], declared: &[u32], used_undeclared: &mut [bool])
    ensures { used_undeclared.new ≡ mark_occurrences declared.now (exprs_occurrences (plain_exprs exprs.now)) used_undeclared.old }
{
    for expr in exprs {
        note_expr(expr, declared, used_undeclared);
    }
}

/// The same of arguments.
#[cycle(noting)]
fn note_args(args: &[Arg], declared: &[u32], used_undeclared: &mut [bool])
    ensures { used_undeclared.new ≡ mark_occurrences declared.now (args_occurrences (plain_args args.now)) used_undeclared.old }
{
    for arg in args {
        note_arg(arg, declared, used_undeclared);
    }
}

/// The same of an argument.
#[cycle(noting)]
fn note_arg(arg: &Arg, declared: &[u32], used_undeclared: &mut [bool])
    ensures { used_undeclared.new ≡ mark_occurrences declared.now (arg_occurrences (plain_arg arg.now)) used_undeclared.old }
{
    match arg {
        Arg::Value(value) => note_expr(value, declared, used_undeclared),
        Arg::Place(place) => note_place(place, declared, used_undeclared),
    }
}

/// The same of the target of an atomic operation.
#[cycle(noting)]
fn note_target(target: &Target, declared: &[u32], used_undeclared: &mut [bool])
    ensures { used_undeclared.new ≡ mark_occurrences declared.now (target_occurrences (plain_target target.now)) used_undeclared.old }
{
    match target {
        Target::Place(place) => note_place(place, declared, used_undeclared),
        Target::Bytes { address, .. } => note_expr(address.get(), declared, used_undeclared),
    }
}

/// The same of an expression that may be there.
#[cycle(noting)]
fn note_expr_if(value: &Option<Boxed<Expr>>, declared: &[u32], used_undeclared: &mut [bool])
    ensures { used_undeclared.new ≡ mark_occurrences declared.now (expr_if_occurrences (plain_maybe_expr value.now)) used_undeclared.old }
{
    match value {
        Some(value) => note_expr(value.get(), declared, used_undeclared),
        None => {}
    }
}

/// The same of a place that may be there.
#[cycle(noting)]
fn note_place_if(place: &Option<Location>, declared: &[u32], used_undeclared: &mut [bool])
    ensures { used_undeclared.new ≡ mark_occurrences declared.now (location_if_occurrences (plain_maybe_location place.now)) used_undeclared.old }
{
    match place {
        Some(place) => note_place(place, declared, used_undeclared),
        None => {}
    }
}

/// The same of a place.
#[cycle(noting)]
fn note_place(place: &Location, declared: &[u32], used_undeclared: &mut [bool])
    ensures { used_undeclared.new ≡ mark_occurrences declared.now (location_occurrences (plain_location place.now)) used_undeclared.old }
{
    note_root(&place.root, declared, used_undeclared);
    note_parts(place.parts.as_slice(), declared, used_undeclared);
}

/// The same of the root of a place.
#[cycle(noting)]
fn note_root(root: &Root, declared: &[u32], used_undeclared: &mut [bool])
    ensures { (parts : PathParts) → used_undeclared.new ≡ mark_occurrences declared.now (place_occurrence (plain_root root.now) parts ∷ root_occurrences (plain_root root.now)) used_undeclared.old }
{
    match root {
        Root::Variable(number) => note(*number, declared, used_undeclared),
        Root::Element { index, .. } => note_expr(index.get(), declared, used_undeclared),
        Root::Constant(_) => {}
        Root::Shared(_) => {}
    }
}

/// The same of steps.
#[cycle(noting)]
fn note_parts(parts: &[PathPart], declared: &[u32], used_undeclared: &mut [bool])
    ensures { used_undeclared.new ≡ mark_occurrences declared.now (parts_occurrences (plain_parts parts.now)) used_undeclared.old }
{
    for part in parts {
        note_part(part, declared, used_undeclared);
    }
}

/// The same of a step.
#[cycle(noting)]
fn note_part(part: &PathPart, declared: &[u32], used_undeclared: &mut [bool])
    ensures { used_undeclared.new ≡ mark_occurrences declared.now (part_occurrences (plain_part part.now)) used_undeclared.old }
{
    match part {
        PathPart::Index(index) => note_expr(index.get(), declared, used_undeclared),
        PathPart::Member(_) => {}
        PathPart::Swizzle(_) => {}
    }
}
