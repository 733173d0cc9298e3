//! Copies of expressions and places.

ghost use Rattle.std.specs.Prelude.{◌≡◌, IfOk};
ghost use Rattle.hl_meaning.specs.Trees.{read_form};
ghost use Rattle.hl_meaning.specs.Views.{plain_arg, plain_args, plain_expr, plain_exprs, plain_form, plain_location, plain_maybe_expr, plain_maybe_location, plain_part, plain_parts, plain_root, plain_target, plain_ty};
ghost use Rattle.hl_inline.specs.Emitting.{place_of_variable, reading};

use base_core::{Bytes, NoMemory};
use hl_meaning::{
    Arg, Args, Expr, Exprs, Form, HlType, Location, PathPart, PathParts, Root, Target,
};
use sqlite_items::{Boxed, Items};
use std::alloc::Global;

/// What reads the variable of a number, whole.
///
/// # Errors
/// `NoMemory` where memory is refused, as in each call below.
pub(crate) fn reading_form(alloc: Global, ty: &HlType, number: u32) -> Result<Form, NoMemory>
    ensures { IfOk result (λ form. plain_form form ≡ read_form (place_of_variable (plain_ty ty.now) number)) }
{
    let ty = ty.copied(alloc)?;
    Ok(Form::Read(Location {
        ty,
        root: Root::Variable(number),
        parts: Items::new(alloc),
    }))
}

/// The value of the variable of a number.
pub(crate) fn reading(alloc: Global, ty: &HlType, at: usize, number: u32) -> Result<Expr, NoMemory>
    ensures { IfOk result (λ value. plain_expr value ≡ reading (plain_ty ty.now) at number) }
{
    let form = reading_form(alloc, ty, number)?;
    let ty = ty.copied(alloc)?;
    Ok(Expr { ty, at, form })
}

/// A copy of a place.
///
/// # Errors
/// `NoMemory` where memory is refused, as in each call below.
#[cycle(copying)]
pub(crate) fn copied_place(alloc: Global, place: &Location) -> Result<Location, NoMemory>
    ensures { IfOk result (λ copy. plain_location copy ≡ plain_location place.now) }
{
    let root = copied_root(alloc, &place.root)?;
    let parts = copied_parts(alloc, &place.parts)?;
    let ty = place.ty.copied(alloc)?;
    Ok(Location { ty, root, parts })
}

/// A copy of a root.
#[cycle(copying)]
fn copied_root(alloc: Global, root: &Root) -> Result<Root, NoMemory>
    ensures { IfOk result (λ copy. plain_root copy ≡ plain_root root.now) }
{
    match root {
        Root::Variable(number) => Ok(Root::Variable(*number)),
        Root::Constant(number) => Ok(Root::Constant(*number)),
        Root::Shared(number) => Ok(Root::Shared(*number)),
        Root::Element { resource, index } => {
            let index = copied_boxed(alloc, index.get())?;
            Ok(Root::Element {
                resource: *resource,
                index,
            })
        }
    }
}

/// A copy of steps.
#[cycle(copying)]
pub(crate) fn copied_parts(alloc: Global, parts: &PathParts) -> Result<PathParts, NoMemory>
    ensures { IfOk result (λ copy. plain_parts copy ≡ plain_parts parts.now) }
{
    let mut copies = PathParts::new(alloc);
    for part in parts.as_slice() {
        let copy = copied_part(alloc, part)?;
        copies.push(copy)?;
    }
    Ok(copies)
}

/// A copy of a step.
#[cycle(copying)]
fn copied_part(alloc: Global, part: &PathPart) -> Result<PathPart, NoMemory>
    ensures { IfOk result (λ copy. plain_part copy ≡ plain_part part.now) }
{
    match part {
        PathPart::Member(number) => Ok(PathPart::Member(*number)),
        PathPart::Index(index) => {
            let index = copied_boxed(alloc, index.get())?;
            Ok(PathPart::Index(index))
        }
        PathPart::Swizzle(letters) => {
            let letters = Bytes::from_slice(alloc, letters.as_slice())?;
            Ok(PathPart::Swizzle(letters))
        }
    }
}

/// A copy of an expression.
#[cycle(copying)]
fn copied_expr(alloc: Global, expr: &Expr) -> Result<Expr, NoMemory>
    ensures { IfOk result (λ copy. plain_expr copy ≡ plain_expr expr.now) }
{
    let form = copied_form(alloc, &expr.form)?;
    let ty = expr.ty.copied(alloc)?;
    Ok(Expr {
        ty,
        at: expr.at,
        form,
    })
}

/// The same on the heap.
#[cycle(copying)]
fn copied_boxed(alloc: Global, expr: &Expr) -> Result<Boxed<Expr>, NoMemory>
    ensures { IfOk result (λ copy. plain_expr copy ≡ plain_expr expr.now) }
{
    let form = copied_form(alloc, &expr.form)?;
    let ty = expr.ty.copied(alloc)?;
    let at = expr.at;
    let copy = Boxed::new(alloc, Expr { ty, at, form })?;
    Ok(copy)
}

/// A copy of the form of an expression.
#[cycle(copying)]
fn copied_form(alloc: Global, form: &Form) -> Result<Form, NoMemory>
    ensures { IfOk result (λ copy. plain_form copy ≡ plain_form form.now) }
{
    match form {
        Form::Literal(word) => Ok(Form::Literal(*word)),
        Form::Read(place) => {
            let place = copied_place(alloc, place)?;
            Ok(Form::Read(place))
        }
        Form::Write {
            to,
            op,
            common,
            value,
            old,
        } => {
            let to = copied_place(alloc, to)?;
            let common = common.copied(alloc)?;
            let value = copied_boxed(alloc, value.get())?;
            Ok(Form::Write {
                to,
                op: *op,
                common,
                value,
                old: *old,
            })
        }
        Form::Convert(value) => {
            let value = copied_boxed(alloc, value.get())?;
            Ok(Form::Convert(value))
        }
        Form::Unary { op, value } => {
            let value = copied_boxed(alloc, value.get())?;
            Ok(Form::Unary { op: *op, value })
        }
        Form::Binary { op, left, right } => {
            let left = copied_boxed(alloc, left.get())?;
            let right = copied_boxed(alloc, right.get())?;
            Ok(Form::Binary {
                op: *op,
                left,
                right,
            })
        }
        Form::Choose { cond, yes, no } => {
            let cond = copied_boxed(alloc, cond.get())?;
            let yes = copied_boxed(alloc, yes.get())?;
            let no = copied_boxed(alloc, no.get())?;
            Ok(Form::Choose { cond, yes, no })
        }
        Form::Build(parts) => {
            let parts = copied_exprs(alloc, parts)?;
            Ok(Form::Build(parts))
        }
        Form::Pick { value, parts } => {
            let value = copied_boxed(alloc, value.get())?;
            let parts = copied_parts(alloc, parts)?;
            Ok(Form::Pick { value, parts })
        }
        Form::Call { function, args } => {
            let args = copied_args(alloc, args)?;
            Ok(Form::Call {
                function: *function,
                args,
            })
        }
        Form::Intrinsic { number, args } => {
            let args = copied_exprs(alloc, args)?;
            Ok(Form::Intrinsic {
                number: *number,
                args,
            })
        }
        Form::Method {
            resource,
            count,
            address,
            value,
        } => {
            let address = copied_boxed(alloc, address.get())?;
            let value = copied_expr_if(alloc, value)?;
            Ok(Form::Method {
                resource: *resource,
                count: *count,
                address,
                value,
            })
        }
        Form::Atomic {
            target,
            kind,
            compare,
            value,
            original,
        } => {
            let target = copied_target(alloc, target)?;
            let compare = copied_expr_if(alloc, compare)?;
            let value = copied_boxed(alloc, value.get())?;
            let original = copied_place_if(alloc, original)?;
            Ok(Form::Atomic {
                target,
                kind: *kind,
                compare,
                value,
                original,
            })
        }
    }
}

/// A copy of expressions.
#[cycle(copying)]
fn copied_exprs(alloc: Global, exprs: &Exprs) -> Result<Exprs, NoMemory>
    ensures { IfOk result (λ copy. plain_exprs copy ≡ plain_exprs exprs.now) }
{
    let mut copies = Exprs::new(alloc);
    for expr in exprs.as_slice() {
        let copy = copied_expr(alloc, expr)?;
        copies.push(copy)?;
    }
    Ok(copies)
}

/// A copy of arguments.
#[cycle(copying)]
fn copied_args(alloc: Global, args: &Args) -> Result<Args, NoMemory>
    ensures { IfOk result (λ copy. plain_args copy ≡ plain_args args.now) }
{
    let mut copies = Args::new(alloc);
    for arg in args.as_slice() {
        let copy = copied_arg(alloc, arg)?;
        copies.push(copy)?;
    }
    Ok(copies)
}

/// A copy of an argument.
#[cycle(copying)]
fn copied_arg(alloc: Global, arg: &Arg) -> Result<Arg, NoMemory>
    ensures { IfOk result (λ copy. plain_arg copy ≡ plain_arg arg.now) }
{
    match arg {
        Arg::Value(value) => {
            let value = copied_expr(alloc, value)?;
            Ok(Arg::Value(value))
        }
        Arg::Place(place) => {
            let place = copied_place(alloc, place)?;
            Ok(Arg::Place(place))
        }
    }
}

/// A copy of the target of an atomic operation.
#[cycle(copying)]
fn copied_target(alloc: Global, target: &Target) -> Result<Target, NoMemory>
    ensures { IfOk result (λ copy. plain_target copy ≡ plain_target target.now) }
{
    match target {
        Target::Place(place) => {
            let place = copied_place(alloc, place)?;
            Ok(Target::Place(place))
        }
        Target::Bytes { resource, address } => {
            let address = copied_boxed(alloc, address.get())?;
            Ok(Target::Bytes {
                resource: *resource,
                address,
            })
        }
    }
}

/// A copy of an expression that may be there.
#[cycle(copying)]
fn copied_expr_if(
    alloc: Global,
    value: &Option<Boxed<Expr>>,
) -> Result<Option<Boxed<Expr>>, NoMemory>
    ensures { IfOk result (λ copy. plain_maybe_expr copy ≡ plain_maybe_expr value.now) }
{
    match value {
        Some(value) => {
            let value = copied_boxed(alloc, value.get())?;
            Ok(Some(value))
        }
        None => Ok(None),
    }
}

/// A copy of a place that may be there.
#[cycle(copying)]
fn copied_place_if(alloc: Global, place: &Option<Location>) -> Result<Option<Location>, NoMemory>
    ensures { IfOk result (λ copy. plain_maybe_location copy ≡ plain_maybe_location place.now) }
{
    match place {
        Some(place) => {
            let place = copied_place(alloc, place)?;
            Ok(Some(place))
        }
        None => Ok(None),
    }
}
