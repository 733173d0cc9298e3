//! What becomes of expressions.
//!
//! The operands of an expression are emitted in order. What the calls in them become are statements, which go before the
//! statement that the expression stands in. So the value of an operand is saved where a call stands in a later one.

ghost use Rattle.std.specs.Prelude.{◌≡◌, ◌∷◌, ℕ, [], Bool, false, IfOk};
ghost use Rattle.hl_meaning.specs.Trees.{an_expr, atomic_form, binary_form, choose_form, method_form, write_form};
ghost use Rattle.hl_meaning.specs.Types.{Ty};
ghost use Rattle.hl_meaning.specs.Views.{exprs_of, plain_expr, plain_exprs, plain_form, plain_location, plain_maybe_expr, plain_maybe_location, plain_target, plain_ty};
ghost use Rattle.hl_inline.specs.Building.{behind, callees_in, instance_in, made, made_behind, operand_behind, plain_code, plain_fresh, valued};
ghost use Rattle.hl_inline.specs.EmittedExpressions.{emitted, expr_if_emitters, exprs_emitters, form_emitter};
ghost use Rattle.hl_inline.specs.Emitting.{emit_all, settled};
ghost use Rattle.hl_inline.specs.LastCalls.{Knows, expr_if_path, expr_path, exprs_paths, form_path, path_among, place_if_path, place_path, target_path};
ghost use Rattle.hl_inline.specs.Operands.{filled_expr_if};

use crate::calling::emit_call;
use crate::context::Context;
use crate::copies::copied_parts;
use crate::flat::FlatStmts;
use crate::fresh::Fresh;
use crate::last_call::{LastCall, Operand};
use crate::places::{emit_operand_place, emit_place_along, emit_place_if, emit_target};
use crate::searching::path_to_call;
use crate::settling::{Emitted, settle};
use base_core::NoMemory;
use hl_meaning::{Expr, Exprs, Form, HlType, Location, Target};
use lane_core::AtomicKind;
use sqlite_items::Boxed;
use std::alloc::Global;

/// What becomes of the form of an expression. Where it is fixed, statements behind leave its value alone.
#[derive(Debug, Drop)]
pub(crate) struct Formed {
    pub form: Form,
    pub fixed: bool,
}

/// What becomes of an expression, behind statements.
///
/// # Errors
/// `NoMemory` where memory is refused, as in each call below.
#[cycle(inlining)]
pub(crate) fn emit(
    context: &Context,
    expr: &Expr,
    fresh: &mut Fresh,
    code: &mut FlatStmts,
) -> Result<Emitted, NoMemory>
    ensures { IfOk result (λ e. behind (plain_code code.old) (emitted (callees_in context.now) (instance_in context.now) (plain_expr expr.now) (plain_fresh fresh.old)) ≡ valued (plain_code code.new) (plain_expr e.value) e.fixed (plain_fresh fresh.new)) }
{
    let numbers = path_to_call(context.alloc, expr)?;
    let last_call = LastCall {
        numbers: numbers.as_slice(),
    };
    emit_along(context, last_call, expr, fresh, code)
}

/// The same along the path to its last call.
#[cycle(inlining)]
fn emit_along(
    context: &Context,
    last_call: LastCall,
    expr: &Expr,
    fresh: &mut Fresh,
    code: &mut FlatStmts,
) -> Result<Emitted, NoMemory>
    ensures { last_call.entry.numbers.now ≡ expr_path (plain_expr expr.now) → IfOk result (λ e. behind (plain_code code.old) (emitted (callees_in context.now) (instance_in context.now) (plain_expr expr.now) (plain_fresh fresh.old)) ≡ valued (plain_code code.new) (plain_expr e.value) e.fixed (plain_fresh fresh.new)) }
{
    let ty = expr.ty.copied(context.alloc)?;
    let formed = emit_form(
        context, last_call, &expr.ty, expr.at, &expr.form, fresh, code,
    )?;
    let Formed { form, fixed } = formed;
    Ok(Emitted {
        value: Expr {
            ty,
            at: expr.at,
            form,
        },
        fixed,
    })
}

/// What becomes of the form of an expression.
#[cycle(inlining)]
fn emit_form(
    context: &Context,
    last_call: LastCall,
    ty: &HlType,
    at: usize,
    form: &Form,
    fresh: &mut Fresh,
    code: &mut FlatStmts,
) -> Result<Formed, NoMemory>
    ensures { last_call.entry.numbers.now ≡ form_path (plain_form form.now) → IfOk result (λ made. behind (plain_code code.old) ((form_emitter (callees_in context.now) (instance_in context.now) (plain_ty ty.now) at (plain_form form.now)).emit (plain_fresh fresh.old)) ≡ valued (plain_code code.new) (an_expr (plain_ty ty.now) at (plain_form made.form)) made.fixed (plain_fresh fresh.new)) }
{
    match form {
        Form::Literal(word) => Ok(Formed {
            form: Form::Literal(*word),
            fixed: true,
        }),
        Form::Read(place) => {
            let place = emit_place_along(context, false, last_call, place, fresh, code)?;
            Ok(open(Form::Read(place)))
        }
        Form::Write {
            to,
            op,
            common,
            value,
            old,
        } => emit_write(
            context,
            last_call,
            to,
            *op,
            common,
            value.get(),
            *old,
            fresh,
            code,
        ),
        Form::Convert(value) => {
            let value = emit_boxed(context, last_call.alone(), value.get(), fresh, code)?;
            Ok(open(Form::Convert(value)))
        }
        Form::Unary { op, value } => {
            let value = emit_boxed(context, last_call.alone(), value.get(), fresh, code)?;
            Ok(open(Form::Unary { op: *op, value }))
        }
        Form::Binary { op, left, right } => {
            emit_binary(
                context,
                last_call,
                *op,
                left.get(),
                right.get(),
                fresh,
                code,
            )
        }
        Form::Choose { cond, yes, no } => {
            emit_choice(
                context,
                last_call,
                cond.get(),
                yes.get(),
                no.get(),
                fresh,
                code,
            )
        }
        Form::Build(parts) => {
            let parts = emit_exprs(context, last_call, parts, fresh, code)?;
            Ok(open(Form::Build(parts)))
        }
        Form::Pick { value, parts } => {
            let value = emit_boxed(context, last_call.alone(), value.get(), fresh, code)?;
            let parts = copied_parts(context.alloc, parts)?;
            Ok(open(Form::Pick { value, parts }))
        }
        Form::Call { function, args } => {
            emit_call(context, *function, args.as_slice(), ty, at, fresh, code)
        }
        Form::Intrinsic { number, args } => {
            let args = emit_exprs(context, last_call, args, fresh, code)?;
            Ok(open(Form::Intrinsic {
                number: *number,
                args,
            }))
        }
        Form::Method {
            resource,
            count,
            address,
            value,
        } => emit_method(
            context,
            last_call,
            *resource,
            *count,
            address.get(),
            value,
            fresh,
            code,
        ),
        Form::Atomic {
            target,
            kind,
            compare,
            value,
            original,
        } => emit_atomic(
            context,
            last_call,
            target,
            *kind,
            compare,
            value.get(),
            original,
            fresh,
            code,
        ),
    }
}

/// A form whose value statements behind it may change.
fn open(form: Form) -> Formed
    ensures form { result.form ≡ form }
    ensures fixed { result.fixed ≡ false }
{
    Formed { form, fixed: false }
}

/// An operand. It is saved where statements come behind it that may change its value.
#[cycle(inlining)]
fn emit_operand(
    context: &Context,
    operand: Operand,
    expr: &Expr,
    fresh: &mut Fresh,
    code: &mut FlatStmts,
) -> Result<Expr, NoMemory>
    ensures { Knows operand.entry (expr_path (plain_expr expr.now)) → IfOk result (λ value. operand_behind (plain_code code.old) (settled operand.entry.further (emitted (callees_in context.now) (instance_in context.now) (plain_expr expr.now) (plain_fresh fresh.old))) ≡ made (plain_code code.new) (plain_expr value) (plain_fresh fresh.new)) }
{
    let emitted = emit_known(context, operand, expr, fresh, code)?;
    settle(context.alloc, operand.further, emitted, fresh, code)
}

/// What becomes of an operand. It is searched by itself where its last call isn't known.
#[cycle(inlining)]
fn emit_known(
    context: &Context,
    operand: Operand,
    expr: &Expr,
    fresh: &mut Fresh,
    code: &mut FlatStmts,
) -> Result<Emitted, NoMemory>
    ensures { Knows operand.entry (expr_path (plain_expr expr.now)) → IfOk result (λ e. behind (plain_code code.old) (emitted (callees_in context.now) (instance_in context.now) (plain_expr expr.now) (plain_fresh fresh.old)) ≡ valued (plain_code code.new) (plain_expr e.value) e.fixed (plain_fresh fresh.new)) }
{
    match operand.last_call {
        Some(last_call) => emit_along(context, last_call, expr, fresh, code),
        None => emit(context, expr, fresh, code),
    }
}

/// An operand on the heap.
#[cycle(inlining)]
pub(crate) fn emit_boxed(
    context: &Context,
    operand: Operand,
    expr: &Expr,
    fresh: &mut Fresh,
    code: &mut FlatStmts,
) -> Result<Boxed<Expr>, NoMemory>
    ensures { Knows operand.entry (expr_path (plain_expr expr.now)) → IfOk result (λ value. operand_behind (plain_code code.old) (settled operand.entry.further (emitted (callees_in context.now) (instance_in context.now) (plain_expr expr.now) (plain_fresh fresh.old))) ≡ made (plain_code code.new) (plain_expr value) (plain_fresh fresh.new)) }
{
    let value = emit_operand(context, operand, expr, fresh, code)?;
    let value = Boxed::new(context.alloc, value)?;
    Ok(value)
}

/// Operands in order.
#[cycle(inlining)]
fn emit_exprs(
    context: &Context,
    last_call: LastCall,
    exprs: &Exprs,
    fresh: &mut Fresh,
    code: &mut FlatStmts,
) -> Result<Exprs, NoMemory>
    ensures { last_call.entry.numbers.now ≡ path_among (exprs_paths (plain_exprs exprs.now)) → IfOk result (λ values. made_behind (plain_code code.old) exprs_of (emit_all false (exprs_emitters (callees_in context.now) (instance_in context.now) (plain_exprs exprs.now)) (plain_fresh fresh.old)) ≡ made (plain_code code.new) (plain_exprs values) (plain_fresh fresh.new)) }
{
    let mut values = Exprs::new(context.alloc);
    for (index, expr) in exprs.as_slice().iter().enumerate() {
        let operand = last_call.operand(false, index + 1);
        let value = emit_operand(context, operand, expr, fresh, code)?;
        values.push(value)?;
    }
    Ok(values)
}

/// An operand that may be there.
#[cycle(inlining)]
fn emit_expr_if(
    context: &Context,
    operand: Operand,
    value: &Option<Boxed<Expr>>,
    fresh: &mut Fresh,
    code: &mut FlatStmts,
) -> Result<Option<Boxed<Expr>>, NoMemory>
    ensures { Knows operand.entry (expr_if_path (plain_maybe_expr value.now)) → IfOk result (λ made_value. made_behind (plain_code code.old) (filled_expr_if (plain_maybe_expr value.now)) (emit_all operand.entry.further (expr_if_emitters (callees_in context.now) (instance_in context.now) (plain_maybe_expr value.now)) (plain_fresh fresh.old)) ≡ made (plain_code code.new) (plain_maybe_expr made_value) (plain_fresh fresh.new)) }
{
    match value {
        Some(value) => {
            let value = emit_boxed(context, operand, value.get(), fresh, code)?;
            Ok(Some(value))
        }
        None => Ok(None),
    }
}

/// An assignment.
#[cycle(inlining)]
fn emit_write(
    context: &Context,
    last_call: LastCall,
    to: &Location,
    op: Option<u8>,
    common: &HlType,
    value: &Expr,
    old: bool,
    fresh: &mut Fresh,
    code: &mut FlatStmts,
) -> Result<Formed, NoMemory>
    ensures { last_call.entry.numbers.now ≡ path_among (place_path (plain_location to.now) ∷ expr_path (plain_expr value.now) ∷ []) → IfOk result (λ made. (ty : Ty) → (at : ℕ) → behind (plain_code code.old) ((form_emitter (callees_in context.now) (instance_in context.now) ty at (write_form (plain_location to.now) op (plain_ty common.now) (plain_expr value.now) old)).emit (plain_fresh fresh.old)) ≡ valued (plain_code code.new) (an_expr ty at (plain_form made.form)) made.fixed (plain_fresh fresh.new)) }
{
    let to = emit_operand_place(context, last_call.operand(false, 1), to, fresh, code)?;
    let value = emit_boxed(context, last_call.operand(false, 2), value, fresh, code)?;
    let common = common.copied(context.alloc)?;
    Ok(open(Form::Write {
        to,
        op,
        common,
        value,
        old,
    }))
}

/// A binary operator.
#[cycle(inlining)]
fn emit_binary(
    context: &Context,
    last_call: LastCall,
    op: u8,
    left: &Expr,
    right: &Expr,
    fresh: &mut Fresh,
    code: &mut FlatStmts,
) -> Result<Formed, NoMemory>
    ensures { last_call.entry.numbers.now ≡ path_among (expr_path (plain_expr left.now) ∷ expr_path (plain_expr right.now) ∷ []) → IfOk result (λ made. (ty : Ty) → (at : ℕ) → behind (plain_code code.old) ((form_emitter (callees_in context.now) (instance_in context.now) ty at (binary_form op (plain_expr left.now) (plain_expr right.now))).emit (plain_fresh fresh.old)) ≡ valued (plain_code code.new) (an_expr ty at (plain_form made.form)) made.fixed (plain_fresh fresh.new)) }
{
    let left = emit_boxed(context, last_call.operand(false, 1), left, fresh, code)?;
    let right = emit_boxed(context, last_call.operand(false, 2), right, fresh, code)?;
    Ok(open(Form::Binary { op, left, right }))
}

/// A choice by a condition, which evaluates all its operands.
#[cycle(inlining)]
fn emit_choice(
    context: &Context,
    last_call: LastCall,
    cond: &Expr,
    consequent: &Expr,
    alternative: &Expr,
    fresh: &mut Fresh,
    code: &mut FlatStmts,
) -> Result<Formed, NoMemory>
    ensures { last_call.entry.numbers.now ≡ path_among (expr_path (plain_expr cond.now) ∷ expr_path (plain_expr consequent.now) ∷ expr_path (plain_expr alternative.now) ∷ []) → IfOk result (λ made. (ty : Ty) → (at : ℕ) → behind (plain_code code.old) ((form_emitter (callees_in context.now) (instance_in context.now) ty at (choose_form (plain_expr cond.now) (plain_expr consequent.now) (plain_expr alternative.now))).emit (plain_fresh fresh.old)) ≡ valued (plain_code code.new) (an_expr ty at (plain_form made.form)) made.fixed (plain_fresh fresh.new)) }
{
    let cond = emit_boxed(context, last_call.operand(false, 1), cond, fresh, code)?;
    let yes = emit_boxed(
        context,
        last_call.operand(false, 2),
        consequent,
        fresh,
        code,
    )?;
    let no = emit_boxed(
        context,
        last_call.operand(false, 3),
        alternative,
        fresh,
        code,
    )?;
    Ok(open(Form::Choose { cond, yes, no }))
}

/// A load or a store of a byte-address buffer.
#[cycle(inlining)]
fn emit_method(
    context: &Context,
    last_call: LastCall,
    resource: u32,
    count: u8,
    address: &Expr,
    value: &Option<Boxed<Expr>>,
    fresh: &mut Fresh,
    code: &mut FlatStmts,
) -> Result<Formed, NoMemory>
    ensures { last_call.entry.numbers.now ≡ path_among (expr_path (plain_expr address.now) ∷ expr_if_path (plain_maybe_expr value.now) ∷ []) → IfOk result (λ made. (ty : Ty) → (at : ℕ) → behind (plain_code code.old) ((form_emitter (callees_in context.now) (instance_in context.now) ty at (method_form resource count (plain_expr address.now) (plain_maybe_expr value.now))).emit (plain_fresh fresh.old)) ≡ valued (plain_code code.new) (an_expr ty at (plain_form made.form)) made.fixed (plain_fresh fresh.new)) }
{
    let address = emit_boxed(context, last_call.operand(false, 1), address, fresh, code)?;
    let value = emit_expr_if(context, last_call.operand(false, 2), value, fresh, code)?;
    Ok(open(Form::Method {
        resource,
        count,
        address,
        value,
    }))
}

/// An atomic operation.
#[cycle(inlining)]
fn emit_atomic(
    context: &Context,
    last_call: LastCall,
    target: &Target,
    kind: Option<AtomicKind>,
    compare: &Option<Boxed<Expr>>,
    value: &Expr,
    original: &Option<Location>,
    fresh: &mut Fresh,
    code: &mut FlatStmts,
) -> Result<Formed, NoMemory>
    ensures { last_call.entry.numbers.now ≡ path_among (target_path (plain_target target.now) ∷ expr_if_path (plain_maybe_expr compare.now) ∷ expr_path (plain_expr value.now) ∷ place_if_path (plain_maybe_location original.now) ∷ []) → IfOk result (λ made. (ty : Ty) → (at : ℕ) → behind (plain_code code.old) ((form_emitter (callees_in context.now) (instance_in context.now) ty at (atomic_form (plain_target target.now) kind (plain_maybe_expr compare.now) (plain_expr value.now) (plain_maybe_location original.now))).emit (plain_fresh fresh.old)) ≡ valued (plain_code code.new) (an_expr ty at (plain_form made.form)) made.fixed (plain_fresh fresh.new)) }
{
    let target = emit_target(context, last_call.operand(false, 1), target, fresh, code)?;
    let compare = emit_expr_if(context, last_call.operand(false, 2), compare, fresh, code)?;
    let value = emit_boxed(context, last_call.operand(false, 3), value, fresh, code)?;
    let original = emit_place_if(context, last_call.operand(false, 4), original, fresh, code)?;
    Ok(open(Form::Atomic {
        target,
        kind,
        compare,
        value,
        original,
    }))
}
