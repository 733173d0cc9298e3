//! What is known of expressions, from what is known of their parts.

ghost use Rattle.std.specs.Prelude.{◌≡◌, ◌||◌, if◌then◌else◌, IfOk, None, Some, option_and_then, option_map, true};
ghost use Rattle.hl_meaning.specs.Views.{plain_ty};
ghost use Rattle.hl_rules.specs.Expressions.{prefix_code, step_code};
ghost use Rattle.hl_rules.specs.Nodes.{a_value_code, converted_code};
ghost use Rattle.hl_rules.specs.Operands.{choice_type, of_three, of_two, operator_type};
ghost use Rattle.hl_rules.specs.Values.{assigned, is_no_operand, prefix_type, valued};
ghost use Rattle.hl_values.specs.Basics.{production_of};
ghost use Rattle.hl_values.specs.Known.{assignment_known, binary_known, cast_known, choice_known, known_value, plain_known, prefix_known, step_known};
ghost use Rattle.hl_values.specs.ScopeViews.{scope_of};
ghost use Rattle.hl_values.specs.Views.{plain_code_if, plain_type_if};

use crate::basic::is_void;
use crate::constants::combined;
use crate::forms::{assignment_code, binary_code, choice_code, signed_code, step_code};
use crate::nodes::converted_code;
use crate::operators::{
    Operator, choice_type, is_no_operand, negated_type, operand_of, signed_type, valued,
};
use crate::scope::Scope;
use crate::typed::{Code, Standing, Typed};
use base_core::NoMemory;
use hl_lexer::Terminal;
use hl_meaning::HlType;
use std::alloc::Global;

/// A value that is no place and no constant number.
pub fn value(ty: Option<HlType>, code: Option<Code>) -> Typed
    ensures { plain_known result ≡ known_value (plain_type_if ty) (plain_code_if code) }
{
    Typed {
        ty,
        standing: Standing::NoPlace,
        number: None,
        code,
    }
}

/// The type that an operator gives for two operands, where both have one.
pub(crate) fn type_of_two(
    operator: Operator,
    left: &Option<HlType>,
    right: &Option<HlType>,
) -> Option<HlType>
    ensures { plain_type_if result ≡ of_two (operator_type (production_of operator)) (valued (plain_type_if left.now)) (valued (plain_type_if right.now)) }
{
    let left = valued(left);
    let right = valued(right);
    operator.operator_type(left?, right?)
}

/// The type of `?:` for a condition and two branches, where all have one.
fn type_of_three(
    condition: &Option<HlType>,
    yes: &Option<HlType>,
    no: &Option<HlType>,
) -> Option<HlType>
    ensures { plain_type_if result ≡ of_three choice_type (valued (plain_type_if condition.now)) (valued (plain_type_if yes.now)) (valued (plain_type_if no.now)) }
{
    let condition = valued(condition);
    let yes = valued(yes);
    let no = valued(no);
    choice_type(condition?, yes?, no?)
}

/// An operator between two operands.
pub(crate) fn binary(
    scope: &Scope,
    operator: Operator,
    at: usize,
    mark: usize,
    left: Typed,
    right: Typed,
    alloc: Global,
) -> Result<Typed, NoMemory>
    ensures { IfOk result (λ t. plain_known t ≡ binary_known (scope_of scope.now) (production_of operator) at mark (plain_known left) (plain_known right)) }
{
    let ty = type_of_two(operator, &left.ty, &right.ty);
    let number = combined(scope.terminal_at(mark), left.number, right.number);
    let sign = scope.mark_at(mark);
    let code = binary_code(operator, at, sign, left.code, right.code, alloc)?;
    Ok(Typed {
        ty,
        standing: Standing::NoPlace,
        number,
        code,
    })
}

/// `?:`
pub(crate) fn choice(
    at: usize,
    condition: Typed,
    yes: Typed,
    no: Typed,
    alloc: Global,
) -> Result<Typed, NoMemory>
    ensures { IfOk result (λ t. plain_known t ≡ choice_known at (plain_known condition) (plain_known yes) (plain_known no)) }
{
    let ty = type_of_three(&condition.ty, &yes.ty, &no.ty);
    let code = choice_code(at, condition.code, yes.code, no.code, alloc)?;
    Ok(value(ty, code))
}

/// The cast to a type.
pub(crate) fn cast(ty: HlType, operand: Typed, alloc: Global) -> Result<Typed, NoMemory>
    ensures { IfOk result (λ t. plain_known t ≡ cast_known (plain_ty ty) (plain_known operand)) }
{
    let code = cast_code(&ty, operand.code, alloc)?;
    Ok(value(Some(ty), code))
}

/// What a cast becomes.
fn cast_code(ty: &HlType, operand: Option<Code>, alloc: Global) -> Result<Option<Code>, NoMemory>
    ensures { IfOk result (λ code. plain_code_if code ≡ option_and_then (λ x. option_map a_value_code (converted_code (plain_ty ty.now) x)) (plain_code_if operand)) }
{
    let Some(operand) = operand else {
        return Ok(None);
    };
    match converted_code(ty, operand, alloc)? {
        Some(value) => Ok(Some(Code::Value(value))),
        None => Ok(None),
    }
}

/// The type of an operator before an operand, by its mark.
fn prefix_type(mark: Terminal, ty: &Option<HlType>) -> Option<HlType>
    ensures { plain_type_if result ≡ prefix_type mark (plain_type_if ty.now) }
{
    match mark {
        Terminal::PlusPlus => operand_of(ty),
        Terminal::MinusMinus => operand_of(ty),
        Terminal::Exclamation => {
            let ty = valued(ty);
            negated_type(ty?)
        }
        _ => {
            let ty = valued(ty);
            signed_type(ty?)
        }
    }
}

/// What an operator before an operand becomes, by its mark.
fn prefix_code(
    scope: &Scope,
    mark: Terminal,
    at: usize,
    operand: Option<Code>,
    alloc: Global,
) -> Result<Option<Code>, NoMemory>
    ensures { IfOk result (λ code. plain_code_if code ≡ option_and_then (prefix_code (scope_of scope.now) mark at) (plain_code_if operand)) }
{
    let Some(operand) = operand else {
        return Ok(None);
    };
    let terminal = scope.terminal_at(at);
    match mark {
        Terminal::PlusPlus => step_code(at, at, terminal, false, operand, alloc),
        Terminal::MinusMinus => step_code(at, at, terminal, false, operand, alloc),
        Terminal::Exclamation => {
            let ty = negated_type(operand.ty());
            signed_code(at, scope.mark_at(at), ty, operand, alloc)
        }
        _ => {
            let ty = signed_type(operand.ty());
            signed_code(at, scope.mark_at(at), ty, operand, alloc)
        }
    }
}

/// An operator before an operand.
pub(crate) fn prefix(
    scope: &Scope,
    at: usize,
    operand: Typed,
    alloc: Global,
) -> Result<Typed, NoMemory>
    ensures { IfOk result (λ t. plain_known t ≡ prefix_known (scope_of scope.now) at (plain_known operand)) }
{
    let mark = scope.terminal_at(at);
    let ty = prefix_type(mark, &operand.ty);
    let code = prefix_code(scope, mark, at, operand.code, alloc)?;
    Ok(value(ty, code))
}

/// What `++` or `--` behind an operand becomes.
fn step_behind(
    scope: &Scope,
    at: usize,
    mark: usize,
    operand: Option<Code>,
    alloc: Global,
) -> Result<Option<Code>, NoMemory>
    ensures { IfOk result (λ code. plain_code_if code ≡ option_and_then (step_code (scope_of scope.now) at mark true) (plain_code_if operand)) }
{
    let Some(operand) = operand else {
        return Ok(None);
    };
    step_code(at, mark, scope.terminal_at(mark), true, operand, alloc)
}

/// `++` or `--` behind an operand.
pub(crate) fn step(
    scope: &Scope,
    at: usize,
    mark: usize,
    operand: Typed,
    alloc: Global,
) -> Result<Typed, NoMemory>
    ensures { IfOk result (λ t. plain_known t ≡ step_known (scope_of scope.now) at mark (plain_known operand)) }
{
    let ty = operand_of(&operand.ty);
    let code = step_behind(scope, at, mark, operand.code, alloc)?;
    Ok(value(ty, code))
}

/// A type that isn't no value.
fn own_value(ty: Option<HlType>) -> Option<HlType>
    ensures { plain_type_if result ≡ valued (plain_type_if ty) }
{
    let ty = ty?;
    if is_void(&ty) { None } else { Some(ty) }
}

/// The type of an assignment by a mark.
fn assigned(mark: Terminal, left: Option<HlType>, right: &Option<HlType>) -> Option<HlType>
    ensures { plain_type_if result ≡ assigned mark (plain_type_if left) (plain_type_if right.now) }
{
    match mark {
        Terminal::Equals => own_value(left),
        _ => assigned_operand(left, right),
    }
}

/// The type of a compound assignment.
fn assigned_operand(left: Option<HlType>, right: &Option<HlType>) -> Option<HlType>
    ensures { plain_type_if result ≡ (if is_no_operand (plain_type_if left) || is_no_operand (plain_type_if right.now) then None else valued (plain_type_if left)) }
{
    if is_no_operand(&left) || is_no_operand(right) {
        None
    } else {
        own_value(left)
    }
}

/// An assignment.
pub(crate) fn assignment(
    scope: &Scope,
    at: usize,
    mark: usize,
    left: Typed,
    right: Typed,
    alloc: Global,
) -> Result<Typed, NoMemory>
    ensures { IfOk result (λ t. plain_known t ≡ assignment_known (scope_of scope.now) at mark (plain_known left) (plain_known right)) }
{
    let terminal = scope.terminal_at(mark);
    let ty = assigned(terminal, left.ty, &right.ty);
    let code = assignment_code(terminal, at, left.code, right.code, alloc)?;
    Ok(value(ty, code))
}
