//! What operators, members, swizzles and indexes become, from what their parts become.

ghost use Rattle.std.specs.Prelude.{◌≡◌, ◌≤◌, Bool, IfOk, IfSome, List, Some, length, map, option_and_then, option_map};
ghost use Rattle.std.specs.Option.{option_copied};
ghost use Rattle.hl_meaning.specs.declared.ty.Kind.TheVariants.{Bool as BoolKind, Int as IntKind};
ghost use Rattle.hl_meaning.specs.Places.{is_literal};
ghost use Rattle.hl_meaning.specs.Trees.{an_expr, literal_form, place_type, write_form};
ghost use Rattle.hl_meaning.specs.Types.{scalar_type, with_kind};
ghost use Rattle.hl_meaning.specs.Views.{plain_expr, plain_location, plain_ty};
ghost use Rattle.hl_rules.specs.Expressions.{binary_code, assignment_code, choice_code, compound_code, compound_mark, constructor_code, index_expr, indexed_code, member_code, no_literal, plain_assignment, signed_code, step_mark, swizzled_code, with_three, with_two};
ghost use Rattle.hl_rules.specs.Nodes.{a_value, a_value_code, converted_code, type_of_code};
ghost use Rattle.hl_rules.specs.Operands.{choice_type, operand_type, operator_type};
ghost use Rattle.hl_rules.specs.Sites.{compound_production};
ghost use Rattle.hl_values.specs.Basics.{production_of};
ghost use Rattle.hl_values.specs.Steps.{element_of};
ghost use Rattle.hl_values.specs.Views.{plain_code, plain_code_if, plain_type_if};

use crate::basic::{components_type, kind_of, with_kind};
use crate::nodes::{converted_code, in_kind, node, value_node};
use crate::operators::{Operator, choice_type};
use crate::steps::with_part;
use crate::typed::Code;
use base_core::{Bytes, NoMemory};
use hl_lexer::Terminal;
use hl_meaning::{Expr, Form, HlType, Kind, Location, PathPart};
use sqlite_items::Boxed;
use std::alloc::Global;

/// A literal, as what something becomes.
///
/// # Errors
/// `NoMemory` where memory is refused.
pub fn literal(ty: HlType, at: usize, word: u32, alloc: Global) -> Result<Code, NoMemory>
    ensures { IfOk result (λ code. Some (plain_code code) ≡ a_value (plain_ty ty) at (literal_form word)) }
{
    value_node(ty, at, Form::Literal(word), alloc)
}

/// A constructor of a type, whose parts take its kind.
///
/// # Errors
/// `NoMemory` where memory is refused.
pub fn constructor_code(
    at: usize,
    ty: HlType,
    codes: Vec<Code>,
    alloc: Global,
) -> Result<Option<Code>, NoMemory>
    ensures { IfOk result (λ code. plain_code_if code ≡ constructor_code at (plain_ty ty) (map plain_code codes.items)) }
{
    let Some(parts) = in_kind(kind_of(&ty), codes, alloc)? else {
        return Ok(None);
    };
    let built = value_node(ty, at, Form::Build(parts), alloc)?;
    Ok(Some(built))
}

/// An operator between two operands, with the number of its mark: both are converted to the type in which it computes.
///
/// # Errors
/// `NoMemory` where memory is refused.
pub fn binary_code(
    operator: Operator,
    at: usize,
    mark: u8,
    left: Option<Code>,
    right: Option<Code>,
    alloc: Global,
) -> Result<Option<Code>, NoMemory>
    ensures { IfOk result (λ code. plain_code_if code ≡ with_two (binary_code (production_of operator) at mark) (plain_code_if left) (plain_code_if right)) }
{
    let Some(left) = left else {
        return Ok(None);
    };
    let Some(right) = right else {
        return Ok(None);
    };
    let Some(ty) = operator.operand_type(left.ty(), right.ty()) else {
        return Ok(None);
    };
    let Some(gives) = operator.operator_type(left.ty(), right.ty()) else {
        return Ok(None);
    };
    let Some(left) = converted_code(&ty, left, alloc)? else {
        return Ok(None);
    };
    let Some(right) = converted_code(&ty, right, alloc)? else {
        return Ok(None);
    };
    let form = Form::Binary {
        op: mark,
        left,
        right,
    };
    let made = value_node(gives, at, form, alloc)?;
    Ok(Some(made))
}

/// `?:`, whose condition becomes a bool of each component.
///
/// # Errors
/// `NoMemory` where memory is refused.
pub fn choice_code(
    at: usize,
    condition: Option<Code>,
    yes: Option<Code>,
    no: Option<Code>,
    alloc: Global,
) -> Result<Option<Code>, NoMemory>
    ensures { IfOk result (λ code. plain_code_if code ≡ with_three (choice_code at) (plain_code_if condition) (plain_code_if yes) (plain_code_if no)) }
{
    let Some(condition) = condition else {
        return Ok(None);
    };
    let Some(yes) = yes else {
        return Ok(None);
    };
    let Some(no) = no else {
        return Ok(None);
    };
    let Some(ty) = choice_type(condition.ty(), yes.ty(), no.ty()) else {
        return Ok(None);
    };
    let Some(cond) = condition_code(&ty, condition, alloc)? else {
        return Ok(None);
    };
    let Some(yes) = converted_code(&ty, yes, alloc)? else {
        return Ok(None);
    };
    let Some(no) = converted_code(&ty, no, alloc)? else {
        return Ok(None);
    };
    let made = value_node(ty, at, Form::Choose { cond, yes, no }, alloc)?;
    Ok(Some(made))
}

/// A condition as a bool of each component of a type.
fn condition_code(
    ty: &HlType,
    condition: Code,
    alloc: Global,
) -> Result<Option<Boxed<Expr>>, NoMemory>
    ensures { IfOk result (λ made. option_map plain_expr made ≡ converted_code (with_kind BoolKind (plain_ty ty.now)) (plain_code condition)) }
{
    let bools = with_kind(Kind::Bool, ty, alloc)?;
    converted_code(&bools, condition, alloc)
}

/// An operator before an operand, with the number of its mark, where it has a type: the operand is converted to that.
///
/// # Errors
/// `NoMemory` where memory is refused.
pub fn signed_code(
    at: usize,
    mark: u8,
    ty: Option<HlType>,
    operand: Code,
    alloc: Global,
) -> Result<Option<Code>, NoMemory>
    ensures { IfOk result (λ code. plain_code_if code ≡ signed_code at mark (plain_type_if ty) (plain_code operand)) }
{
    let Some(ty) = ty else {
        return Ok(None);
    };
    let Some(value) = converted_code(&ty, operand, alloc)? else {
        return Ok(None);
    };
    let made = value_node(ty, at, Form::Unary { op: mark, value }, alloc)?;
    Ok(Some(made))
}

/// An operator, with the number of its mark, that writes what it computes into its left side, in the type that it computes
/// in. Where `old` holds, the value is the one that stood there.
///
/// # Errors
/// `NoMemory` where memory is refused.
pub fn compound_code(
    operator: Operator,
    at: usize,
    mark: u8,
    old: bool,
    left: Code,
    right: Code,
    alloc: Global,
) -> Result<Option<Code>, NoMemory>
    ensures { IfOk result (λ code. plain_code_if code ≡ compound_code (production_of operator) at mark old (plain_code left) (plain_code right)) }
{
    let Some(to) = left.place() else {
        return Ok(None);
    };
    let Some(common) = operator.operand_type(&to.get().ty, right.ty()) else {
        return Ok(None);
    };
    let Some(value) = converted_code(&common, right, alloc)? else {
        return Ok(None);
    };
    written(at, to, Some(mark), common, value, old, alloc)
}

/// A value that is written into a place.
fn written(
    at: usize,
    to: Boxed<Location>,
    op: Option<u8>,
    common: HlType,
    value: Boxed<Expr>,
    old: bool,
    alloc: Global,
) -> Result<Option<Code>, NoMemory>
    ensures { IfOk result (λ code. plain_code_if code ≡ a_value (place_type (plain_location to)) at (write_form (plain_location to) op (plain_ty common) (plain_expr value) old)) }
{
    let ty = to.get().ty.copied(alloc)?;
    let form = Form::Write {
        to: to.into_inner(),
        op,
        common,
        value,
        old,
    };
    let made = value_node(ty, at, form, alloc)?;
    Ok(Some(made))
}

/// `++` or `--`, whose mark is the token `mark`: it adds or subtracts the int 1, which has the index of the mark.
///
/// # Errors
/// `NoMemory` where memory is refused.
pub fn step_code(
    at: usize,
    mark: usize,
    terminal: Terminal,
    old: bool,
    operand: Code,
    alloc: Global,
) -> Result<Option<Code>, NoMemory>
    ensures { IfOk result (λ code. plain_code_if code ≡ compound_code 38 at (step_mark terminal) old (plain_code operand) (a_value_code (an_expr (scalar_type IntKind) mark (literal_form 1)))) }
{
    let one = literal(HlType::Scalar(Kind::Int), mark, 1, alloc)?;
    compound_code(
        Operator::Sum,
        at,
        step_mark(terminal),
        old,
        operand,
        one,
        alloc,
    )
}

/// The number of the operator of `++` or `--`, `+` or `-`.
fn step_mark(terminal: Terminal) -> u8
    ensures { result ≡ step_mark terminal }
{
    match terminal {
        Terminal::MinusMinus => 13,
        _ => 12,
    }
}

/// The number of the operator of a compound mark, and 0 for another mark.
fn compound_mark(terminal: Terminal) -> u8
    ensures { result ≡ compound_mark terminal }
{
    match terminal {
        Terminal::PlusEquals => 12,
        Terminal::MinusEquals => 13,
        Terminal::StarEquals => 14,
        Terminal::SlashEquals => 15,
        Terminal::PercentEquals => 16,
        Terminal::AmpersandEquals => 21,
        Terminal::BarEquals => 22,
        Terminal::CaretEquals => 23,
        Terminal::LessLessEquals => 30,
        Terminal::GreaterGreaterEquals => 31,
        _ => 0,
    }
}

/// An assignment, whose value is converted to the type of the place.
///
/// # Errors
/// `NoMemory` where memory is refused.
fn plain_assignment(
    at: usize,
    left: Code,
    right: Code,
    alloc: Global,
) -> Result<Option<Code>, NoMemory>
    ensures { IfOk result (λ code. plain_code_if code ≡ plain_assignment at (plain_code left) (plain_code right)) }
{
    let Some(to) = left.place() else {
        return Ok(None);
    };
    let Some(value) = converted_code(&to.get().ty, right, alloc)? else {
        return Ok(None);
    };
    let common = to.get().ty.copied(alloc)?;
    written(at, to, None, common, value, false, alloc)
}

/// An assignment by a mark, `=` or a compound one.
///
/// # Errors
/// `NoMemory` where memory is refused.
pub fn assignment_code(
    mark: Terminal,
    at: usize,
    left: Option<Code>,
    right: Option<Code>,
    alloc: Global,
) -> Result<Option<Code>, NoMemory>
    ensures { IfOk result (λ code. plain_code_if code ≡ with_two (assignment_code mark at) (plain_code_if left) (plain_code_if right)) }
{
    let Some(left) = left else {
        return Ok(None);
    };
    let Some(right) = right else {
        return Ok(None);
    };
    match mark {
        Terminal::Equals => plain_assignment(at, left, right, alloc),
        _ => compound_code(
            Operator::compound(mark),
            at,
            compound_mark(mark),
            false,
            left,
            right,
            alloc,
        ),
    }
}

/// A swizzle with these letters behind a scalar or a vector of a kind.
///
/// # Errors
/// `NoMemory` where memory is refused.
pub fn swizzled_code(
    at: usize,
    kind: Kind,
    letters: Option<Bytes>,
    code: Code,
    alloc: Global,
) -> Result<Option<Code>, NoMemory>
    requires { IfSome letters (λ l. length l ≤ 4) }
    ensures { IfOk result (λ made. plain_code_if made ≡ swizzled_code at kind letters (plain_code code)) }
{
    let Some(letters) = letters else {
        return Ok(None);
    };
    let ty = components_type(kind, letters.len() as u8);
    let stepped = with_part(at, PathPart::Swizzle(letters), ty, code, alloc)?;
    Ok(Some(stepped))
}

/// The member of a number and of a type, where it has one.
///
/// # Errors
/// `NoMemory` where memory is refused.
pub fn member_code(
    at: usize,
    number: Option<u32>,
    ty: Option<&HlType>,
    code: Code,
    alloc: Global,
) -> Result<Option<Code>, NoMemory>
    ensures { IfOk result (λ made. plain_code_if made ≡ member_code at number (plain_type_if (option_copied ty.entry)) (plain_code code)) }
{
    let Some(number) = number else {
        return Ok(None);
    };
    let Some(ty) = ty else {
        return Ok(None);
    };
    let ty = ty.copied(alloc)?;
    let stepped = with_part(at, PathPart::Member(number), ty, code, alloc)?;
    Ok(Some(stepped))
}

/// An index: a constant number is a literal of uint, and any other index is converted to uint.
///
/// # Errors
/// `NoMemory` where memory is refused.
pub fn index_expr(
    at: usize,
    number: Option<u32>,
    code: Code,
    alloc: Global,
) -> Result<Option<Boxed<Expr>>, NoMemory>
    ensures { IfOk result (λ made. option_map plain_expr made ≡ index_expr at number (plain_code code)) }
{
    match number {
        Some(number) => {
            let index = node(HlType::Scalar(Kind::Uint), at, Form::Literal(number));
            Ok(Some(Boxed::new(alloc, index)?))
        }
        None => {
            let Some(index) = converted_code(&HlType::Scalar(Kind::Uint), code, alloc)? else {
                return Ok(None);
            };
            Ok(Some(no_literal(index, alloc)?))
        }
    }
}

/// The number of the mark `+`.
const PLUS: u8 = 12;

/// What isn't a constant number as no literal: a literal stands behind a `+`.
fn no_literal(value: Boxed<Expr>, alloc: Global) -> Result<Boxed<Expr>, NoMemory>
    ensures { IfOk result (λ made. plain_expr made ≡ no_literal (plain_expr value)) }
{
    if !is_literal(value.get()) {
        return Ok(value);
    }
    let at = value.get().at;
    let ty = value.get().ty.copied(alloc)?;
    let made = node(ty, at, Form::Unary { op: PLUS, value });
    Ok(Boxed::new(alloc, made)?)
}

/// Whether an expression is a literal.
fn is_literal(value: &Expr) -> bool
    ensures { result ≡ is_literal (plain_expr value.now) }
{
    match &value.form {
        Form::Literal(_) => true,
        _ => false,
    }
}

/// An index behind an array or a vector.
///
/// # Errors
/// `NoMemory` where memory is refused.
pub fn indexed_code(
    at: usize,
    index: Boxed<Expr>,
    code: Code,
    alloc: Global,
) -> Result<Option<Code>, NoMemory>
    ensures { IfOk result (λ made. plain_code_if made ≡ indexed_code at (plain_expr index) (plain_code code)) }
{
    let Some(element) = element_type(code.ty(), alloc)? else {
        return Ok(None);
    };
    let stepped = with_part(at, PathPart::Index(index), element, code, alloc)?;
    Ok(Some(stepped))
}

/// The type of the elements of an array or a vector.
pub fn element_type(ty: &HlType, alloc: Global) -> Result<Option<HlType>, NoMemory>
    ensures { IfOk result (λ element. plain_type_if element ≡ element_of (plain_ty ty.now)) }
{
    match ty {
        HlType::Array(element, _) => {
            let element = element.get().copied(alloc)?;
            Ok(Some(element))
        }
        HlType::Vector(kind, _) => Ok(Some(HlType::Scalar(*kind))),
        _ => Ok(None),
    }
}
