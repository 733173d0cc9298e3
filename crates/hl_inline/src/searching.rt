//! The search for the last call of an expression.
//!
//! It goes from the last operand to the first, and stops at the first call that it meets. On the way back it adds the
//! numbers of the operands that the call stands in.

ghost use Rattle.std.specs.Prelude.{◌≡◌, ◌∷◌, ◌++◌, ℕ, suc, List, if◌then◌else◌, [], IfOk};
ghost use Rattle.hl_meaning.specs.Views.{plain_expr, plain_exprs, plain_location, plain_maybe_expr, plain_maybe_location, plain_part, plain_parts, plain_root, plain_target};
ghost use Rattle.hl_inline.specs.LastCalls.{Finds, expr_if_path, expr_path, exprs_paths, part_path, parts_paths, path_among, path_from, place_if_path, place_path, root_path, target_path};

use base_core::{NoMemory, Sequence};
use hl_meaning::{Expr, Form, Location, PathPart, Root, Target};
use sqlite_items::Boxed;
use std::alloc::Global;

/// The path to the last call of an expression.
///
/// # Errors
/// `NoMemory` where memory is refused, as in each call below.
pub(crate) fn path_to_call(alloc: Global, expr: &Expr) -> Result<Sequence<usize>, NoMemory>
    ensures { IfOk result (λ numbers. numbers ≡ expr_path (plain_expr expr.now)) }
{
    let mut numbers = Sequence::new(alloc);
    find_call(expr, &mut numbers)?;
    Ok(numbers)
}

/// The path to the last call of a place.
pub(crate) fn path_to_call_in_place(
    alloc: Global,
    place: &Location,
) -> Result<Sequence<usize>, NoMemory>
    ensures { IfOk result (λ numbers. numbers ≡ place_path (plain_location place.now)) }
{
    let mut numbers = Sequence::new(alloc);
    find_in_place(place, &mut numbers)?;
    Ok(numbers)
}

/// Adds the path to the last call of an expression, and gives whether there is one.
#[cycle(searching)]
fn find_call(expr: &Expr, numbers: &mut Sequence<usize>) -> Result<bool, NoMemory>
    ensures { IfOk result (λ found. Finds numbers.old numbers.new found (expr_path (plain_expr expr.now))) }
{
    match &expr.form {
        Form::Literal(_) => Ok(false),
        Form::Read(place) => find_in_place(place, numbers),
        Form::Write { to, value, .. } => {
            let found = search(false, 2, value.get(), numbers)?;
            search_place(found, 1, to, numbers)
        }
        Form::Convert(value) => find_call(value.get(), numbers),
        Form::Unary { value, .. } => find_call(value.get(), numbers),
        Form::Binary { left, right, .. } => {
            let found = search(false, 2, right.get(), numbers)?;
            search(found, 1, left.get(), numbers)
        }
        Form::Choose { cond, yes, no } => {
            let found = search(false, 3, no.get(), numbers)?;
            let found = search(found, 2, yes.get(), numbers)?;
            search(found, 1, cond.get(), numbers)
        }
        Form::Build(parts) => find_in_exprs(parts.as_slice(), numbers),
        Form::Pick { value, .. } => find_call(value.get(), numbers),
        Form::Call { .. } => {
            numbers.push(0)?;
            Ok(true)
        }
        Form::Intrinsic { args, .. } => find_in_exprs(args.as_slice(), numbers),
        Form::Method { address, value, .. } => {
            let found = search_if(false, 2, value, numbers)?;
            search(found, 1, address.get(), numbers)
        }
        Form::Atomic {
            target,
            compare,
            value,
            original,
            ..
        } => {
            let found = search_place_if(false, 4, original, numbers)?;
            let found = search(found, 3, value.get(), numbers)?;
            let found = search_if(found, 2, compare, numbers)?;
            search_target(found, 1, target, numbers)
        }
    }
}

/// Adds the number of an operand behind the path in it.
fn add_number(found: bool, number: usize, numbers: &mut Sequence<usize>) -> Result<bool, NoMemory>
    ensures { IfOk result (λ same. (same ≡ found) × (numbers.new ≡ numbers.old ++ (if found then number ∷ [] else []))) }
{
    if found {
        numbers.push(number)?;
    }
    Ok(found)
}

/// Searches the operand of a number, unless there is a call behind it.
#[cycle(searching)]
fn search(
    found: bool,
    number: usize,
    expr: &Expr,
    numbers: &mut Sequence<usize>,
) -> Result<bool, NoMemory>
    ensures { (before : List ℕ) → (behind : List (List ℕ)) → Finds before numbers.old found (path_from (suc number) behind) → IfOk result (λ now. Finds before numbers.new now (path_from number (expr_path (plain_expr expr.now) ∷ behind))) }
{
    if found {
        return Ok(true);
    }
    let found = find_call(expr, numbers)?;
    add_number(found, number, numbers)
}

/// The same of a place.
#[cycle(searching)]
fn search_place(
    found: bool,
    number: usize,
    place: &Location,
    numbers: &mut Sequence<usize>,
) -> Result<bool, NoMemory>
    ensures { (before : List ℕ) → (behind : List (List ℕ)) → Finds before numbers.old found (path_from (suc number) behind) → IfOk result (λ now. Finds before numbers.new now (path_from number (place_path (plain_location place.now) ∷ behind))) }
{
    if found {
        return Ok(true);
    }
    let found = find_in_place(place, numbers)?;
    add_number(found, number, numbers)
}

/// The same of an expression that may be there.
#[cycle(searching)]
fn search_if(
    found: bool,
    number: usize,
    value: &Option<Boxed<Expr>>,
    numbers: &mut Sequence<usize>,
) -> Result<bool, NoMemory>
    ensures { (before : List ℕ) → (behind : List (List ℕ)) → Finds before numbers.old found (path_from (suc number) behind) → IfOk result (λ now. Finds before numbers.new now (path_from number (expr_if_path (plain_maybe_expr value.now) ∷ behind))) }
{
    match value {
        Some(value) => search(found, number, value.get(), numbers),
        None => Ok(found),
    }
}

/// The same of a place that may be there.
#[cycle(searching)]
fn search_place_if(
    found: bool,
    number: usize,
    place: &Option<Location>,
    numbers: &mut Sequence<usize>,
) -> Result<bool, NoMemory>
    ensures { (before : List ℕ) → (behind : List (List ℕ)) → Finds before numbers.old found (path_from (suc number) behind) → IfOk result (λ now. Finds before numbers.new now (path_from number (place_if_path (plain_maybe_location place.now) ∷ behind))) }
{
    match place {
        Some(place) => search_place(found, number, place, numbers),
        None => Ok(found),
    }
}

/// The same of the target of an atomic operation.
#[cycle(searching)]
fn search_target(
    found: bool,
    number: usize,
    target: &Target,
    numbers: &mut Sequence<usize>,
) -> Result<bool, NoMemory>
    ensures { (before : List ℕ) → (behind : List (List ℕ)) → Finds before numbers.old found (path_from (suc number) behind) → IfOk result (λ now. Finds before numbers.new now (path_from number (target_path (plain_target target.now) ∷ behind))) }
{
    match target {
        Target::Place(place) => search_place(found, number, place, numbers),
        Target::Bytes { address, .. } => search(found, number, address.get(), numbers),
    }
}

/// The same of the root of a place.
#[cycle(searching)]
fn search_root(
    found: bool,
    number: usize,
    root: &Root,
    numbers: &mut Sequence<usize>,
) -> Result<bool, NoMemory>
    ensures { (before : List ℕ) → (behind : List (List ℕ)) → Finds before numbers.old found (path_from (suc number) behind) → IfOk result (λ now. Finds before numbers.new now (path_from number (root_path (plain_root root.now) ∷ behind))) }
{
    match root {
        Root::Element { index, .. } => search(found, number, index.get(), numbers),
        Root::Variable(_) => Ok(found),
        Root::Constant(_) => Ok(found),
        Root::Shared(_) => Ok(found),
    }
}

/// The same of a step.
#[cycle(searching)]
fn search_part(
    found: bool,
    number: usize,
    part: &PathPart,
    numbers: &mut Sequence<usize>,
) -> Result<bool, NoMemory>
    ensures { (before : List ℕ) → (behind : List (List ℕ)) → Finds before numbers.old found (path_from (suc number) behind) → IfOk result (λ now. Finds before numbers.new now (path_from number (part_path (plain_part part.now) ∷ behind))) }
{
    match part {
        PathPart::Index(index) => search(found, number, index.get(), numbers),
        PathPart::Member(_) => Ok(found),
        PathPart::Swizzle(_) => Ok(found),
    }
}

/// Adds the path to the last call of a place.
#[cycle(searching)]
fn find_in_place(place: &Location, numbers: &mut Sequence<usize>) -> Result<bool, NoMemory>
    ensures { IfOk result (λ found. Finds numbers.old numbers.new found (place_path (plain_location place.now))) }
{
    let found = find_in_parts(place.parts.as_slice(), numbers)?;
    search_root(found, 1, &place.root, numbers)
}

/// Adds the path to the last call of steps, which stand behind a root.
#[cycle(searching)]
fn find_in_parts(parts: &[PathPart], numbers: &mut Sequence<usize>) -> Result<bool, NoMemory>
    ensures { IfOk result (λ found. Finds numbers.old numbers.new found (path_from 2 (parts_paths (plain_parts parts.now)))) }
{
    let mut found = false;
    for index in (0..parts.len()).rev() {
        found = search_part(found, index + 2, &parts[index], numbers)?;
    }
    Ok(found)
}

/// Adds the path to the last call of expressions in order.
#[cycle(searching)]
fn find_in_exprs(exprs: &[Expr], numbers: &mut Sequence<usize>) -> Result<bool, NoMemory>
    ensures { IfOk result (λ found. Finds numbers.old numbers.new found (path_among (exprs_paths (plain_exprs exprs.now)))) }
{
    let mut found = false;
    for index in (0..exprs.len()).rev() {
        found = search(found, index + 1, &exprs[index], numbers)?;
    }
    Ok(found)
}
