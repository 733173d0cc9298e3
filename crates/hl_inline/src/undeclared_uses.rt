//! The variables of a function that may be used before their declaration.
//!
//! How often each variable is declared around a statement is counted. What a block declares ends with it.

ghost use Rattle.std.specs.Prelude.{◌≡◌, ℕ, ◌^◌, ◌<◌, ◌≤◌, Bool, false, List, ◌∷◌, IfOk, OnOk, length, option_map, replicate};
ghost use Rattle.std.specs.List.{range_with_len};
ghost use Rattle.base_core.specs.Limits.{most_parts};
ghost use Rattle.hl_meaning.specs.Views.{plain_expr, plain_function, plain_maybe_stmt, plain_stmt, plain_stmts};
ghost use Rattle.hl_inline.specs.Marking.{counts_of, declarations, declared_variable, mark_all, marked_numbers, marking, plain_usage};
ghost use Rattle.hl_inline.specs.Occurrences.{expr_occurrences, expr_option_occurrences};
ghost use Rattle.hl_inline.specs.UsedUndeclared.{declared_by, declared_in, parameter_numbers, undeclared, used_undeclared, used_undeclared_if, used_undeclared_in, variables_used_undeclared};

use crate::occurrences::note_expr;
use base_core::{NoMemory, Words};
use hl_meaning::{Expr, FunctionDef, Stmt, Stmts};
use sqlite_items::Boxed;
use std::alloc::Global;

/// How often each variable is declared, and whether it is used before that.
#[derive(Debug, Drop)]
pub(crate) struct Usage {
    pub declared: Vec<u32>,
    pub used_undeclared: Vec<bool>,
}

/// The variables of a function that may be used before their declaration, in order.
///
/// # Errors
/// `NoMemory` where memory is refused, as in each call below.
pub(crate) fn variables_used_undeclared(
    alloc: Global,
    function: &FunctionDef,
) -> Result<Words, NoMemory>
    ensures { IfOk result (λ numbers. numbers ≡ variables_used_undeclared (plain_function function.now)) }
{
    let mut usage = at_start(alloc, function)?;
    note_block(&mut usage, &function.body)?;
    numbers_of(alloc, usage.used_undeclared.as_slice())
}

/// The variables of the parameters are declared from the start.
fn at_start(alloc: Global, function: &FunctionDef) -> Result<Usage, NoMemory>
    ensures start { IfOk result (λ usage. plain_usage usage ≡ marking (parameter_numbers (plain_function function.now)) (replicate (length function.now.variables) false)) }
    ensures limit { length function.now.variables ≤ most_parts }
{
    let mut declared = Vec::new(alloc);
    let mut used_undeclared = Vec::new(alloc);
    let parameters = function.parameters.len();
    for number in 0..function.variables.len() {
        declared.push(count_at_start(parameters, number))?;
        used_undeclared.push(false)?;
    }
    Ok(Usage {
        declared,
        used_undeclared,
    })
}

/// How often a variable is declared at the start, behind so many parameters.
fn count_at_start(parameters: usize, number: usize) -> u32
    ensures { result ≡ declarations (range_with_len 0 parameters) number }
{
    if number < parameters { 1 } else { 0 }
}

/// The numbers of what is marked.
fn numbers_of(alloc: Global, marks: &[bool]) -> Result<Words, NoMemory>
    requires { length marks.now < 2 ^ 32 }
    ensures { IfOk result (λ numbers. numbers ≡ marked_numbers marks.now) }
{
    let mut numbers = Words::new(alloc);
    for (number, mark) in marks.iter().enumerate() {
        if *mark {
            numbers.push(number as u32)?;
        }
    }
    Ok(numbers)
}

/// Declares a variable.
fn declare(declared: &mut [u32], variable: u32) -> Result<(), NoMemory>
    ensures { (size : ℕ) → (known : List ℕ) → declared.old ≡ counts_of size known → OnOk result (declared.new ≡ counts_of size (variable ∷ known)) }
{
    let number = variable as usize;
    if number < declared.len() {
        let count = declared[number];
        if count == u32::MAX {
            return Err(NoMemory);
        }
        declared[number] = count + 1;
    }
    Ok(())
}

/// Ends the declaration of a variable.
fn undeclare(declared: &mut [u32], variable: u32)
    ensures { (size : ℕ) → (known : List ℕ) → declared.old ≡ counts_of size (variable ∷ known) → declared.new ≡ counts_of size known }
{
    let number = variable as usize;
    if number < declared.len() && declared[number] > 0 {
        declared[number] -= 1;
    }
}

/// The variable that a statement declares, where it is a declaration.
fn declared_variable(stmt: &Stmt) -> Option<u32>
    ensures { result ≡ declared_variable (plain_stmt stmt.now) }
{
    match stmt {
        Stmt::Local { variable, .. } => Some(*variable),
        Stmt::Block(_) => None,
        Stmt::Run(_) => None,
        Stmt::If { .. } => None,
        Stmt::For { .. } => None,
        Stmt::While { .. } => None,
        Stmt::Do { .. } => None,
        Stmt::Break => None,
        Stmt::Continue => None,
        Stmt::Return(_) => None,
    }
}

/// Declares what a statement declares.
fn declare_by(declared: &mut [u32], stmt: &Stmt) -> Result<(), NoMemory>
    ensures { (size : ℕ) → (known : List ℕ) → declared.old ≡ counts_of size known → OnOk result (declared.new ≡ counts_of size (declared_by known (plain_stmt stmt.now))) }
{
    match declared_variable(stmt) {
        Some(variable) => declare(declared, variable),
        None => Ok(()),
    }
}

/// Ends what a statement declares.
fn undeclare_by(declared: &mut [u32], stmt: &Stmt)
    ensures { (size : ℕ) → (known : List ℕ) → declared.old ≡ counts_of size (declared_by known (plain_stmt stmt.now)) → declared.new ≡ counts_of size known }
{
    match declared_variable(stmt) {
        Some(variable) => undeclare(declared, variable),
        None => {}
    }
}

/// Ends the declarations among statements.
fn undeclare_all(usage: &mut Usage, stmts: &Stmts)
    ensures { (known : List ℕ) → (marks : List Bool) → plain_usage usage.old ≡ marking (declared_in known (plain_stmts stmts.now)) marks → plain_usage usage.new ≡ marking known marks }
{
    for stmt in stmts.as_slice() {
        undeclare_by(usage.declared.as_mut_slice(), stmt);
    }
}

/// Statements as a block.
#[cycle(walking)]
fn note_block(usage: &mut Usage, stmts: &Stmts) -> Result<(), NoMemory>
    ensures { (known : List ℕ) → (marks : List Bool) → plain_usage usage.old ≡ marking known marks → OnOk result (plain_usage usage.new ≡ marking known (mark_all (used_undeclared_in known (plain_stmts stmts.now)) marks)) }
{
    note_stmts(usage, stmts)?;
    undeclare_all(usage, stmts);
    Ok(())
}

/// Statements one after another, whose declarations go on.
#[cycle(walking)]
fn note_stmts(usage: &mut Usage, stmts: &Stmts) -> Result<(), NoMemory>
    ensures { (known : List ℕ) → (marks : List Bool) → plain_usage usage.old ≡ marking known marks → OnOk result (plain_usage usage.new ≡ marking (declared_in known (plain_stmts stmts.now)) (mark_all (used_undeclared_in known (plain_stmts stmts.now)) marks)) }
{
    for stmt in stmts.as_slice() {
        note_stmt(usage, stmt)?;
        declare_by(usage.declared.as_mut_slice(), stmt)?;
    }
    Ok(())
}

/// A statement.
#[cycle(walking)]
fn note_stmt(usage: &mut Usage, stmt: &Stmt) -> Result<(), NoMemory>
    ensures { (known : List ℕ) → (marks : List Bool) → plain_usage usage.old ≡ marking known marks → OnOk result (plain_usage usage.new ≡ marking known (mark_all (used_undeclared known (plain_stmt stmt.now)) marks)) }
{
    match stmt {
        Stmt::Block(body) => note_block(usage, body),
        Stmt::Local { init, .. } => {
            note_value_if(usage, init);
            Ok(())
        }
        Stmt::Run(value) => {
            note_value(usage, value);
            Ok(())
        }
        Stmt::If { cond, yes, no } => {
            note_value(usage, cond);
            note_stmt(usage, yes.get())?;
            note_stmt_if(usage, no)
        }
        Stmt::For {
            init,
            cond,
            step,
            body,
        } => {
            note_stmts(usage, init)?;
            note_value_if(usage, cond);
            note_value_if(usage, step);
            note_stmt(usage, body.get())?;
            undeclare_all(usage, init);
            Ok(())
        }
        Stmt::While { cond, body } => {
            note_value(usage, cond);
            note_stmt(usage, body.get())
        }
        Stmt::Do { body, cond } => {
            note_stmt(usage, body.get())?;
            note_value(usage, cond);
            Ok(())
        }
        Stmt::Break => Ok(()),
        Stmt::Continue => Ok(()),
        Stmt::Return(value) => {
            note_value_if(usage, value);
            Ok(())
        }
    }
}

/// A statement that may be there.
#[cycle(walking)]
fn note_stmt_if(usage: &mut Usage, stmt: &Option<Boxed<Stmt>>) -> Result<(), NoMemory>
    ensures { (known : List ℕ) → (marks : List Bool) → plain_usage usage.old ≡ marking known marks → OnOk result (plain_usage usage.new ≡ marking known (mark_all (used_undeclared_if known (plain_maybe_stmt stmt.now)) marks)) }
{
    match stmt {
        Some(stmt) => note_stmt(usage, stmt.get()),
        None => Ok(()),
    }
}

/// An expression.
fn note_value(usage: &mut Usage, value: &Expr)
    ensures { (known : List ℕ) → (marks : List Bool) → plain_usage usage.old ≡ marking known marks → plain_usage usage.new ≡ marking known (mark_all (undeclared known (expr_occurrences (plain_expr value.now))) marks) }
{
    note_expr(
        value,
        usage.declared.as_slice(),
        usage.used_undeclared.as_mut_slice(),
    );
}

/// An expression that may be there.
fn note_value_if(usage: &mut Usage, value: &Option<Expr>)
    ensures { (known : List ℕ) → (marks : List Bool) → plain_usage usage.old ≡ marking known marks → plain_usage usage.new ≡ marking known (mark_all (undeclared known (expr_option_occurrences (option_map plain_expr value.now))) marks) }
{
    match value {
        Some(value) => note_value(usage, value),
        None => {}
    }
}
