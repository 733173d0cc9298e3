//! What becomes of statements.
//!
//! A loop has two names: the one that `break` leaves stands around it, and the one that `continue` leaves around its
//! body.

ghost use Rattle.std.specs.Prelude.{◌≡◌, ◌++◌, IfOk, OnOk, option_map};
ghost use Rattle.hl_meaning.specs.Trees.{block_stmt, do_stmt, for_stmt, if_stmt, while_stmt};
ghost use Rattle.hl_meaning.specs.Views.{plain_expr, plain_function, plain_maybe_stmt, plain_stmt, plain_stmts};
ghost use Rattle.hl_inline.specs.Building.{branches_of, callees_in, do_turn, emit_turns, emitted_to, instance_in, left_of, plain_code, plain_fresh, plain_jumps, turn_of, while_turn};
ghost use Rattle.hl_inline.specs.EmittedCode.{emitted_then, emitted_with};
ghost use Rattle.hl_inline.specs.EmittedExpressions.{emitted};
ghost use Rattle.hl_inline.specs.EmittedStatements.{Jumps as PlainJumps, emit_body, emit_local, emit_return, emit_run, emit_run_if, emit_stmt, emit_stmt_if, emit_stmts, emit_test, emit_test_if, is_call, jumps_of, set_to, with_jumps};
ghost use Rattle.hl_inline.specs.InlinedFunctions.{inlined, zeros_first};

use crate::adding::{
    add_block, add_choice, add_leave, add_loop, add_named, add_run, add_set, add_test, add_zeros,
};
use crate::context::{Context, Jumps, shifted};
use crate::emitting::emit;
use crate::flat::FlatStmts;
use crate::fresh::Fresh;
use crate::undeclared_uses::variables_used_undeclared;
use base_core::NoMemory;
use hl_meaning::{Expr, Form, FunctionDef, Stmt, Stmts};
use sqlite_items::Boxed;

/// No loop is around.
const OUTSIDE_LOOPS: Jumps = Jumps {
    break_name: 0,
    continue_name: 0,
};

/// A function in place. Variables that may be used before their declaration are set to zeros first.
#[cycle(inlining)]
fn emit_function(
    context: &Context,
    function: &FunctionDef,
    fresh: &mut Fresh,
    code: &mut FlatStmts,
) -> Result<(), NoMemory>
    ensures { OnOk result (emitted_with (plain_code code.old) ((inlined (callees_in context.now) (plain_function function.now)).body (instance_in context.now) (plain_fresh fresh.old)) ≡ emitted_to (plain_code code.new) (plain_fresh fresh.new)) }
{
    emit_zeros(context, function, code)?;
    emit_stmts(context, OUTSIDE_LOOPS, &function.body, fresh, code)
}

/// The same as statements of their own.
///
/// # Errors
/// `NoMemory` where memory is refused, as in each call below.
#[cycle(inlining)]
pub(crate) fn function_code(
    context: &Context,
    function: &FunctionDef,
    fresh: &mut Fresh,
) -> Result<FlatStmts, NoMemory>
    ensures { IfOk result (λ code. (inlined (callees_in context.now) (plain_function function.now)).body (instance_in context.now) (plain_fresh fresh.old) ≡ emitted_to (plain_code code) (plain_fresh fresh.new)) }
{
    let mut code = FlatStmts::new(context.alloc);
    emit_function(context, function, fresh, &mut code)?;
    Ok(code)
}

/// Sets the variables to zeros that may be used before their declaration.
fn emit_zeros(
    context: &Context,
    function: &FunctionDef,
    code: &mut FlatStmts,
) -> Result<(), NoMemory>
    ensures { OnOk result (plain_code code.new ≡ plain_code code.old ++ zeros_first (instance_in context.now) (plain_function function.now)) }
{
    let used_undeclared = variables_used_undeclared(context.alloc, function)?;
    for number in used_undeclared.as_slice() {
        let variable = shifted(context.first, *number)?;
        add_zeros(variable, code)?;
    }
    Ok(())
}

/// Statements one after another.
#[cycle(inlining)]
fn emit_stmts(
    context: &Context,
    jumps: Jumps,
    stmts: &Stmts,
    fresh: &mut Fresh,
    code: &mut FlatStmts,
) -> Result<(), NoMemory>
    ensures { OnOk result (emitted_with (plain_code code.old) (emit_stmts (callees_in context.now) (instance_in context.now) (plain_jumps jumps) (plain_stmts stmts.now) (plain_fresh fresh.old)) ≡ emitted_to (plain_code code.new) (plain_fresh fresh.new)) }
{
    for stmt in stmts.as_slice() {
        emit_stmt(context, jumps, stmt, fresh, code)?;
    }
    Ok(())
}

/// The same as statements of their own.
#[cycle(inlining)]
fn stmts_code(
    context: &Context,
    jumps: Jumps,
    stmts: &Stmts,
    fresh: &mut Fresh,
) -> Result<FlatStmts, NoMemory>
    ensures { IfOk result (λ code. emit_stmts (callees_in context.now) (instance_in context.now) (plain_jumps jumps) (plain_stmts stmts.now) (plain_fresh fresh.old) ≡ emitted_to (plain_code code) (plain_fresh fresh.new)) }
{
    let mut code = FlatStmts::new(context.alloc);
    emit_stmts(context, jumps, stmts, fresh, &mut code)?;
    Ok(code)
}

/// A statement.
#[cycle(inlining)]
fn emit_stmt(
    context: &Context,
    jumps: Jumps,
    stmt: &Stmt,
    fresh: &mut Fresh,
    code: &mut FlatStmts,
) -> Result<(), NoMemory>
    ensures { OnOk result (emitted_with (plain_code code.old) (emit_stmt (callees_in context.now) (instance_in context.now) (plain_jumps jumps) (plain_stmt stmt.now) (plain_fresh fresh.old)) ≡ emitted_to (plain_code code.new) (plain_fresh fresh.new)) }
{
    match stmt {
        Stmt::Block(body) => emit_block(context, jumps, body, fresh, code),
        Stmt::Local { variable, init } => emit_local(context, *variable, init, fresh, code),
        Stmt::Run(value) => emit_run(context, value, fresh, code),
        Stmt::If { cond, yes, no } => emit_if(context, jumps, cond, yes.get(), no, fresh, code),
        Stmt::For {
            init,
            cond,
            step,
            body,
        } => emit_for(context, jumps, init, cond, step, body.get(), fresh, code),
        Stmt::While { cond, body } => emit_while(context, cond, body.get(), fresh, code),
        Stmt::Do { body, cond } => emit_do(context, body.get(), cond, fresh, code),
        Stmt::Break => add_leave(jumps.break_name, code),
        Stmt::Continue => add_leave(jumps.continue_name, code),
        Stmt::Return(value) => emit_return(context, value, fresh, code),
    }
}

/// The same as statements of their own.
#[cycle(inlining)]
fn stmt_code(
    context: &Context,
    jumps: Jumps,
    stmt: &Stmt,
    fresh: &mut Fresh,
) -> Result<FlatStmts, NoMemory>
    ensures { IfOk result (λ code. emit_stmt (callees_in context.now) (instance_in context.now) (plain_jumps jumps) (plain_stmt stmt.now) (plain_fresh fresh.old) ≡ emitted_to (plain_code code) (plain_fresh fresh.new)) }
{
    let mut code = FlatStmts::new(context.alloc);
    emit_stmt(context, jumps, stmt, fresh, &mut code)?;
    Ok(code)
}

/// The same of a statement that may be there.
#[cycle(inlining)]
fn stmt_if_code(
    context: &Context,
    jumps: Jumps,
    stmt: &Option<Boxed<Stmt>>,
    fresh: &mut Fresh,
) -> Result<FlatStmts, NoMemory>
    ensures { IfOk result (λ code. emit_stmt_if (callees_in context.now) (instance_in context.now) (plain_jumps jumps) (plain_maybe_stmt stmt.now) (plain_fresh fresh.old) ≡ emitted_to (plain_code code) (plain_fresh fresh.new)) }
{
    match stmt {
        Some(stmt) => stmt_code(context, jumps, stmt.get(), fresh),
        None => Ok(FlatStmts::new(context.alloc)),
    }
}

/// A block.
#[cycle(inlining)]
fn emit_block(
    context: &Context,
    jumps: Jumps,
    body: &Stmts,
    fresh: &mut Fresh,
    code: &mut FlatStmts,
) -> Result<(), NoMemory>
    ensures { OnOk result (emitted_with (plain_code code.old) (emit_stmt (callees_in context.now) (instance_in context.now) (plain_jumps jumps) (block_stmt (plain_stmts body.now)) (plain_fresh fresh.old)) ≡ emitted_to (plain_code code.new) (plain_fresh fresh.new)) }
{
    let inner = stmts_code(context, jumps, body, fresh)?;
    add_block(inner, code)
}

/// The declaration of a variable.
#[cycle(inlining)]
fn emit_local(
    context: &Context,
    variable: u32,
    init: &Option<Expr>,
    fresh: &mut Fresh,
    code: &mut FlatStmts,
) -> Result<(), NoMemory>
    ensures { OnOk result (emitted_with (plain_code code.old) (emit_local (callees_in context.now) (instance_in context.now) variable (option_map plain_expr init.now) (plain_fresh fresh.old)) ≡ emitted_to (plain_code code.new) (plain_fresh fresh.new)) }
{
    let variable = shifted(context.first, variable)?;
    match init {
        Some(init) => emit_set(context, variable, init, fresh, code),
        None => add_zeros(variable, code),
    }
}

/// A variable is set to a value.
#[cycle(inlining)]
fn emit_set(
    context: &Context,
    variable: u32,
    value: &Expr,
    fresh: &mut Fresh,
    code: &mut FlatStmts,
) -> Result<(), NoMemory>
    ensures { OnOk result (emitted_with (plain_code code.old) (set_to variable (emitted (callees_in context.now) (instance_in context.now) (plain_expr value.now) (plain_fresh fresh.old))) ≡ emitted_to (plain_code code.new) (plain_fresh fresh.new)) }
{
    let emitted = emit(context, value, fresh, code)?;
    add_set(variable, emitted.value, code)
}

/// A value that isn't used is computed all the same; nothing is left of a call.
#[cycle(inlining)]
fn emit_run(
    context: &Context,
    value: &Expr,
    fresh: &mut Fresh,
    code: &mut FlatStmts,
) -> Result<(), NoMemory>
    ensures { OnOk result (emitted_with (plain_code code.old) (emit_run (callees_in context.now) (instance_in context.now) (plain_expr value.now) (plain_fresh fresh.old)) ≡ emitted_to (plain_code code.new) (plain_fresh fresh.new)) }
{
    let emitted = emit(context, value, fresh, code)?;
    add_unless_call(value, emitted.value, code)
}

/// Adds what computes a value, unless it was a call.
fn add_unless_call(value: &Expr, left: Expr, code: &mut FlatStmts) -> Result<(), NoMemory>
    ensures { OnOk result (plain_code code.new ≡ left_of (is_call (plain_expr value.now)) (plain_code code.old) (plain_expr left)) }
{
    if is_call(value) {
        return Ok(());
    }
    add_run(left, code)
}

/// Whether an expression is a call.
fn is_call(expr: &Expr) -> bool
    ensures { result ≡ is_call (plain_expr expr.now) }
{
    matches!(&expr.form, Form::Call { .. })
}

/// A value that may be there, and isn't used.
#[cycle(inlining)]
fn emit_run_if(
    context: &Context,
    value: &Option<Expr>,
    fresh: &mut Fresh,
    code: &mut FlatStmts,
) -> Result<(), NoMemory>
    ensures { OnOk result (emitted_with (plain_code code.old) (emit_run_if (callees_in context.now) (instance_in context.now) (option_map plain_expr value.now) (plain_fresh fresh.old)) ≡ emitted_to (plain_code code.new) (plain_fresh fresh.new)) }
{
    match value {
        Some(value) => emit_run(context, value, fresh, code),
        None => Ok(()),
    }
}

/// `return`, whose value goes into the variable of the result.
#[cycle(inlining)]
fn emit_return(
    context: &Context,
    value: &Option<Expr>,
    fresh: &mut Fresh,
    code: &mut FlatStmts,
) -> Result<(), NoMemory>
    ensures { OnOk result (emitted_with (plain_code code.old) (emit_return (callees_in context.now) (instance_in context.now) (option_map plain_expr value.now) (plain_fresh fresh.old)) ≡ emitted_to (plain_code code.new) (plain_fresh fresh.new)) }
{
    match value {
        Some(value) => {
            emit_set(context, context.result, value, fresh, code)?;
            add_leave(context.exit, code)
        }
        None => add_leave(context.exit, code),
    }
}

/// An `if`. An alternative is left out where it does nothing.
#[cycle(inlining)]
fn emit_if(
    context: &Context,
    jumps: Jumps,
    cond: &Expr,
    consequent: &Stmt,
    alternative: &Option<Boxed<Stmt>>,
    fresh: &mut Fresh,
    code: &mut FlatStmts,
) -> Result<(), NoMemory>
    ensures { OnOk result (emitted_with (plain_code code.old) (emit_stmt (callees_in context.now) (instance_in context.now) (plain_jumps jumps) (if_stmt (plain_expr cond.now) (plain_stmt consequent.now) (plain_maybe_stmt alternative.now)) (plain_fresh fresh.old)) ≡ emitted_to (plain_code code.new) (plain_fresh fresh.new)) }
{
    let emitted = emit(context, cond, fresh, code)?;
    emit_branches(
        context,
        jumps,
        emitted.value,
        consequent,
        alternative,
        fresh,
        code,
    )
}

/// The branches of an `if` by the value of its condition.
#[cycle(inlining)]
fn emit_branches(
    context: &Context,
    jumps: Jumps,
    cond: Expr,
    consequent: &Stmt,
    alternative: &Option<Boxed<Stmt>>,
    fresh: &mut Fresh,
    code: &mut FlatStmts,
) -> Result<(), NoMemory>
    ensures { OnOk result (emitted_with (plain_code code.old) (branches_of (callees_in context.now) (instance_in context.now) (plain_jumps jumps) (plain_expr cond) (plain_stmt consequent.now) (plain_maybe_stmt alternative.now) (plain_fresh fresh.old)) ≡ emitted_to (plain_code code.new) (plain_fresh fresh.new)) }
{
    let yes = stmt_code(context, jumps, consequent, fresh)?;
    let no = stmt_if_code(context, jumps, alternative, fresh)?;
    add_choice(context.alloc, cond, yes, no, code)
}

/// The names of a loop.
fn take_jumps(fresh: &mut Fresh) -> Result<Jumps, NoMemory>
    ensures jumps { IfOk result (λ jumps. plain_jumps jumps ≡ jumps_of (plain_fresh fresh.old)) }
    ensures fresh { OnOk result (plain_fresh fresh.new ≡ with_jumps (plain_fresh fresh.old)) }
{
    let break_name = fresh.take_name()?;
    let continue_name = fresh.take_name()?;
    Ok(Jumps {
        break_name,
        continue_name,
    })
}

/// A `for`, in a block of its own.
#[cycle(inlining)]
fn emit_for(
    context: &Context,
    jumps: Jumps,
    init: &Stmts,
    cond: &Option<Expr>,
    step: &Option<Expr>,
    body: &Stmt,
    fresh: &mut Fresh,
    code: &mut FlatStmts,
) -> Result<(), NoMemory>
    ensures { OnOk result (emitted_with (plain_code code.old) (emit_stmt (callees_in context.now) (instance_in context.now) (plain_jumps jumps) (for_stmt (plain_stmts init.now) (option_map plain_expr cond.now) (option_map plain_expr step.now) (plain_stmt body.now)) (plain_fresh fresh.old)) ≡ emitted_to (plain_code code.new) (plain_fresh fresh.new)) }
{
    let block = for_block_code(context, jumps, init, cond, step, body, fresh)?;
    add_block(block, code)
}

/// What stands in the block of a `for`.
#[cycle(inlining)]
fn for_block_code(
    context: &Context,
    jumps: Jumps,
    init: &Stmts,
    cond: &Option<Expr>,
    step: &Option<Expr>,
    body: &Stmt,
    fresh: &mut Fresh,
) -> Result<FlatStmts, NoMemory>
    ensures { IfOk result (λ code. emitted_then (emit_stmts (callees_in context.now) (instance_in context.now) (plain_jumps jumps) (plain_stmts init.now) (plain_fresh fresh.old)) (λ f. emit_turns (callees_in context.now) (instance_in context.now) (option_map plain_expr cond.now) (option_map plain_expr step.now) (plain_stmt body.now) f) ≡ emitted_to (plain_code code) (plain_fresh fresh.new)) }
{
    let mut block = stmts_code(context, jumps, init, fresh)?;
    emit_turns(context, cond, step, body, fresh, &mut block)?;
    Ok(block)
}

/// The turns of a `for`.
#[cycle(inlining)]
fn emit_turns(
    context: &Context,
    cond: &Option<Expr>,
    step: &Option<Expr>,
    body: &Stmt,
    fresh: &mut Fresh,
    code: &mut FlatStmts,
) -> Result<(), NoMemory>
    ensures { OnOk result (emitted_with (plain_code code.old) (emit_turns (callees_in context.now) (instance_in context.now) (option_map plain_expr cond.now) (option_map plain_expr step.now) (plain_stmt body.now) (plain_fresh fresh.old)) ≡ emitted_to (plain_code code.new) (plain_fresh fresh.new)) }
{
    let jumps = take_jumps(fresh)?;
    let turn = for_turn_code(context, jumps, cond, step, body, fresh)?;
    add_loop(context.alloc, jumps.break_name, turn, code)
}

/// A turn of a `for`: the test, the body, and the step.
#[cycle(inlining)]
fn for_turn_code(
    context: &Context,
    jumps: Jumps,
    cond: &Option<Expr>,
    step: &Option<Expr>,
    body: &Stmt,
    fresh: &mut Fresh,
) -> Result<FlatStmts, NoMemory>
    ensures { IfOk result (λ code. turn_of (callees_in context.now) (instance_in context.now) (option_map plain_expr cond.now) (option_map plain_expr step.now) (plain_stmt body.now) (plain_jumps jumps) (plain_fresh fresh.old) ≡ emitted_to (plain_code code) (plain_fresh fresh.new)) }
{
    let mut turn = FlatStmts::new(context.alloc);
    emit_test_if(context, jumps.break_name, cond, fresh, &mut turn)?;
    emit_body(context, jumps, body, fresh, &mut turn)?;
    emit_run_if(context, step, fresh, &mut turn)?;
    Ok(turn)
}

/// A `while`.
#[cycle(inlining)]
fn emit_while(
    context: &Context,
    cond: &Expr,
    body: &Stmt,
    fresh: &mut Fresh,
    code: &mut FlatStmts,
) -> Result<(), NoMemory>
    ensures { (j : PlainJumps) → OnOk result (emitted_with (plain_code code.old) (emit_stmt (callees_in context.now) (instance_in context.now) j (while_stmt (plain_expr cond.now) (plain_stmt body.now)) (plain_fresh fresh.old)) ≡ emitted_to (plain_code code.new) (plain_fresh fresh.new)) }
{
    let jumps = take_jumps(fresh)?;
    let turn = while_turn_code(context, jumps, cond, body, fresh)?;
    add_loop(context.alloc, jumps.break_name, turn, code)
}

/// A turn of a `while`: the test, and the body.
#[cycle(inlining)]
fn while_turn_code(
    context: &Context,
    jumps: Jumps,
    cond: &Expr,
    body: &Stmt,
    fresh: &mut Fresh,
) -> Result<FlatStmts, NoMemory>
    ensures { IfOk result (λ code. while_turn (callees_in context.now) (instance_in context.now) (plain_expr cond.now) (plain_stmt body.now) (plain_jumps jumps) (plain_fresh fresh.old) ≡ emitted_to (plain_code code) (plain_fresh fresh.new)) }
{
    let mut turn = FlatStmts::new(context.alloc);
    emit_test(context, jumps.break_name, cond, fresh, &mut turn)?;
    emit_body(context, jumps, body, fresh, &mut turn)?;
    Ok(turn)
}

/// A `do`.
#[cycle(inlining)]
fn emit_do(
    context: &Context,
    body: &Stmt,
    cond: &Expr,
    fresh: &mut Fresh,
    code: &mut FlatStmts,
) -> Result<(), NoMemory>
    ensures { (j : PlainJumps) → OnOk result (emitted_with (plain_code code.old) (emit_stmt (callees_in context.now) (instance_in context.now) j (do_stmt (plain_stmt body.now) (plain_expr cond.now)) (plain_fresh fresh.old)) ≡ emitted_to (plain_code code.new) (plain_fresh fresh.new)) }
{
    let jumps = take_jumps(fresh)?;
    let turn = do_turn_code(context, jumps, body, cond, fresh)?;
    add_loop(context.alloc, jumps.break_name, turn, code)
}

/// A turn of a `do`: the body, and the test.
#[cycle(inlining)]
fn do_turn_code(
    context: &Context,
    jumps: Jumps,
    body: &Stmt,
    cond: &Expr,
    fresh: &mut Fresh,
) -> Result<FlatStmts, NoMemory>
    ensures { IfOk result (λ code. do_turn (callees_in context.now) (instance_in context.now) (plain_stmt body.now) (plain_expr cond.now) (plain_jumps jumps) (plain_fresh fresh.old) ≡ emitted_to (plain_code code) (plain_fresh fresh.new)) }
{
    let mut turn = FlatStmts::new(context.alloc);
    emit_body(context, jumps, body, fresh, &mut turn)?;
    emit_test(context, jumps.break_name, cond, fresh, &mut turn)?;
    Ok(turn)
}

/// The body of a loop, inside what a `continue` leaves.
#[cycle(inlining)]
fn emit_body(
    context: &Context,
    jumps: Jumps,
    body: &Stmt,
    fresh: &mut Fresh,
    code: &mut FlatStmts,
) -> Result<(), NoMemory>
    ensures { OnOk result (emitted_with (plain_code code.old) (emit_body jumps.continue_name (emit_stmt (callees_in context.now) (instance_in context.now) (plain_jumps jumps) (plain_stmt body.now) (plain_fresh fresh.old))) ≡ emitted_to (plain_code code.new) (plain_fresh fresh.new)) }
{
    let inner = stmt_code(context, jumps, body, fresh)?;
    add_named(context.alloc, jumps.continue_name, inner, code)
}

/// The test of a loop: unless the condition holds, the loop is left.
#[cycle(inlining)]
fn emit_test(
    context: &Context,
    name: u32,
    cond: &Expr,
    fresh: &mut Fresh,
    code: &mut FlatStmts,
) -> Result<(), NoMemory>
    ensures { OnOk result (emitted_with (plain_code code.old) (emit_test (callees_in context.now) (instance_in context.now) name (plain_expr cond.now) (plain_fresh fresh.old)) ≡ emitted_to (plain_code code.new) (plain_fresh fresh.new)) }
{
    let emitted = emit(context, cond, fresh, code)?;
    add_test(context.alloc, name, emitted.value, code)
}

/// The test of a `for`, which goes on without one.
#[cycle(inlining)]
fn emit_test_if(
    context: &Context,
    name: u32,
    cond: &Option<Expr>,
    fresh: &mut Fresh,
    code: &mut FlatStmts,
) -> Result<(), NoMemory>
    ensures { OnOk result (emitted_with (plain_code code.old) (emit_test_if (callees_in context.now) (instance_in context.now) name (option_map plain_expr cond.now) (plain_fresh fresh.old)) ≡ emitted_to (plain_code code.new) (plain_fresh fresh.new)) }
{
    match cond {
        Some(cond) => emit_test(context, name, cond, fresh, code),
        None => Ok(()),
    }
}
