//! Sources whose programs without calls are known by hand.

use base_core::NoMemory;
use dxil_driver::program_of;
use hl_inline::{Flat, FlatStmt, inline};
use hl_meaning::{Expr, Form, Program, sizes};
use std::alloc::Global;
use std::test::Fail;

/// The greatest number of bytes of groupshared variables.
const MOST_SHARED_BYTES: u64 = 32768;

/// What a program becomes, unless its groupshared variables are too large.
fn without_calls(alloc: Global, program: &Program) -> Result<Option<Flat>, NoMemory> {
    let sizes = sizes(alloc, program)?;
    if sizes.shared_bytes > MOST_SHARED_BYTES {
        return Ok(None);
    }
    let flat = inline(alloc, program)?;
    Ok(Some(flat))
}

/// What a source becomes that has no fault.
fn flat_of(alloc: Global, text: &[u8]) -> Result<Option<Flat>, NoMemory> {
    match program_of(alloc, text, b"main") {
        Ok(program) => without_calls(alloc, &program),
        Err(_fault) => Ok(None),
    }
}

/// The statements of the entry's body.
fn body_of(flat: &Flat) -> &[FlatStmt] {
    match flat.body.as_slice() {
        [FlatStmt::Named { name: 0, body }] => match body.get() {
            FlatStmt::Block(stmts) => stmts.as_slice(),
            _ => &[],
        },
        _ => &[],
    }
}

/// Whether it sets a variable to what another one holds.
fn copies(stmt: &FlatStmt) -> bool {
    match stmt {
        FlatStmt::Run(
            Expr {
                form: Form::Write { op: None, .. },
                ..
            },
        ) => true,
        _ => false,
    }
}

#[test]
fn each_parameter_of_a_call_is_a_variable(rt: HostRuntime) -> Result<(), Fail> {
    let text =
        b"RWByteAddressBuffer dst : register(u0);\nvoid f(inout uint a, inout uint b) { a = a + 1; b = b + 10; }\n[numthreads(1,1,1)] void main() { uint x = 5; f(x, x); dst.Store(0, x); }";
    match flat_of(rt.alloc(), text)? {
        Some(flat) => {
            assert_eq!(rt; flat.variables.len(), 3);
            match body_of(&flat) {
                [
                    FlatStmt::Local { variable: 0, .. },
                    FlatStmt::Local { variable: 1, .. },
                    FlatStmt::Local { variable: 2, .. },
                    FlatStmt::Named { name: 1, .. },
                    first,
                    second,
                    FlatStmt::Run(_),
                ] => {
                    assert!(rt; copies(first));
                    assert!(rt; copies(second));
                }
                _ => assert!(rt; false),
            }
        }
        None => assert!(rt; false),
    }
    Ok(())
}

/// Whether a statement sets the variable of a number.
fn sets(stmt: Option<&FlatStmt>, number: u32) -> bool {
    match stmt {
        Some(FlatStmt::Local { variable, .. }) => *variable == number,
        _ => false,
    }
}

/// Whether it runs its body in the name of a number.
fn is_named(stmt: Option<&FlatStmt>, number: u32) -> bool {
    match stmt {
        Some(FlatStmt::Named { name, .. }) => *name == number,
        _ => false,
    }
}

/// Whether the variables 1 and 4 are set, each before a call, and then the variable 0.
fn calls_twice(stmts: &[FlatStmt]) -> bool {
    let first = sets(stmts.get(0), 1) && is_named(stmts.get(1), 1);
    let second = sets(stmts.get(2), 4) && is_named(stmts.get(3), 2);
    first && second && sets(stmts.get(4), 0) && stmts.len() == 6
}

#[test]
fn a_function_that_is_called_twice_has_its_variables_twice(rt: HostRuntime) -> Result<(), Fail> {
    let text =
        b"RWByteAddressBuffer dst : register(u0);\nuint h(uint v) { uint w = v * 2; return w; }\n[numthreads(1,1,1)] void main() { uint x = h(1) + h(2); dst.Store(0, x); }";
    match flat_of(rt.alloc(), text)? {
        Some(flat) => {
            assert_eq!(rt; flat.variables.len(), 7);
            assert!(rt; calls_twice(body_of(&flat)));
        }
        None => assert!(rt; false),
    }
    Ok(())
}

#[test]
fn a_call_in_the_condition_of_a_loop_stands_in_the_loop(rt: HostRuntime) -> Result<(), Fail> {
    let text =
        b"bool g(uint v) { return v < 3; }\n[numthreads(1,1,1)] void main() { uint x = 0; while (g(x)) x = x + 1; }";
    match flat_of(rt.alloc(), text)? {
        Some(flat) => {
            assert_eq!(rt; flat.variables.len(), 3);
            match turn_of(body_of(&flat)) {
                [
                    FlatStmt::Local { variable: 1, .. },
                    FlatStmt::Named { name: 3, .. },
                    FlatStmt::If { .. },
                    FlatStmt::Named { name: 2, .. },
                ] => {}
                _ => assert!(rt; false),
            }
        }
        None => assert!(rt; false),
    }
    Ok(())
}

/// The statements of a turn of a loop that stands behind a declaration.
fn turn_of(stmts: &[FlatStmt]) -> &[FlatStmt] {
    match stmts {
        [FlatStmt::Local { .. }, FlatStmt::Named { name: 1, body }] => match body.get() {
            FlatStmt::Loop(turn) => match turn.get() {
                FlatStmt::Block(stmts) => stmts.as_slice(),
                _ => &[],
            },
            _ => &[],
        },
        _ => &[],
    }
}

#[test]
fn a_call_in_an_argument_comes_before_the_call(rt: HostRuntime) -> Result<(), Fail> {
    let text =
        b"uint h(uint v) { return v * 2; }\n[numthreads(1,1,1)] void main() { uint x = h(h(1)); }";
    match flat_of(rt.alloc(), text)? {
        Some(flat) => {
            assert_eq!(rt; flat.variables.len(), 5);
            match body_of(&flat) {
                [
                    FlatStmt::Local { variable: 3, .. },
                    FlatStmt::Named { name: 2, .. },
                    FlatStmt::Local { variable: 1, .. },
                    FlatStmt::Named { name: 1, .. },
                    FlatStmt::Local { variable: 0, .. },
                ] => {}
                _ => assert!(rt; false),
            }
        }
        None => assert!(rt; false),
    }
    Ok(())
}

/// The statement that comes last inside another one.
fn last_inside(stmt: &FlatStmt) -> Option<&FlatStmt> {
    match stmt {
        FlatStmt::Block(stmts) => stmts.as_slice().last(),
        FlatStmt::Named { body, .. } => Some(body.get()),
        FlatStmt::Loop(body) => Some(body.get()),
        FlatStmt::If { yes, .. } => Some(yes.get()),
        _ => None,
    }
}

/// The last statement inside the last one, and so on, as deep as there is one.
fn innermost(stmt: &FlatStmt) -> &FlatStmt {
    let mut stmt = stmt;
    for _depth in 0..32 {
        match last_inside(stmt) {
            Some(inner) => stmt = inner,
            None => return stmt,
        }
    }
    stmt
}

/// Whether the first statement of a function in its name is left for that name, however deep it is nested.
fn is_left_from_inside(stmt: Option<&FlatStmt>) -> bool {
    match stmt {
        Some(FlatStmt::Named { name: 1, body }) => match body.get() {
            FlatStmt::Block(stmts) => match stmts.as_slice().first() {
                Some(first) => matches!(innermost(first), FlatStmt::Leave(1)),
                None => false,
            },
            _ => false,
        },
        _ => false,
    }
}

#[test]
fn a_return_in_nested_loops_leaves_the_function(rt: HostRuntime) -> Result<(), Fail> {
    let text =
        b"uint g(uint v) { while (true) { while (true) { v = v - 1; if (v < 3) return v; } } return 9; }\n[numthreads(1,1,1)] void main() { uint x = g(7); }";
    match flat_of(rt.alloc(), text)? {
        Some(flat) => {
            assert_eq!(rt; flat.variables.len(), 3);
            assert!(rt; is_left_from_inside(body_of(&flat).get(1)));
        }
        None => assert!(rt; false),
    }
    Ok(())
}
