//! Programs become programs without calls.

ghost use Rattle.std.specs.Prelude.{◌≡◌, ◌≤◌, IfOk};
ghost use Rattle.lane_core.specs.SameLane.{SameLane};
ghost use Rattle.hl_meaning.specs.Held.{plain_program};
ghost use Rattle.hl_meaning.specs.Sums.{variable_words};
ghost use Rattle.hl_meaning.specs.Views.{plain_function};
ghost use Rattle.hl_source.specs.SourceLane.{source_lane};
ghost use Rattle.hl_inline.specs.Building.{emitted_to, inlined_all, named_body, plain_code, plain_fresh};
ghost use Rattle.hl_inline.specs.EmittedCode.{emitted_with};
ghost use Rattle.hl_inline.specs.Entering.{entry_before, entry_behind, plain_parts};
ghost use Rattle.hl_inline.specs.FlatLane.{flat_lane};
ghost use Rattle.hl_inline.specs.FlatWellFormed.{most_shared_words};
ghost use Rattle.hl_inline.specs.HeldFlat.{plain_flat};
ghost use Rattle.hl_inline.specs.InlinedFunctions.{inlined};
ghost use Rattle.hl_inline.specs.InlinedPrograms.{inlined_program};
ghost use Rattle.hl_inline.specs.Keeps.{Keeps};

use crate::calling::emit_named_body;
use crate::constants::set_constants;
use crate::context::Context;
use crate::entry::{entry_fresh, set_inputs};
use crate::flat::{Flat, FlatStmts};
use crate::fresh::Fresh;
use crate::parts::{copied_resources, copied_structs, copied_variables};
use base_core::NoMemory;
use hl_meaning::{FunctionDef, Program, Resources, StructDefs, Variables};
use std::alloc::Global;

/// The parts of a program without calls.
#[derive(Debug, Drop)]
struct Parts {
    structs: StructDefs,
    variables: Variables,
    resources: Resources,
    shared: Variables,
    threads: [u32; 3],
    body: FlatStmts,
}

/// The program without calls. Each call is replaced by the body of its function, with variables and names of its own.
/// It has the structs, buffers, groupshared variables and threads of the program, and each lane runs as it does there.
///
/// # Errors
/// `NoMemory` where memory is refused, and where more variables or names are needed than there are numbers.
pub fn inline(alloc: Global, program: &Program) -> Result<Flat, NoMemory>
    requires { variable_words (plain_program program.now).structs (plain_program program.now).shared ≤ most_shared_words }
    ensures kept { IfOk result (λ flat. Keeps (plain_program program.now) (plain_flat flat)) }
    ensures lane { IfOk result (λ flat. SameLane (source_lane (plain_program program.now)) (flat_lane (plain_flat flat))) }
{
    without_calls(alloc, program)
}

/// What the program becomes by its definition.
fn without_calls(alloc: Global, program: &Program) -> Result<Flat, NoMemory>
    requires { variable_words (plain_program program.now).structs (plain_program program.now).shared ≤ most_shared_words }
    ensures { IfOk result (λ flat. plain_flat flat ≡ inlined_program (plain_program program.now)) }
{
    let parts = flat_parts(alloc, program)?;
    let threads = parts.threads;
    Ok(Flat {
        structs: parts.structs,
        variables: parts.variables,
        resources: parts.resources,
        shared: parts.shared,
        threads,
        body: parts.body,
    })
}

/// The parts of the program without calls.
fn flat_parts(alloc: Global, program: &Program) -> Result<Parts, NoMemory>
    ensures { IfOk result (λ parts. plain_parts parts ≡ inlined_program (plain_program program.now)) }
{
    let threads = program.threads;
    let number = program.entry as usize;
    let functions = program.functions.as_slice();
    let entry = &functions[number];
    let callees = &functions[..number];
    let mut fresh = entry_fresh(alloc, program.constants.as_slice(), entry)?;
    let body = entry_code(alloc, program, callees, entry, &mut fresh)?;
    let structs = copied_structs(alloc, &program.structs)?;
    let resources = copied_resources(alloc, &program.resources)?;
    let shared = copied_variables(alloc, &program.shared)?;
    Ok(Parts {
        structs,
        variables: fresh.variables,
        resources,
        shared,
        threads,
        body,
    })
}

/// What sets the constants and the inputs, and the body of the entry.
fn entry_code(
    alloc: Global,
    program: &Program,
    callees: &[FunctionDef],
    entry: &FunctionDef,
    fresh: &mut Fresh,
) -> Result<FlatStmts, NoMemory>
    ensures { IfOk result (λ code. emitted_with (entry_before (plain_program program.now) (plain_function entry.now)) (named_body (inlined (inlined_all callees.now) (plain_function entry.now)) (entry_behind (plain_program program.now) (plain_fresh fresh.old)) (plain_fresh fresh.old)) ≡ emitted_to (plain_code code) (plain_fresh fresh.new)) }
{
    let first = program.constants.len() as u32;
    let context = Context {
        alloc,
        functions: callees,
        first,
        result: fresh.next(),
        exit: 0,
    };
    let mut code = FlatStmts::new(alloc);
    set_constants(alloc, &program.structs, &program.constants, &mut code)?;
    set_inputs(first, entry.parameters.as_slice(), &mut code)?;
    emit_named_body(&context, entry, fresh, &mut code)?;
    Ok(code)
}
