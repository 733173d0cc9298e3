//! What a lane of a text asks, in lines.

ghost use Rattle.std.specs.Prelude.{◌≡◌, ◌≤◌, ◌⊎◌, length, IfOk, IfErr, OnOk};
ghost use Rattle.dxil_driver.specs.Compiled.{most_source};
ghost use Rattle.dxil_driver.specs.declared.compiler.CompileFault.{CompileFault};
ghost use Rattle.dxil_driver.specs.CompileFaults.{HasProgramFault};
ghost use Rattle.trace_driver.specs.Traces.{IsRefusedText, IsTraced, Traces};

use crate::lines::run_lines;
use crate::request::Request;
use base_core::Bytes;
use dxil_driver::{CompileFault, program_of};
use hl_interpreter::run_lane;
use std::alloc::Global;

/// The lines of the lane that is asked for.
///
/// # Errors
/// Each fault exactly where the text has it in place of a program, and `Memory`, to which all others yield.
pub(crate) fn source_lines(
    alloc: Global,
    text: &[u8],
    request: &Request,
) -> Result<Bytes, CompileFault>
    ensures gives { IfOk result (Traces request.now text.now) }
    ensures cause { IfErr result (λ fault. (fault ≡ CompileFault.Memory) ⊎ HasProgramFault text.now request.now.entry fault) }
    ensures accepted { OnOk result (¬ IsRefusedText request.now text.now) }
    ensures complete { length text.now ≤ most_source → IsTraced request.now text.now → IfErr result (λ fault. fault ≡ CompileFault.Memory) }
{
    let entry = request.entry.as_slice();
    let program = program_of(alloc, text, entry)?;
    let replies = request.replies.as_slice();
    let run = run_lane(alloc, &program, request.lane, replies, request.turns)?;
    let lines = run_lines(alloc, &run)?;
    Ok(lines)
}
