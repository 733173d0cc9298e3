//! How much a program holds.

ghost use Rattle.std.specs.Prelude.{◌≡◌, [], map, IfOk};
ghost use Rattle.hl_meaning.specs.Held.{plain_program};
ghost use Rattle.hl_meaning.specs.Sizes.{sizes_of};
ghost use Rattle.hl_meaning.specs.Sums.{functions_sums, program_sums, stop_all};

use crate::counting::Counter;
use crate::program::Program;
use crate::size::Sizes;
use crate::statement_counting::{constants_words, function_sums, variables_words};
use crate::sums::{Sums, stop};
use base_core::NoMemory;
use std::alloc::Global;

/// How much a program holds. It takes time in proportion to the program, however often functions are called.
///
/// # Errors
/// `NoMemory` where memory is refused.
pub fn sizes(alloc: Global, program: &Program) -> Result<Sizes, NoMemory>
    ensures { IfOk result (λ sizes. sizes ≡ sizes_of (plain_program program.now)) }
{
    let whole = program_sums(alloc, program)?;
    let shared = variables_words(&program.structs, &program.shared);
    Ok(Sizes {
        size: whole.size,
        branches: whole.branches,
        depth: whole.depth,
        shared_bytes: stop(4 * shared),
        private_words: whole.private_words,
    })
}

/// What the entry of a program holds, and its constants.
fn program_sums(alloc: Global, program: &Program) -> Result<Sums, NoMemory>
    ensures { IfOk result (λ sums. sums ≡ stop_all (program_sums (plain_program program.now))) }
{
    let known = functions_sums(alloc, program)?;
    let constants = constants_words(&program.structs, &program.constants);
    let counter = Counter {
        structs: &program.structs,
        functions: known.as_slice(),
    };
    let entry = counter.callee_sums(program.entry);
    Ok(entry.both(Sums::memory(constants, constants)))
}

/// What each function of a program holds.
fn functions_sums(alloc: Global, program: &Program) -> Result<Vec<Sums>, NoMemory>
    ensures { IfOk result (λ known. known.items ≡ map stop_all (functions_sums (plain_program program.now).structs [] (plain_program program.now).functions)) }
{
    let mut known = Vec::new(alloc);
    for function in program.functions.as_slice() {
        let counter = Counter {
            structs: &program.structs,
            functions: known.as_slice(),
        };
        let sums = function_sums(&counter, function);
        known.push(sums)?;
    }
    Ok(known)
}
