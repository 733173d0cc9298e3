//! The block VALUE_SYMTAB: the names of the functions.

ghost use Rattle.std.specs.Prelude.{◌≡◌, All, IfOk, OnOk};
ghost use Rattle.bc_stream.specs.Blocks.{parts_contents};
ghost use Rattle.bc_records.specs.Entries.{IsText};
ghost use Rattle.bc_records.specs.Written.{symbols_contents};

use crate::codes::SYMBOL_ENTRY;
use crate::push::push_text;
use base_core::NoMemory;
use bc_stream::{Parts, no_parts};
use ir_core::Functions;
use std::alloc::Global;

/// The parts of the block of names.
///
/// # Errors
/// `NoMemory` where memory is refused.
pub fn symbols_parts(alloc: Global, functions: &Functions) -> Result<Parts, NoMemory>
    ensures value { IfOk result (λ parts. parts_contents parts ≡ symbols_contents functions.now) }
    ensures range { OnOk result (All (λ f. IsText f.name) functions.now) }
{
    let mut parts = no_parts(alloc);
    let all = functions.as_slice();
    for (value, function) in all.iter().enumerate() {
        push_text(
            alloc,
            &mut parts,
            SYMBOL_ENTRY,
            &[value as u64],
            &function.name,
        )?;
    }
    Ok(parts)
}
