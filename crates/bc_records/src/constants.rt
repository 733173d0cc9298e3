//! The blocks CONSTANTS: constants of the module or of a body.

ghost use Rattle.std.specs.Prelude.{◌≡◌, [], ◌∷◌, All, IfOk, OnOk, Some, map};
ghost use Rattle.bc_stream.specs.Blocks.{append, no_more, parts_contents};
ghost use Rattle.bc_records.specs.ConstantRecords.{constant_entry};
ghost use Rattle.bc_records.specs.Ranges.{ConstInRange};
ghost use Rattle.bc_records.specs.Written.{constant_record, constants_contents, listed, set_before, signed_number};

use crate::codes::{CONSTANT_INTEGER, CONSTANT_NULL, CONSTANT_SETTYPE, CONSTANT_UNDEF};
use crate::push::push_numbers;
use base_core::NoMemory;
use bc_stream::{Parts, no_parts};
use ir_core::{Const, ConstValue, Consts};
use std::alloc::Global;

/// A signed value as a record holds it: its size, above its sign as the lowest bit.
fn signed(value: i64) -> u64
    ensures { result ≡ signed_number value }
{
    if value >= 0 {
        return 2 * (value as u64);
    }
    if value == i64::MIN {
        return 1;
    }
    2 * (-value as u64) + 1
}

/// Adds the record of a constant, whose type is set before it.
fn push_value(alloc: Global, parts: &mut Parts, value: ConstValue) -> Result<(), NoMemory>
    ensures { OnOk result (parts_contents parts.new ≡ append (parts_contents parts.old) (listed (constant_entry (constant_record value) ∷ []) no_more)) }
{
    match value {
        ConstValue::Null => push_numbers(alloc, parts, CONSTANT_NULL, &[]),
        ConstValue::Undef => push_numbers(alloc, parts, CONSTANT_UNDEF, &[]),
        ConstValue::Int(number) => push_numbers(alloc, parts, CONSTANT_INTEGER, &[signed(number)]),
    }
}

/// Adds a record that sets a type, where it isn't the last one.
fn push_settype(
    alloc: Global,
    parts: &mut Parts,
    last_type: Option<u32>,
    ty: u32,
) -> Result<(), NoMemory>
    ensures { OnOk result (parts_contents parts.new ≡ append (parts_contents parts.old) (listed (map constant_entry (set_before last_type ty [])) no_more)) }
{
    if let Some(last) = last_type {
        if last == ty {
            return Ok(());
        }
    }
    push_numbers(alloc, parts, CONSTANT_SETTYPE, &[u64::from(ty)])
}

/// Adds the records of a constant.
fn push_constant(
    alloc: Global,
    parts: &mut Parts,
    last_type: Option<u32>,
    constant: &Const,
) -> Result<(), NoMemory>
    ensures ok { OnOk result (parts_contents parts.new ≡ append (parts_contents parts.old) (listed (map constant_entry (set_before last_type constant.now.ty (constant_record constant.now.value ∷ []))) no_more)) }
    ensures range { OnOk result (ConstInRange constant.now) }
{
    push_settype(alloc, parts, last_type, constant.ty)?;
    push_value(alloc, parts, constant.value)?;
    Ok(())
}

/// The parts of a block of constants.
///
/// # Errors
/// `NoMemory` where memory is refused.
pub fn constants_parts(alloc: Global, constants: &Consts) -> Result<Parts, NoMemory>
    ensures value { IfOk result (λ parts. parts_contents parts ≡ constants_contents constants.now) }
    ensures range { OnOk result (All ConstInRange constants.now) }
{
    let mut parts = no_parts(alloc);
    let mut last_type: Option<u32> = None;
    let all = constants.as_slice();
    for constant in all {
        push_constant(alloc, &mut parts, last_type, constant)?;
        last_type = Some(constant.ty);
    }
    Ok(parts)
}
