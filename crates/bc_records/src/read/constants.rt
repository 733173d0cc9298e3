//! The constants of blocks CONSTANTS.

ghost use Rattle.std.specs.Prelude.{◌≡◌, ◌∷◌, ◌++◌, List, IfOk, OnOk, map};
ghost use Rattle.bc_stream.specs.Blocks.{parts_contents};
ghost use Rattle.bc_records.specs.ConstantRecords.{ConstantRecord, constants_of, signed_value};
ghost use Rattle.bc_records.specs.Entries.{entries_in, entry as an_entry};
ghost use Rattle.bc_records.specs.Read.{read_constant, read_constants};

use super::blocks::parts_of;
use super::operands::{number_at, word_at};
use crate::codes::{CONSTANT_NULL, CONSTANT_SETTYPE, CONSTANT_UNDEF, CONSTANTS_BLOCK};
use base_core::NoMemory;
use bc_stream::{Entry, Part, Parts};
use ir_core::{Const, ConstValue, Consts};
use std::alloc::Global;

/// A signed value of a record, whose size stands above its sign as the lowest bit.
fn signed(number: u64) -> i64
    ensures { result ≡ signed_value number }
{
    let size = (number / 2) as i64;
    if number % 2 == 0 {
        return size;
    }
    if number == 1 {
        return i64::MIN;
    }
    -size
}

/// Adds the constant of a record. A record SETTYPE sets the type of those that follow.
fn push_constant(constants: &mut Consts, ty: &mut u32, entry: &Entry) -> Result<(), NoMemory>
    ensures { OnOk result ((rest : List ConstantRecord) → constants.new ++ constants_of ty.new rest ≡ constants.old ++ constants_of ty.old (read_constant (an_entry entry.now.code entry.now.values) ∷ rest)) }
{
    let operands = entry.values.as_slice();
    let value = match entry.code {
        CONSTANT_SETTYPE => {
            *ty = word_at(operands, 0);
            return Ok(());
        }
        CONSTANT_NULL => ConstValue::Null,
        CONSTANT_UNDEF => ConstValue::Undef,
        _ => ConstValue::Int(signed(number_at(operands, 0))),
    };
    constants.push(Const { ty: *ty, value })
}

/// Adds the constants of a block CONSTANTS.
fn push_block(constants: &mut Consts, parts: &Parts) -> Result<(), NoMemory>
    ensures { OnOk result (constants.new ≡ constants.old ++ constants_of 0 (map read_constant (entries_in (parts_contents parts.now)))) }
{
    let mut ty = 0;
    for part in parts.as_slice() {
        match part {
            Part::Entry(entry) => push_constant(constants, &mut ty, entry)?,
            Part::Block(_) => {}
        }
    }
    Ok(())
}

/// The constants of the blocks CONSTANTS in a block.
///
/// # Errors
/// `NoMemory` where memory is refused.
pub fn constants_in(alloc: Global, inner: &Parts) -> Result<Consts, NoMemory>
    ensures { IfOk result (λ constants. constants ≡ read_constants (parts_contents inner.now)) }
{
    let mut constants = Consts::new(alloc);
    for part in inner.as_slice() {
        if let Some(parts) = parts_of(part, CONSTANTS_BLOCK) {
            push_block(&mut constants, parts)?;
        }
    }
    Ok(constants)
}
