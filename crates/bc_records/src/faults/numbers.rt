//! The numbers of the values of a body.

ghost use Rattle.std.specs.Prelude.{◌≡◌, ◌+◌, ◌<◌, ◌^◌, IfOk, length};
ghost use Rattle.bc_stream.specs.Blocks.{parts_contents};
ghost use Rattle.bc_records.specs.Entries.{entries_in};
ghost use Rattle.bc_records.specs.BodyNumbers.{numbers_form};
ghost use Rattle.bc_records.specs.KnownTables.{known_by};
ghost use Rattle.bc_records.specs.RecordKinds.{first_operand, next_after, numbers_of, parameters_of};

use crate::codes::{CONSTANT_NULL, CONSTANTS_BLOCK, DECLAREBLOCKS};
use crate::faults::body::has_value;
use crate::faults::counts::{count_in_blocks, sum};
use crate::faults::known::signature;
use crate::faults::tables::Tables;
use base_core::NoMemory;
use bc_stream::Part;

/// Below this number stand the values before the instructions of a body.
const MOST_VALUES: u64 = 4611686018427387904;

/// The numbers of a body.
#[derive(Clone, Copy, Drop)]
pub struct BodyNumbers {
    /// The number of the first instruction's value.
    pub first: u64,
    /// How many values are known in the body.
    pub values: u64,
    /// How many basic blocks are declared, where that is said.
    pub blocks: Option<u64>,
}

/// How many parameters the function has that these operands declare.
fn parameter_count(tables: &Tables, function: &[u64]) -> u64
    ensures { result ≡ parameters_of (known_by tables.now) function.now }
{
    match function.first() {
        None => 0,
        Some(ty) => match signature(tables, *ty) {
            None => 0,
            Some((_, params)) => params.len() as u64,
        },
    }
}

/// The number of basic blocks that the first DECLAREBLOCKS says.
fn declared(parts: &[Part]) -> Option<u64>
    ensures { result ≡ first_operand 1 (entries_in (parts_contents parts.now)) }
{
    for part in parts {
        if let Part::Entry(entry) = part {
            if entry.code == DECLAREBLOCKS {
                return entry.values.as_slice().first().copied();
            }
        }
    }
    None
}

/// The number of the next value after all records of a body.
fn after_records(tables: &Tables, first: u64, parts: &[Part]) -> u64
    requires first { first < 2 ^ 62 }
    requires records { length parts.now < 2 ^ 31 }
    ensures { result ≡ next_after (known_by tables.now) first (entries_in (parts_contents parts.now)) }
{
    let mut next = first;
    for part in parts {
        if let Part::Entry(entry) = part {
            if has_value(tables, next, entry.code, entry.values.as_slice()) {
                next += 1;
            }
        }
    }
    next
}

/// The numbers of the body of the function that these operands declare.
///
/// # Errors
/// `NoMemory` where 2^62 values or more stand before its instructions.
pub fn body_numbers(
    tables: &Tables,
    function: &[u64],
    parts: &[Part],
) -> Result<BodyNumbers, NoMemory>
    requires { length parts.now < 2 ^ 31 }
    ensures numbers { IfOk result (λ numbers. numbers_form numbers ≡ numbers_of (known_by tables.now) function.now (parts_contents parts.now)) }
    ensures limit { IfOk result (λ numbers. numbers.first < 2 ^ 62) }
{
    let constants = count_in_blocks(CONSTANTS_BLOCK, CONSTANT_NULL, parts)?;
    let own = sum(parameter_count(tables, function), constants)?;
    let first = sum(tables.values, own)?;
    if first >= MOST_VALUES {
        return Err(NoMemory);
    }
    let values = after_records(tables, first, parts);
    let blocks = declared(parts);
    Ok(BodyNumbers {
        first,
        values,
        blocks,
    })
}
