//! The faults of the blocks FUNCTION.

ghost use Rattle.std.specs.Prelude.{◌≡◌, ◌<◌, ◌^◌, ◌+◌, ◌&&◌, drop};
ghost use Rattle.std.specs.List.{list_all};
ghost use Rattle.bc_records.specs.Entries.{entry};
ghost use Rattle.bc_records.specs.BodyRecords.{absolute};
ghost use Rattle.bc_records.specs.KnownTables.{known_by};
ghost use Rattle.bc_records.specs.RecordKinds.{call_counts, call_names, entry_has_value, names_operand, function_type_at, operand};

use crate::codes::INST_CALL;
use crate::faults::known::{are_same_type, function_type, is_value_type, signature};
use crate::faults::operands::{fits_word, operand_at};
use crate::faults::tables::Tables;

/// The value that an operand names, where the next value has this number.
#[inline(always)]
fn named_value(next: u64, operand: u64) -> u64
    requires { next < 2 ^ 63 }
    ensures { result ≡ absolute next operand }
{
    (next + 4294967296 - operand % 4294967296) % 4294967296
}

/// Whether each argument is a word that names a value.
fn all_name_values(values: u64, next: u64, arguments: &[u64]) -> bool
    requires { next < 2 ^ 63 }
    ensures { result ≡ list_all (names_operand values next) arguments.now }
{
    arguments.iter().all(|argument| fits_word(*argument) && named_value(next, *argument) < values)
}

/// The operands behind the first four, or none where there are fewer.
fn behind_four(operands: &[u64]) -> &[u64]
    ensures { result.now ≡ drop 4 operands.now }
{
    match operands {
        [_, _, _, _, rest @ ..] => rest,
        _ => &[],
    }
}

/// The type number of the function that a CALL calls.
fn callee_type(tables: &Tables, next: u64, operands: &[u64]) -> Option<u64>
    requires { next < 2 ^ 63 }
    ensures { result ≡ function_type_at (known_by tables.now) (absolute next (operand operands.now 3)) }
{
    function_type(tables, named_value(next, operand_at(operands, 3)))
}

/// Whether a record is an instruction that has a value.
pub fn has_value(tables: &Tables, next: u64, code: u32, operands: &[u64]) -> bool
    requires { next < 2 ^ 63 }
    ensures { result ≡ entry_has_value (known_by tables.now) next (entry code operands.now) }
{
    if code != INST_CALL {
        return false;
    }
    let ty = match callee_type(tables, next, operands) {
        Some(ty) => Some(ty),
        None => operands.get(2).copied(),
    };
    match ty {
        None => false,
        Some(ty) => match signature(tables, ty) {
            None => false,
            Some((result, _)) => is_value_type(tables, result),
        },
    }
}

/// Whether a CALL has as many operands as its function needs.
pub fn call_count_fits(tables: &Tables, next: u64, operands: &[u64]) -> bool
    requires { next < 2 ^ 63 }
    ensures { result ≡ call_counts (known_by tables.now) next operands.now }
{
    let called = match callee_type(tables, next, operands) {
        None => None,
        Some(ty) => signature(tables, ty),
    };
    match called {
        Some((_, params)) => { operands.len() >= 4 && behind_four(operands).len() == params.len() }
        None => {
            if next <= named_value(next, operand_at(operands, 3)) {
                operands.len() >= 5
            } else {
                operands.len() >= 4
            }
        }
    }
}

/// Whether the operands of a CALL name a function, its type and values.
pub fn call_names_fit(tables: &Tables, values: u64, next: u64, operands: &[u64]) -> bool
    requires { next < 2 ^ 63 }
    ensures { result ≡ call_names (known_by tables.now) values next operands.now }
{
    match callee_type(tables, next, operands) {
        None => false,
        Some(ty) => {
            fits_word(operand_at(operands, 3))
                && signature(tables, ty).is_some()
                && are_same_type(tables, operand_at(operands, 2), ty)
                && all_name_values(values, next, behind_four(operands))
        }
    }
}
