//! What the numbers of records name in the tables of MODULE.

ghost use Rattle.std.specs.Prelude.{◌≡◌, ◌<◌, length, slice_get, option_map};
ghost use Rattle.bc_records.specs.HeldEntries.{entry_form, signature_form};
ghost use Rattle.bc_records.specs.KnownTables.{known_by};
ghost use Rattle.bc_records.specs.RecordKinds.{function_type_at, has_pointer_to, is_function_type, is_value_type_at, module_value_count, same_type, signature_at};

use crate::codes::{TYPE_FUNCTION, TYPE_VOID};
use crate::faults::operands::fits_word;
use crate::faults::tables::Tables;
use bc_stream::Entry;

/// An entry of the type table.
fn type_at<'a>(tables: &Tables<'a>, ty: u64) -> Option<&'a Entry>
    ensures { slice_get (known_by tables.now).types ty ≡ option_map entry_form result }
{
    match tables.types.get(ty as usize) {
        None => None,
        Some(entry) => Some(*entry),
    }
}

/// The result and the parameters of a function type.
pub fn signature<'a>(tables: &Tables<'a>, ty: u64) -> Option<(u64, &'a [u64])>
    ensures { signature_at (known_by tables.now) ty ≡ option_map signature_form result }
{
    let entry = type_at(tables, ty)?;
    if entry.code != TYPE_FUNCTION {
        return None;
    }
    match entry.values.as_slice() {
        [_, result, params @ ..] => Some((*result, params)),
        _ => None,
    }
}

/// The type number of the function that has a value number.
pub fn function_type(tables: &Tables, value: u64) -> Option<u64>
    ensures { function_type_at (known_by tables.now) value ≡ result }
{
    match tables.functions.get(value as usize) {
        None => None,
        Some(operands) => operands.first().copied(),
    }
}

/// The number of values of the module.
pub fn value_count(tables: &Tables) -> u64
    ensures { result ≡ module_value_count (known_by tables.now) }
{
    tables.values
}

/// Whether a type number names a type of values.
pub fn is_value_type(tables: &Tables, ty: u64) -> bool
    ensures { result ≡ is_value_type_at (known_by tables.now) ty }
{
    match type_at(tables, ty) {
        None => false,
        Some(entry) => entry.code != TYPE_VOID,
    }
}

/// Whether two type numbers name the same function type.
pub fn are_same_type(tables: &Tables, a: u64, b: u64) -> bool
    ensures { result ≡ same_type (known_by tables.now) a b }
{
    if a == b {
        return signature(tables, a).is_some();
    }
    match (signature(tables, a), signature(tables, b)) {
        (Some(a), Some(b)) => a.0 == b.0 && a.1 == b.1,
        _ => false,
    }
}

/// Whether a type number names the type of a function whose value has a type.
pub fn is_type_of_function(tables: &Tables, ty: u64) -> bool
    ensures { result ≡ is_function_type (known_by tables.now) ty }
{
    fits_word(ty) && signature(tables, ty).is_some() && is_pointed(tables, ty)
}

/// Whether a pointer to a type of the table stands in it.
fn is_pointed(tables: &Tables, ty: u64) -> bool
    ensures { ty < length tables.now.types.items → result ≡ has_pointer_to (known_by tables.now) ty }
{
    match tables.pointed.get(ty as usize) {
        None => false,
        Some(pointed) => *pointed,
    }
}
