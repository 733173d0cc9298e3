//! What the block MODULE says, faulty records too.

ghost use Rattle.std.specs.Prelude.{◌≡◌, ◌+◌, length};
ghost use Rattle.bc_records.specs.HeldEntries.{MarksPointers};

use bc_stream::Entry;

/// The entries of the type table and the operands of the functions as they stand, and how many constants and
/// metadata there are.
#[derive(Drop)]
pub struct Tables<'a> {
    pub types: Vec<&'a Entry>,
    pub functions: Vec<&'a [u64]>,
    pub constants: u64,
    pub metas: u64,
    /// The number of values of the module: its functions and constants.
    pub values: u64,
    /// For each type whether a pointer to it stands in the table.
    pub pointed: Vec<bool>,
    ghost counted: { values ≡ length functions.items + constants },
    ghost marked: { MarksPointers types.items pointed.items },
}
