//! Where a function stands in a program without calls.

ghost use Rattle.std.specs.Prelude.{◌≡◌, ◌+◌, IfOk};

use base_core::NoMemory;
use hl_meaning::FunctionDef;
use std::alloc::Global;

/// A function that is put in place: the functions that it may call, how much further its variables stand, the variable
/// of its result, and the name that a `return` leaves.
#[derive(Clone, Copy)]
pub(crate) struct Context<'a> {
    pub alloc: Global,
    pub functions: &'a [FunctionDef],
    pub first: u32,
    pub result: u32,
    pub exit: u32,
}

/// The names that `break` and `continue` leave in the loop around.
#[derive(Clone, Copy)]
pub(crate) struct Jumps {
    pub break_name: u32,
    pub continue_name: u32,
}

/// The number of a variable that stands `first` further.
///
/// # Errors
/// `NoMemory` where there are more variables than numbers.
pub(crate) fn shifted(first: u32, number: u32) -> Result<u32, NoMemory>
    ensures { IfOk result (λ sum. sum ≡ first + number) }
{
    match first.checked_add(number) {
        Some(sum) => Ok(sum),
        None => Err(NoMemory),
    }
}
