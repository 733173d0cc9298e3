//! What is known of an expression, and what it becomes.

ghost use Rattle.std.specs.Prelude.{◌≡◌, IfOk};
ghost use Rattle.hl_values.specs.Views.{plain_type_if};

use base_core::{Bytes, NoMemory};
use hl_meaning::{Expr, HlType, Location};
use sqlite_items::Boxed;
use std::alloc::Global;

/// A copy of a type, where there is one.
///
/// # Errors
/// `NoMemory` where memory is refused.
pub fn copied_if(ty: &Option<HlType>, alloc: Global) -> Result<Option<HlType>, NoMemory>
    ensures { IfOk result (λ copy. plain_type_if copy ≡ plain_type_if ty.now) }
{
    match ty {
        Some(ty) => Ok(Some(ty.copied(alloc)?)),
        None => Ok(None),
    }
}

/// Whether an expression is a place. A place is known by its root: whether what it holds may be written, and whether it
/// is groupshared or in a writable structured buffer. A swizzle at its end has letters, the numbers of components.
#[derive(Debug, Drop)]
pub enum Standing {
    /// It isn't known.
    Unclear,
    /// A value that is no place.
    NoPlace,
    Place {
        writable: bool,
        atomic: bool,
        letters: Bytes,
    },
}

/// What an expression becomes.
#[derive(Debug, Drop)]
pub enum Code {
    /// A place, with the index of its first token.
    Place { at: usize, place: Boxed<Location> },
    Value(Boxed<Expr>),
}

/// An expression: its type (`Void` for no value, and none where a broken rule leaves none), whether it is a place, the
/// constant number that it is, and what it becomes, where it becomes something.
#[derive(Debug, Drop)]
pub struct Typed {
    pub ty: Option<HlType>,
    pub standing: Standing,
    pub number: Option<u32>,
    pub code: Option<Code>,
}
