//! How many words types have.

ghost use Rattle.std.specs.Prelude.{◌≡◌, IfOk};
ghost use Rattle.hl_meaning.specs.Layout.{words_of};
ghost use Rattle.hl_meaning.specs.Views.{plain_structs, plain_ty};

use base_core::NoMemory;
use hl_meaning::{HlType, Program, stopped_words_of};

/// The words of a type.
///
/// # Errors
/// `NoMemory` where they are too many to be held.
pub fn words_of(program: &Program, ty: &HlType) -> Result<u32, NoMemory>
    ensures { IfOk result (λ words. words ≡ words_of (plain_structs program.now.structs) (plain_ty ty.now)) }
{
    let words = stopped_words_of(program, ty);
    if words > u64::from(u32::MAX) {
        return Err(NoMemory);
    }
    Ok(words as u32)
}
