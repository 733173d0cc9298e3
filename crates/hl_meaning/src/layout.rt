//! How many words types have, and where the parts of structs stand. A scalar is one word of 32 bits, and there is no
//! padding.

ghost use Rattle.std.specs.Prelude.{◌≡◌, ◌<◌, ◌≤◌, length, slice_get};
ghost use Rattle.hl_meaning.specs.Layout.{words_of};
ghost use Rattle.hl_meaning.specs.Views.{plain_structs, plain_ty};
ghost use Rattle.hl_meaning.specs.Stopping.{stopped};
ghost use Rattle.hl_meaning.specs.Held.{HasMember, HasWords, offset_in, plain_program};
ghost use Rattle.hl_meaning.specs.WellFormed.{most_words};

use crate::program::{Program, StructDef, StructDefs};
use crate::sums::stop;
use crate::ty::HlType;

/// The words of a type, which stop at 4294967296.
pub(crate) fn stopped_words(structs: &StructDefs, ty: &HlType) -> u64
    requires { HasWords (plain_structs structs.now) }
    ensures { result ≡ stopped (words_of (plain_structs structs.now) (plain_ty ty.now)) }
{
    match ty {
        HlType::Void => 0,
        HlType::Scalar(_) => 1,
        HlType::Vector(_, size) => u64::from(*size),
        HlType::Array(element, length) => {
            stop(u64::from(*length) * stopped_words(structs, element.get()))
        }
        HlType::Struct(number) => match structs.get(*number as usize) {
            Some(StructDef { words, .. }) => u64::from(*words),
            None => 0,
        },
    }
}

/// The words of a type, which stop at 4294967296: no word of 32 bits holds that many.
pub fn stopped_words_of(program: &Program, ty: &HlType) -> u64
    ensures { result ≡ stopped (words_of (plain_structs program.now.structs) (plain_ty ty.now)) }
{
    stopped_words(&program.structs, ty)
}

/// The words of a type.
pub fn words_of(program: &Program, ty: &HlType) -> u32
    requires { words_of (plain_program program.now).structs (plain_ty ty.now) ≤ most_words }
    ensures { result ≡ words_of (plain_program program.now).structs (plain_ty ty.now) }
{
    stopped_words(&program.structs, ty) as u32
}

/// The offset of a member of a struct in words, that is, the words of the members before it.
pub fn offset_of(program: &Program, structure: u32, member: u32) -> u32
    requires { HasMember (plain_program program.now) structure member }
    ensures { result ≡ offset_in (plain_program program.now) structure member }
{
    program.structs.as_slice()[structure as usize]
        .members
        .as_slice()[member as usize]
        .offset
}
