//! One search for each rule: where a module breaks it first.

ghost use Rattle.std.specs.Prelude.{◌≡◌, ◌↔◌, ◌<◌, IsTrue, IfSome, length};
ghost use Rattle.ir_core.specs.Metadata.{dxil_triple};
ghost use Rattle.ir_core.specs.ValidatorRules.{IsKnownName, IsPlain};
ghost use Rattle.dx_validate.specs.Places.{IsFirstFailure, HasKnownName, HasFineWidth};
ghost use Rattle.dx_validate.specs.Bodies.{IsFirstBodyFault, IsWithin};

use ir_core::{Function, Named, Ty};

/// The target triple of a shader.
const SHADER_TRIPLE: &[u8] = b"dxil-ms-dx";

/// Whether a triple is that of a shader.
pub fn is_shader_triple(triple: &[u8]) -> bool
    ensures { IsTrue result ↔ (triple.now ≡ dxil_triple) }
{
    triple == SHADER_TRIPLE
}

/// Whether a name of metadata is known.
pub fn is_known_name(name: &[u8]) -> bool
    ensures { IsTrue result ↔ IsKnownName name.now }
{
    name.starts_with(b"dx.") || name.starts_with(b"llvm.")
}

/// The first named metadata whose name isn't known.
pub fn first_unknown_name(named: &[Named]) -> Option<usize>
    ensures first { IsFirstFailure HasKnownName named.now result }
    ensures within { IfSome result (λ place. place < length named.now) }
{
    for (place, one) in named.iter().enumerate() {
        if !is_known_name(one.name.as_slice()) {
            return Some(place);
        }
    }
    None
}

/// Whether a type isn't an integer, or one of 1, 8, 16, 32 or 64 bits.
pub fn has_fine_width(ty: &Ty) -> bool
    ensures { IsTrue result ↔ HasFineWidth ty.now }
{
    match ty {
        Ty::Int(width) => matches!(*width, 1 | 8 | 16 | 32 | 64),
        _ => true,
    }
}

/// The first integer type of another width.
pub fn first_odd_width(types: &[Ty]) -> Option<usize>
    ensures first { IsFirstFailure HasFineWidth types.now result }
    ensures within { IfSome result (λ number. number < length types.now) }
{
    for (number, ty) in types.iter().enumerate() {
        if !has_fine_width(ty) {
            return Some(number);
        }
    }
    None
}

/// Whether a type number names a function type without parameters and without result.
pub fn is_plain(types: &[Ty], number: u32) -> bool
    ensures { IsTrue result ↔ IsPlain types.now number }
{
    match types.get(number as usize) {
        Some(Ty::Function { result, params }) => {
            params.is_empty() && matches!(types.get(*result as usize), Some(Ty::Void))
        }
        _ => false,
    }
}

/// Where the rule on bodies is broken: by the module as a whole, which has none, or by the function
/// at a place.
#[derive(Clone, Copy, Debug, PartialEq, Eq)]
pub enum BodyFault {
    Missing,
    At(usize),
}

/// The first place where the rule on bodies is broken: exactly one function has a body, and that one
/// has neither parameters nor a result.
pub fn first_body_fault(types: &[Ty], functions: &[Function]) -> Option<BodyFault>
    ensures first { IsFirstBodyFault types.now functions.now result }
    ensures within { IfSome result (IsWithin (length functions.now)) }
{
    let mut found = false;
    for (place, function) in functions.iter().enumerate() {
        if function.body.is_some() {
            if found || !is_plain(types, function.ty) {
                return Some(BodyFault::At(place));
            }
            found = true;
        }
    }
    if found {
        None
    } else {
        Some(BodyFault::Missing)
    }
}
