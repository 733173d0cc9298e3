//! What types are judged by.

ghost use Rattle.std.specs.Prelude.{◌≡◌, not};
ghost use Rattle.hl_meaning.specs.Types.{is_scalar};
ghost use Rattle.hl_rules.specs.ExpressionRules as rules;
ghost use Rattle.hl_rules.specs.Values.{is_known, valued};
ghost use Rattle.hl_values.specs.Views.{plain_type_if};

use hl_meaning::HlType;
use hl_values::{is_scalar, is_void, valued};

/// Whether a type is known, and is no value.
pub(crate) fn is_void_result(ty: &Option<HlType>) -> bool
    ensures { result ≡ rules.is_void_result (plain_type_if ty.now) }
{
    match ty {
        Some(ty) => is_void(ty),
        None => false,
    }
}

/// Whether a type of a value is known, and is no scalar.
pub(crate) fn is_no_scalar(ty: &Option<HlType>) -> bool
    ensures { result ≡ is_known (λ own. not (is_scalar own)) (valued (plain_type_if ty.now)) }
{
    match valued(ty) {
        Some(ty) => !is_scalar(ty),
        None => false,
    }
}
