//! Whether a whole text is a name.

ghost use Rattle.std.specs.Prelude.{◌≡◌, ◌<◌, length, slice_index, MatchBool};
ghost use Rattle.hl_lexer.specs.declared.class.Class.TheVariants.{Letter};
ghost use Rattle.hl_lexer.specs.Scanning.{class_of};
ghost use Rattle.hl_lexer.specs.Tokens.{IsName};

use crate::class::{Class, class_of};
use crate::front::word_length;
use crate::word::word_number;

/// Whether a text is a name: a letter or `_`, then letters, digits and `_`, and no word of the
/// language (HLSL language specification, "Identifiers").
pub fn is_name(text: &[u8]) -> bool
    ensures { MatchBool result (IsName text.now) (¬ IsName text.now) }
{
    if text.is_empty() {
        return false;
    }
    match class_of(text[0]) {
        Class::Letter => goes_on_as_name(text),
        _ => false,
    }
}

/// Whether a text that begins with a letter or `_` is a name.
fn goes_on_as_name(text: &[u8]) -> bool
    requires some { 0 < length text.now }
    requires class { class_of (slice_index text.now 0) ≡ Letter }
    ensures { MatchBool result (IsName text.now) (¬ IsName text.now) }
{
    if word_length(text) < text.len() {
        return false;
    }
    word_number(text).is_none()
}
