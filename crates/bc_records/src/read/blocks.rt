//! The blocks of an id among the parts of a block.

ghost use Rattle.std.specs.Prelude.{◌≡◌, [], ◌∷◌, MatchOption};
ghost use Rattle.bc_stream.specs.Blocks.{Contents, before_part, parts_contents};
ghost use Rattle.bc_records.specs.Entries.{blocks_in};

use bc_stream::{Part, Parts};

/// What a part holds where it is a block of that id.
#[inline]
pub fn parts_of(part: &Part, id: u32) -> Option<&Parts>
    ensures { MatchOption result ((rest : Contents) → blocks_in id (before_part part.now rest) ≡ blocks_in id rest) (λ inner. (rest : Contents) → blocks_in id (before_part part.now rest) ≡ parts_contents inner.now ∷ blocks_in id rest) }
{
    match part {
        Part::Entry(_) => None,
        Part::Block(block) => {
            if block.id != id {
                return None;
            }
            Some(&block.parts)
        }
    }
}

/// What the first block of that id holds, and the parts behind it.
pub fn next_block(parts: &[Part], id: u32) -> Option<(&Parts, &[Part])>
    ensures { MatchOption result (blocks_in id (parts_contents parts.now) ≡ []) (λ next. blocks_in id (parts_contents parts.now) ≡ parts_contents next.0.now ∷ blocks_in id (parts_contents next.1.now)) }
{
    for (place, part) in parts.iter().enumerate() {
        if let Some(inner) = parts_of(part, id) {
            return Some((inner, &parts[place + 1..]));
        }
    }
    None
}
