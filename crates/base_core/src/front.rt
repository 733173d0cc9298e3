//! A front of some bytes, copied.

ghost use Rattle.std.specs.Prelude.{◌≡◌, ◌<◌, [], ◌++◌, min, length, drop, take};

/// Copies at most `most` bytes as far as both have them, and answers how many these are.
#[tactic(auto, using(crate::proofs::Fronts::front_copied, crate::proofs::Fronts::rest_kept, crate::proofs::Fronts::nil_of_length))]
pub(crate) fn copy_front(bytes: &[u8], most: usize, into: &mut [u8]) -> usize
    ensures count { result ≡ min (min (length into.old) most) (length bytes.now) }
    ensures copied { into.new ≡ take result bytes.now ++ drop result into.old }
    ensures lost { bytes.now ≡ take result into.new ++ drop result bytes.now }
    ensures rest { drop result into.new ≡ drop result into.old }
    ensures end { 0 < most → result ≡ 0 → 0 < length into.new → bytes.now ≡ [] }
{
    let count = into.len().min(most).min(bytes.len());
    into[..count].copy_from_slice(&bytes[..count]);
    count
}
