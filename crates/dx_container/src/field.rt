//! The fields of a container, which are little-endian.

ghost use Rattle.std.specs.Prelude.{◌≡◌, ◌+◌, ◌^◌, ◌<◌, ◌≤◌, ◌≢◌, length};
ghost use Rattle.std.specs.Bool.{OnTrue, OnFalse};
ghost use Rattle.dx_container.specs.Container.{half_at, word_at, name_at};

use byteorder::{ByteOrder, LittleEndian};

/// The number in the 16 bits from a place on.
#[tactic(auto, unfolding(crate::specs::Container::half_at))]
pub fn half(bytes: &[u8], at: usize) -> u16
    requires { at + 2 ≤ length bytes.now }
    ensures { result ≡ half_at bytes.now at }
{
    LittleEndian::read_u16(&bytes[at..])
}

/// The number in the 32 bits from a place on.
#[tactic(auto, unfolding(crate::specs::Container::word_at))]
pub fn word(bytes: &[u8], at: usize) -> usize
    requires { at + 4 ≤ length bytes.now }
    ensures value { result ≡ word_at bytes.now at }
    ensures limit { result < 2 ^ 32 }
{
    LittleEndian::read_u32(&bytes[at..]) as usize
}

/// Whether these four bytes stand at a place.
#[tactic(auto, unfolding(crate::specs::Container::name_at))]
pub fn is_name(bytes: &[u8], at: usize, name: &[u8]) -> bool
    requires { at + 4 ≤ length bytes.now }
    ensures yes { OnTrue result (name_at bytes.now at ≡ name.now) }
    ensures no { OnFalse result (name_at bytes.now at ≢ name.now) }
{
    &bytes[at..][..4] == name
}
