//! The names of intrinsic functions, and what these take and give (HLSL, "Intrinsic Functions").

ghost use Rattle.std.specs.Prelude.{◌≡◌, ◌<◌, ◌≤◌, [], length, slice_index, slice_index_or};
ghost use Rattle.hl_meaning.specs.Intrinsics.{signature_of};
ghost use Rattle.hl_rules.specs.Intrinsics.{atomic_named, interlocked_form, intrinsic_named};
ghost use Rattle.hl_values.specs.Intrinsics.{intrinsic_names, name_slot};

use hl_meaning::{Kind, Signature};
use hl_rules::{Interlocked, Presence};
use lane_core::AtomicKind;
use sqlite_items::at;

/// How many intrinsic functions there are.
const COUNT: usize = 46;

/// How many bytes the shortest and the longest name have.
const SHORTEST_NAME: usize = 3;

const LONGEST_NAME: usize = 32;

/// How many slots there are.
const SLOT_COUNT: usize = 128;

/// The letters of all names, one after the other.
static LETTERS: [u8; 675] = *b"\
    abs\
    min\
    max\
    clamp\
    countbits\
    reversebits\
    firstbitlow\
    any\
    all\
    asuint\
    asint\
    InterlockedAdd\
    InterlockedAnd\
    InterlockedOr\
    InterlockedXor\
    InterlockedMin\
    InterlockedMax\
    InterlockedExchange\
    InterlockedCompareExchange\
    InterlockedCompareStore\
    GroupMemoryBarrier\
    GroupMemoryBarrierWithGroupSync\
    DeviceMemoryBarrier\
    DeviceMemoryBarrierWithGroupSync\
    AllMemoryBarrier\
    AllMemoryBarrierWithGroupSync\
    WaveIsFirstLane\
    WaveGetLaneIndex\
    WaveGetLaneCount\
    WaveActiveAnyTrue\
    WaveActiveAllTrue\
    WaveActiveBallot\
    WaveActiveAllEqual\
    WaveReadLaneAt\
    WaveReadLaneFirst\
    WaveActiveSum\
    WaveActiveProduct\
    WaveActiveMin\
    WaveActiveMax\
    WavePrefixSum\
    WavePrefixProduct\
    WaveActiveBitAnd\
    WaveActiveBitOr\
    WaveActiveBitXor\
    WaveActiveCountBits\
    WavePrefixCountBits";

/// Where the letters of each name begin, and at the end where those of the last one end.
static STARTS: [u16; COUNT + 1] = [
    0, 3, 6, 9, 14, 23, 34, 45, 48, 51, 57, 62, 76, 90, 103, 117, 131, 145, 164, 190, 213, 231,
    262, 281, 313, 329, 358, 373, 389, 405, 422, 439, 455, 473, 487, 504, 517, 534, 547, 560, 573,
    590, 606, 621, 637, 656, 675,
];

/// The number of the function whose name has a slot, or 255 where none has.
static SLOTS: [u8; SLOT_COUNT] = [
    4, 255, 255, 255, 25, 3, 255, 255, 255, 255, 255, 255, 255, 255, 255, 255, 255, 255, 255, 8,
    255, 255, 0, 45, 255, 255, 21, 23, 255, 255, 32, 255, 255, 255, 255, 34, 37, 255, 31, 18, 255,
    255, 255, 255, 2, 255, 255, 255, 22, 255, 255, 13, 255, 19, 255, 40, 44, 11, 255, 27, 255, 6,
    20, 255, 255, 255, 28, 42, 38, 15, 1, 255, 17, 255, 255, 255, 255, 255, 255, 30, 255, 12, 255,
    255, 10, 9, 255, 255, 33, 255, 255, 255, 255, 255, 29, 24, 255, 255, 41, 255, 7, 16, 255, 255,
    26, 255, 255, 255, 255, 14, 255, 255, 255, 255, 255, 255, 35, 255, 255, 255, 36, 255, 39, 255,
    255, 5, 43, 255,
];

/// What each function takes and gives.
static SIGNATURES: [Signature; COUNT] = [
    Signature::Numbers(1),
    Signature::Numbers(2),
    Signature::Numbers(2),
    Signature::Numbers(3),
    Signature::Uints,
    Signature::Uints,
    Signature::Uints,
    Signature::Truths,
    Signature::Truths,
    Signature::Bits(Kind::Uint),
    Signature::Bits(Kind::Int),
    Signature::Atomic,
    Signature::Atomic,
    Signature::Atomic,
    Signature::Atomic,
    Signature::Atomic,
    Signature::Atomic,
    Signature::Atomic,
    Signature::Atomic,
    Signature::Atomic,
    Signature::Barrier,
    Signature::Barrier,
    Signature::Barrier,
    Signature::Barrier,
    Signature::Barrier,
    Signature::Barrier,
    Signature::LaneTruth,
    Signature::LaneNumber,
    Signature::LaneNumber,
    Signature::Vote,
    Signature::Vote,
    Signature::Ballot,
    Signature::AllEqual,
    Signature::ReadLaneAt,
    Signature::ReadLaneFirst,
    Signature::Numbers(1),
    Signature::Numbers(1),
    Signature::Numbers(1),
    Signature::Numbers(1),
    Signature::Numbers(1),
    Signature::Numbers(1),
    Signature::Uints,
    Signature::Uints,
    Signature::Uints,
    Signature::CountTruths,
    Signature::CountTruths,
];

/// The number of the first interlocked operation.
const FIRST_INTERLOCKED: u8 = 11;

/// The interlocked operations, from the first one on.
static INTERLOCKED: [Interlocked; 9] = [
    Interlocked {
        compares: false,
        original: Presence::Perhaps,
        signed: Some(AtomicKind::Add),
        unsigned: Some(AtomicKind::Add),
    },
    Interlocked {
        compares: false,
        original: Presence::Perhaps,
        signed: Some(AtomicKind::And),
        unsigned: Some(AtomicKind::And),
    },
    Interlocked {
        compares: false,
        original: Presence::Perhaps,
        signed: Some(AtomicKind::Or),
        unsigned: Some(AtomicKind::Or),
    },
    Interlocked {
        compares: false,
        original: Presence::Perhaps,
        signed: Some(AtomicKind::Xor),
        unsigned: Some(AtomicKind::Xor),
    },
    Interlocked {
        compares: false,
        original: Presence::Perhaps,
        signed: Some(AtomicKind::IMin),
        unsigned: Some(AtomicKind::UMin),
    },
    Interlocked {
        compares: false,
        original: Presence::Perhaps,
        signed: Some(AtomicKind::IMax),
        unsigned: Some(AtomicKind::UMax),
    },
    Interlocked {
        compares: false,
        original: Presence::Always,
        signed: Some(AtomicKind::Exchange),
        unsigned: Some(AtomicKind::Exchange),
    },
    Interlocked {
        compares: true,
        original: Presence::Always,
        signed: None,
        unsigned: None,
    },
    Interlocked {
        compares: true,
        original: Presence::Never,
        signed: None,
        unsigned: None,
    },
];

/// The number of the intrinsic function of a name.
pub fn intrinsic_named(name: &[u8]) -> Option<u8>
    ensures { result ≡ intrinsic_named name.now }
{
    if name.len() < SHORTEST_NAME {
        return None;
    }
    if name.len() > LONGEST_NAME {
        return None;
    }
    let number = name_in(slot(name));
    if number as usize >= COUNT {
        return None;
    }
    if spelling(number) == name {
        Some(number)
    } else {
        None
    }
}

/// The slot of a name, which differs from function to function.
fn slot(name: &[u8]) -> usize
    requires some { 3 ≤ length name.now }
    requires short { length name.now ≤ 32 }
    ensures { result ≡ name_slot name.now }
{
    let middle = name[name.len() / 2] as usize;
    let later = name[name.len() * 3 / 4] as usize;
    let last_but_one = name[name.len() - 2] as usize;
    (name.len() + 5 * middle + 11 * later + 28 * last_but_one) % SLOT_COUNT
}

/// The number of the function whose name has a slot.
fn name_in(slot: usize) -> u8
    requires { slot < 128 }
    ensures { result ≡ slice_index SLOTS slot }
{
    SLOTS[slot]
}

/// The name of a function.
fn spelling(number: u8) -> &'static [u8]
    requires { number < 46 }
    ensures { result.now ≡ slice_index_or intrinsic_names number [] }
{
    let start = start_of(number as usize);
    let end = start_of(number as usize + 1);
    &letters()[start..end]
}

/// The letters of all names.
fn letters() -> &'static [u8]
    ensures { result.now ≡ LETTERS }
{
    &LETTERS
}

/// Where the letters of a name begin.
fn start_of(number: usize) -> usize
    requires { number ≤ 46 }
    ensures { result ≡ slice_index STARTS number }
{
    STARTS[number] as usize
}

/// What the function of a number takes and gives.
pub fn signature_of(number: u8) -> Option<Signature>
    ensures { result ≡ signature_of number }
{
    at(&SIGNATURES, number as usize).copied()
}

/// The interlocked operation that the function of a number is, if it is one.
pub fn interlocked_form(number: u8) -> Option<Interlocked>
    ensures { result ≡ interlocked_form number }
{
    if number < FIRST_INTERLOCKED {
        return None;
    }
    let place = number - FIRST_INTERLOCKED;
    at(&INTERLOCKED, place as usize).copied()
}

/// The interlocked operation of a name.
pub fn atomic_named(name: &[u8]) -> Option<Interlocked>
    ensures { result ≡ atomic_named name.now }
{
    let number = intrinsic_named(name);
    interlocked_form(number?)
}
