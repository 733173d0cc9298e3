//! What each intrinsic function does.

ghost use Rattle.std.specs.Prelude.{◌≡◌, ◌<◌};
ghost use Rattle.hl_source.specs.Intrinsics.{work_of};
ghost use Rattle.hl_interpreter.specs.HeldWorks.{plain_wave, plain_work};

use crate::intrinsic_numbers as numbers;
use hl_meaning::Kind;
use lane_core::WaveKind;

/// In the mode of a barrier: all lanes of the group wait for one another (DXIL.rst, "Barrier").
const GROUP_SYNC: u8 = 1;
/// In the mode of a barrier: what was done before to buffers is seen behind it.
const BUFFER_MEMORY: u8 = 2;
/// In the mode of a barrier: what was done before to groupshared memory is seen behind it.
const GROUPSHARED_MEMORY: u8 = 8;

/// What a function computes of each word of its argument.
#[derive(Clone, Copy, Debug, PartialEq, Eq)]
pub(crate) enum OneWork {
    Absolute,
    CountBits,
    ReverseBits,
    FirstBitLow,
    SameBits,
}

/// What a function computes of each word of its first argument and that of its second one.
#[derive(Clone, Copy, Debug, PartialEq, Eq)]
pub(crate) enum TwoWork {
    Lesser,
    Greater,
}

/// How a function judges all words of its argument together.
#[derive(Clone, Copy, Debug, PartialEq, Eq)]
pub(crate) enum Judgement {
    Any,
    All,
}

/// What a function tells of the lane.
#[derive(Clone, Copy, Debug, PartialEq, Eq)]
pub(crate) enum Told {
    LaneIndex,
    WaveSize,
}

/// A wave operation, whose kind may hang on that of its argument.
#[derive(Clone, Copy, Debug, PartialEq, Eq)]
pub(crate) enum WaveWork {
    Always(WaveKind),
    BySign {
        signed: WaveKind,
        unsigned: WaveKind,
    },
}

/// What an intrinsic function does.
#[derive(Clone, Copy, Debug, PartialEq, Eq)]
pub(crate) enum Work {
    /// It computes each word of its result from one of its argument.
    One(OneWork),
    /// It computes each word of its result from one of each of its two arguments.
    Two(TwoWork),
    /// It brings each word of its first argument between those of the two others.
    Clamp,
    /// It judges all words of its argument together.
    Judge(Judgement),
    /// It tells something of the lane, without an event.
    Tell(Told),
    /// It is a barrier of a mode.
    Barrier(u8),
    /// It is a wave operation, with one event for each word of its argument.
    Wave(WaveWork),
    /// A wave operation with the lane that is read as its second argument.
    WaveAt(WaveKind),
    /// A wave operation without an argument.
    WaveAlone(WaveKind),
    /// A wave operation with one component, and a reply of four words.
    WaveFour(WaveKind),
    /// It is an atomic operation, which is a form of expression of its own.
    OwnForm,
}

/// What the intrinsic function of a number does.
pub(crate) fn work_of(number: u8) -> Work
    ensures { plain_work result ≡ work_of number }
{
    match number {
        numbers::ABS => Work::One(OneWork::Absolute),
        numbers::MIN => Work::Two(TwoWork::Lesser),
        numbers::MAX => Work::Two(TwoWork::Greater),
        numbers::CLAMP => Work::Clamp,
        numbers::COUNT_BITS => Work::One(OneWork::CountBits),
        numbers::REVERSE_BITS => Work::One(OneWork::ReverseBits),
        numbers::FIRST_BIT_LOW => Work::One(OneWork::FirstBitLow),
        numbers::ANY => Work::Judge(Judgement::Any),
        numbers::ALL => Work::Judge(Judgement::All),
        numbers::AS_UINT => Work::One(OneWork::SameBits),
        numbers::AS_INT => Work::One(OneWork::SameBits),
        numbers::GROUP_MEMORY_BARRIER => Work::Barrier(GROUPSHARED_MEMORY),
        numbers::GROUP_MEMORY_BARRIER_WITH_GROUP_SYNC => Work::Barrier(
            GROUPSHARED_MEMORY + GROUP_SYNC,
        ),
        numbers::DEVICE_MEMORY_BARRIER => Work::Barrier(BUFFER_MEMORY),
        numbers::DEVICE_MEMORY_BARRIER_WITH_GROUP_SYNC => Work::Barrier(BUFFER_MEMORY + GROUP_SYNC),
        numbers::ALL_MEMORY_BARRIER => Work::Barrier(BUFFER_MEMORY + GROUPSHARED_MEMORY),
        numbers::ALL_MEMORY_BARRIER_WITH_GROUP_SYNC => Work::Barrier(
            BUFFER_MEMORY + GROUPSHARED_MEMORY + GROUP_SYNC,
        ),
        numbers::WAVE_IS_FIRST_LANE => Work::WaveAlone(WaveKind::IsFirst),
        numbers::WAVE_GET_LANE_INDEX => Work::Tell(Told::LaneIndex),
        numbers::WAVE_GET_LANE_COUNT => Work::Tell(Told::WaveSize),
        _ if number > numbers::WAVE_GET_LANE_COUNT => wave_work_of(number),
        _ => Work::OwnForm,
    }
}

/// What the wave operation of a number does.
fn wave_work_of(number: u8) -> Work
    requires { 28 < number }
    ensures { plain_work result ≡ work_of number }
{
    match number {
        numbers::WAVE_ACTIVE_ANY_TRUE => always(WaveKind::AnyTrue),
        numbers::WAVE_ACTIVE_ALL_TRUE => always(WaveKind::AllTrue),
        numbers::WAVE_ACTIVE_BALLOT => Work::WaveFour(WaveKind::Ballot),
        numbers::WAVE_ACTIVE_ALL_EQUAL => always(WaveKind::AllEqual),
        numbers::WAVE_READ_LANE_AT => Work::WaveAt(WaveKind::ReadLaneAt),
        numbers::WAVE_READ_LANE_FIRST => always(WaveKind::ReadLaneFirst),
        numbers::WAVE_ACTIVE_SUM => always(WaveKind::Sum),
        numbers::WAVE_ACTIVE_PRODUCT => always(WaveKind::Product),
        numbers::WAVE_ACTIVE_MIN => by_sign(WaveKind::SignedMin, WaveKind::UnsignedMin),
        numbers::WAVE_ACTIVE_MAX => by_sign(WaveKind::SignedMax, WaveKind::UnsignedMax),
        numbers::WAVE_PREFIX_SUM => always(WaveKind::PrefixSum),
        numbers::WAVE_PREFIX_PRODUCT => always(WaveKind::PrefixProduct),
        numbers::WAVE_ACTIVE_BIT_AND => always(WaveKind::BitAnd),
        numbers::WAVE_ACTIVE_BIT_OR => always(WaveKind::BitOr),
        numbers::WAVE_ACTIVE_BIT_XOR => always(WaveKind::BitXor),
        numbers::WAVE_ACTIVE_COUNT_BITS => always(WaveKind::Sum),
        numbers::WAVE_PREFIX_COUNT_BITS => always(WaveKind::PrefixSum),
        _ => Work::OwnForm,
    }
}

/// A wave operation of one kind.
fn always(kind: WaveKind) -> Work
    ensures { result ≡ Work.Wave (WaveWork.Always kind) }
{
    Work::Wave(WaveWork::Always(kind))
}

/// A wave operation of one kind for int and of another one for uint.
fn by_sign(signed: WaveKind, unsigned: WaveKind) -> Work
    ensures { result ≡ Work.Wave (WaveWork.BySign signed unsigned) }
{
    Work::Wave(WaveWork::BySign { signed, unsigned })
}

/// The kind of a wave operation with an argument of a kind.
pub(crate) fn wave_kind(work: WaveWork, kind: Kind) -> WaveKind
    ensures { result ≡ plain_wave work kind }
{
    match work {
        WaveWork::Always(always) => always,
        WaveWork::BySign { signed, unsigned } => match kind {
            Kind::Int => signed,
            Kind::Bool | Kind::Uint => unsigned,
        },
    }
}
