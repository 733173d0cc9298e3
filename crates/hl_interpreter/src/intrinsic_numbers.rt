//! The numbers of the intrinsic functions. From 11 to 19 they are those of the atomic operations, which have a form of
//! expression of their own.

/// `abs`
pub(crate) const ABS: u8 = 0;
/// `min`
pub(crate) const MIN: u8 = 1;
/// `max`
pub(crate) const MAX: u8 = 2;
/// `clamp`
pub(crate) const CLAMP: u8 = 3;
/// `countbits`
pub(crate) const COUNT_BITS: u8 = 4;
/// `reversebits`
pub(crate) const REVERSE_BITS: u8 = 5;
/// `firstbitlow`
pub(crate) const FIRST_BIT_LOW: u8 = 6;
/// `any`
pub(crate) const ANY: u8 = 7;
/// `all`
pub(crate) const ALL: u8 = 8;
/// `asuint`
pub(crate) const AS_UINT: u8 = 9;
/// `asint`
pub(crate) const AS_INT: u8 = 10;
/// `GroupMemoryBarrier`
pub(crate) const GROUP_MEMORY_BARRIER: u8 = 20;
/// `GroupMemoryBarrierWithGroupSync`
pub(crate) const GROUP_MEMORY_BARRIER_WITH_GROUP_SYNC: u8 = 21;
/// `DeviceMemoryBarrier`
pub(crate) const DEVICE_MEMORY_BARRIER: u8 = 22;
/// `DeviceMemoryBarrierWithGroupSync`
pub(crate) const DEVICE_MEMORY_BARRIER_WITH_GROUP_SYNC: u8 = 23;
/// `AllMemoryBarrier`
pub(crate) const ALL_MEMORY_BARRIER: u8 = 24;
/// `AllMemoryBarrierWithGroupSync`
pub(crate) const ALL_MEMORY_BARRIER_WITH_GROUP_SYNC: u8 = 25;
/// `WaveIsFirstLane`
pub(crate) const WAVE_IS_FIRST_LANE: u8 = 26;
/// `WaveGetLaneIndex`
pub(crate) const WAVE_GET_LANE_INDEX: u8 = 27;
/// `WaveGetLaneCount`
pub(crate) const WAVE_GET_LANE_COUNT: u8 = 28;
/// `WaveActiveAnyTrue`
pub(crate) const WAVE_ACTIVE_ANY_TRUE: u8 = 29;
/// `WaveActiveAllTrue`
pub(crate) const WAVE_ACTIVE_ALL_TRUE: u8 = 30;
/// `WaveActiveBallot`
pub(crate) const WAVE_ACTIVE_BALLOT: u8 = 31;
/// `WaveActiveAllEqual`
pub(crate) const WAVE_ACTIVE_ALL_EQUAL: u8 = 32;
/// `WaveReadLaneAt`
pub(crate) const WAVE_READ_LANE_AT: u8 = 33;
/// `WaveReadLaneFirst`
pub(crate) const WAVE_READ_LANE_FIRST: u8 = 34;
/// `WaveActiveSum`
pub(crate) const WAVE_ACTIVE_SUM: u8 = 35;
/// `WaveActiveProduct`
pub(crate) const WAVE_ACTIVE_PRODUCT: u8 = 36;
/// `WaveActiveMin`
pub(crate) const WAVE_ACTIVE_MIN: u8 = 37;
/// `WaveActiveMax`
pub(crate) const WAVE_ACTIVE_MAX: u8 = 38;
/// `WavePrefixSum`
pub(crate) const WAVE_PREFIX_SUM: u8 = 39;
/// `WavePrefixProduct`
pub(crate) const WAVE_PREFIX_PRODUCT: u8 = 40;
/// `WaveActiveBitAnd`
pub(crate) const WAVE_ACTIVE_BIT_AND: u8 = 41;
/// `WaveActiveBitOr`
pub(crate) const WAVE_ACTIVE_BIT_OR: u8 = 42;
/// `WaveActiveBitXor`
pub(crate) const WAVE_ACTIVE_BIT_XOR: u8 = 43;
/// `WaveActiveCountBits`
pub(crate) const WAVE_ACTIVE_COUNT_BITS: u8 = 44;
/// `WavePrefixCountBits`
pub(crate) const WAVE_PREFIX_COUNT_BITS: u8 = 45;
