//! The events that a lane asks, the replies that it gets, and the faults that end it.

/// A buffer's place among the bindings: its class (0 read-only, 1 writable), register space and
/// register.
#[derive(Clone, Copy, Debug, PartialEq, Eq)]
pub struct Slot {
    pub class: u8,
    pub space: u32,
    pub register: u32,
}

/// A word of a groupshared variable: the variable's number and the word's place in it.
#[derive(Clone, Copy, Debug, PartialEq, Eq)]
pub struct Cell {
    pub variable: u32,
    pub word: u32,
}

/// What an atomic operation does with the word that is there and the word that it is given.
#[derive(Clone, Copy, Debug, PartialEq, Eq)]
pub enum AtomicKind {
    Add,
    And,
    Or,
    Xor,
    IMin,
    IMax,
    UMin,
    UMax,
    Exchange,
}

/// What the lanes of a wave compute together.
#[derive(Clone, Copy, Debug, PartialEq, Eq)]
pub enum WaveKind {
    AnyTrue,
    AllTrue,
    AllEqual,
    Ballot,
    ReadLaneAt,
    ReadLaneFirst,
    IsFirst,
    Sum,
    Product,
    SignedMin,
    SignedMax,
    UnsignedMin,
    UnsignedMax,
    BitAnd,
    BitOr,
    BitXor,
    PrefixSum,
    PrefixProduct,
}

/// One event that a lane asks.
///
/// The byte address of a buffer event is `index` times the buffer's stride plus `offset`. Words of a
/// `BufferStore` past `count` (1 to 4) are 0. The `lane` of a `Wave` event is 0 for every kind but
/// `ReadLaneAt`.
#[derive(Clone, Copy, Debug, PartialEq, Eq)]
pub enum Event {
    BufferLoad {
        slot: Slot,
        index: u32,
        offset: u32,
    },
    BufferStore {
        slot: Slot,
        index: u32,
        offset: u32,
        count: u8,
        words: [u32; 4],
    },
    BufferAtomic {
        slot: Slot,
        index: u32,
        offset: u32,
        kind: AtomicKind,
        word: u32,
    },
    BufferCompareExchange {
        slot: Slot,
        index: u32,
        offset: u32,
        compare: u32,
        word: u32,
    },
    SharedLoad {
        cell: Cell,
    },
    SharedStore {
        cell: Cell,
        word: u32,
    },
    SharedAtomic {
        cell: Cell,
        kind: AtomicKind,
        word: u32,
    },
    SharedCompareExchange {
        cell: Cell,
        compare: u32,
        word: u32,
    },
    Barrier {
        mode: u8,
    },
    Wave {
        kind: WaveKind,
        operand: u32,
        lane: u32,
    },
}

/// What ends a lane early. `ShiftTooFar` can come from a module alone.
#[derive(Clone, Copy, Debug, PartialEq, Eq)]
pub enum LaneFault {
    DivideByZero,
    DivideOverflow,
    OutOfBounds,
    ShiftTooFar,
}

/// What ends a run early: an address that isn't a multiple of 4, a lane that isn't there, or a
/// lane's own fault.
#[derive(Clone, Copy, Debug, PartialEq, Eq)]
pub enum RunFault {
    Misaligned,
    AbsentLane,
    Lane(LaneFault),
}

/// The answer to an event. Words past its value are 0, so a reply without a value has four zeros.
#[derive(Clone, Copy, Debug, PartialEq, Eq)]
pub struct Reply {
    pub words: [u32; 4],
}

/// Where a lane stands: it asks an event, has ended, has faulted, or goes on past the bound.
#[derive(Clone, Copy, Debug, PartialEq, Eq)]
pub enum Asked {
    Asks(Event),
    Ended,
    Fault(LaneFault),
    Goes,
}

/// One step of a run: a lane's own event, a wave's operation, or a group's sync.
#[derive(Clone, Copy, Debug, PartialEq, Eq)]
pub enum Item {
    Lane(u32),
    Wave(u32),
    Sync(u32),
}
