//! What stays the same while a lane runs, and while one of its functions does.

ghost use Rattle.std.specs.Prelude.{◌≡◌, []};
ghost use Rattle.hl_meaning.specs.Layout.{struct_kinds_after};
ghost use Rattle.hl_meaning.specs.Views.{plain_structs};

use base_core::NoMemory;
use hl_layout::Kinds;
use hl_meaning::{FunctionDef, Program};
use lane_core::{Asked, LaneFault, Reply, Slot};
use std::alloc::{AllocFailed, Global};

/// Where a lane is: its group, its place in the group, its index in its wave, and the size of a wave. Nothing is asked of
/// the numbers: a place may be past the group, and an index past the wave.
#[derive(Clone, Copy, Debug, PartialEq, Eq)]
pub struct LanePlace {
    /// The place of its group in the dispatch: x, y, z, each from 0.
    pub group: [u32; 3],
    /// Its place in its group: x, y, z, each from 0.
    pub thread: [u32; 3],
    /// Its index in its wave, from 0.
    pub lane_index: u32,
    /// How many lanes a wave has.
    pub wave_size: u32,
}

/// What stays the same while a lane runs: the program, the kinds of the words of each of its structs, the slots of its
/// buffers, the lane, the replies, and how many turns each loop may take.
#[derive(Clone, Copy)]
pub(crate) struct Run<'a> {
    pub alloc: Global,
    pub program: &'a Program,
    pub kinds: &'a [Kinds],
    pub slots: &'a [Slot],
    pub lane: &'a LanePlace,
    pub replies: &'a [Reply],
    pub turns: u64,
    pub ghost known: { kinds.now ≡ struct_kinds_after [] (plain_structs program.now.structs) },
}

/// What stays the same while a function runs: the functions before it, which it can call, and itself.
#[derive(Clone, Copy)]
pub(crate) struct Context<'a> {
    pub run: &'a Run<'a>,
    pub callees: &'a [FunctionDef],
    pub function: &'a FunctionDef,
}

/// Why a run goes no further: memory was refused, or the lane asks an event without a reply, meets a fault, or has no turns
/// left in a loop.
#[derive(Clone, Copy, Debug, PartialEq, Eq)]
pub(crate) enum Stop {
    Memory,
    Ends(Asked),
}

impl From<NoMemory> for Stop {
    ghost use Rattle.std.specs.Prelude.{◌≡◌};
    ghost use Rattle.hl_interpreter.specs.declared.run.Stop.TheVariants.{Memory};

    ghost from_gives = { λ _ stop. stop ≡ Memory };

    fn from(_refused: NoMemory) -> Stop {
        Stop::Memory
    }
}

impl<T: Drop> From<AllocFailed<T>> for Stop {
    ghost use Rattle.std.specs.Prelude.{◌≡◌};
    ghost use Rattle.hl_interpreter.specs.declared.run.Stop.TheVariants.{Memory};

    ghost from_gives = { λ _ stop. stop ≡ Memory };

    fn from(_refused: AllocFailed<T>) -> Stop {
        Stop::Memory
    }
}

impl From<LaneFault> for Stop {
    ghost use Rattle.std.specs.Prelude.{◌≡◌};
    ghost use Rattle.lane_core.specs.declared.event.Asked.TheVariants.{Fault};
    ghost use Rattle.hl_interpreter.specs.declared.run.Stop.TheVariants.{Ends};

    ghost from_gives = { λ fault stop. stop ≡ Ends (Fault fault) };

    fn from(fault: LaneFault) -> Stop {
        Stop::Ends(Asked::Fault(fault))
    }
}
