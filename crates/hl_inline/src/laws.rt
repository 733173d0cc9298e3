//! Laws on programs without calls: functions that do nothing, and whose contracts say what always holds.

ghost use Rattle.hl_inline.specs.Keeps.{InlinedIsFlat, InlinedKeeps, KeptIsSameLane};

/// What a program becomes without calls keeps its structs, buffers, groupshared variables and threads, the run of each
/// lane at each bound and with all replies, and the lengths of its indexed variables.
pub fn inlined_keeps()
    ensures { InlinedKeeps }
{}

/// What keeps all this has the same lanes.
pub fn kept_is_same_lane()
    ensures { KeptIsSameLane }
{}

/// What a program becomes is well formed, as the program is, where its groupshared variables are few enough.
pub fn inlined_is_well_formed()
    ensures { InlinedIsFlat }
{}
