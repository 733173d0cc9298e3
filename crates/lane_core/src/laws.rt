//! Laws on lane meanings: functions that do nothing, and whose contracts say what always holds.

ghost use Rattle.lane_core.specs.SameLane.{SameLaneIsTransitive};

/// A lane meaning that is the same as a second one, which is the same as a third one, is the same as
/// the third: so passes of a compiler compose.
pub fn same_lane_is_transitive()
    ensures { SameLaneIsTransitive }
{}
