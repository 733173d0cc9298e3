//! Laws on the lane of a program: functions that do nothing, and whose contracts say what always holds.

ghost use Rattle.source_laws.specs.Laws.{RunsExtend, StartIsNotRead};

/// More turns and further replies only extend a run: no outcome but want of turns or of a reply changes, and no event
/// depends on replies that come after it.
pub fn runs_extend()
    ensures { RunsExtend }
{}

/// No run depends on the words that the private allocations of its lane start with.
pub fn start_is_not_read()
    ensures { StartIsNotRead }
{}
