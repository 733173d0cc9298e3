//! Laws on the meaning of programs: functions that do nothing, and whose contracts say what always holds.

ghost use Rattle.hl_source.specs.Laws.{FreeRegisterIsLeast};

/// The register of a buffer that gives none is the least that isn't taken.
pub fn free_register_is_least()
    ensures { FreeRegisterIsLeast }
{}
