//! Laws on the events of a well-formed program: functions that do nothing, and whose contracts say what always holds.

ghost use Rattle.event_laws.specs.Laws.{EventsHaveWords, EventsNameWhatIsThere};

/// The numbers that a lane computes for its events are words of 32 bits, whatever the replies hold.
pub fn events_have_words()
    ensures { EventsHaveWords }
{}

/// Each event names a buffer or a word of a groupshared variable that is there, and stores from one to four words to a
/// buffer, or is a barrier or a wave operation of the source.
pub fn events_name_what_is_there()
    ensures { EventsNameWhatIsThere }
{}
